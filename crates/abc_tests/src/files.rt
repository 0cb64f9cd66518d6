//! Whole files: the text of one, its bodies, a copy, and a tidied one.
ghost use Rattle.std.specs.Prelude.{All, IfOk};
ghost use Rattle.abc_file_types.specs.Bodies.{IsReadyBody};

use abc_base::SteadySource;
use abc_bodies::put_bodies;
use abc_disasm::disassemble;
use abc_file::read;
use abc_file_types::Abc;
use abc_tables::same;
use abc_tidy::tidy;
use std::alloc::{AllocError, Global};
use std::test::*;

/// A script that writes `Hi`.
const HI: &[u8] =
    b"\x10\x00\x2e\x00\x00\x00\x00\x03\x05trace\x02Hi\x02\x16\x00\x00\x02\x07\x01\x01\x01\x00\x00\x00\x00\x00\x00\x01\x00\x00\x01\x00\x02\x01\x00\x01\x0a\xd0\x30\x5d\x01\x2c\x02\x4f\x01\x01\x47\x00\x00";

/// Its bodies.
const BODIES: &[u8] =
    b"\x01\x00\x02\x01\x00\x01\x0a\xd0\x30\x5d\x01\x2c\x02\x4f\x01\x01\x47\x00\x00";

/// Its text.
const TEXT: &[u8] =
    b"abc 16 46\nstring \"trace\"\nstring \"Hi\"\nns Package 0 ; \"\"\nname QName 1 1 ; \"trace\"\nmethod 0 0 0\nscript 0\nbody 0 2 1 0 1\ngetlocal_0\npushscope\nfindpropstrict 1 ; \"trace\"\npushstring 2 ; \"Hi\"\ncallpropvoid 1 1 ; \"trace\"\nreturnvoid\n";

/// The same script, whose strings are exchanged and one of them doubled, beside a number that nothing names.
const UNTIDY: &[u8] =
    b"\x10\x00\x2e\x00\x02\x05\x00\x00\x04\x02Hi\x05trace\x02Hi\x02\x16\x00\x00\x02\x07\x01\x02\x01\x00\x00\x00\x00\x00\x00\x01\x00\x00\x01\x00\x02\x01\x00\x01\x0a\xd0\x30\x5d\x01\x2c\x03\x4f\x01\x01\x47\x00\x00";

/// The file that the bytes spell. It stands in a box, so that what drops it is proved once.
fn file_of(alloc: Global, bytes: &[u8]) -> Result<Box<Abc>, Fail>
    ensures { IfOk result (λ f. All IsReadyBody f.value.bodies) }
{
    let (abc, _places) = read(alloc, &mut SteadySource::new(alloc, bytes, 7)?)?;
    match Box::new(alloc, abc) {
        Ok(file) => Ok(file),
        Err(failed) => Err(Fail::from(AllocError::from(failed))),
    }
}

fn text_of(alloc: Global, bytes: &[u8]) -> Result<Vec<u8>, Fail> {
    let file = file_of(alloc, bytes)?;
    let mut out = Vec::new(alloc);
    disassemble(alloc, &file, &mut out)?;
    Ok(out)
}

fn bodies_of(alloc: Global, bytes: &[u8]) -> Result<Vec<u8>, Fail> {
    let file = file_of(alloc, bytes)?;
    let mut out = Vec::new(alloc);
    put_bodies(alloc, &file, &mut out)?;
    Ok(out)
}

/// Whether a file has this text, and these bodies.
fn is_put(alloc: Global, bytes: &[u8], text: &[u8], bodies: &[u8]) -> Result<bool, Fail> {
    Ok(text_of(alloc, bytes)?.as_slice() == text && bodies_of(alloc, bytes)?.as_slice() == bodies)
}

#[test]
fn text_and_bodies(rt: HostRuntime) -> Result<(), Fail> {
    let is_put = is_put(rt.alloc(), HI, TEXT, BODIES)?;
    assert!(rt; is_put);
    Ok(())
}

/// The copy of a file, in a box.
fn copy_of(alloc: Global, bytes: &[u8]) -> Result<Box<Abc>, Fail> {
    let file = file_of(alloc, bytes)?;
    match Box::new(alloc, file.copy(alloc)?) {
        Ok(copy) => Ok(copy),
        Err(failed) => Err(Fail::from(AllocError::from(failed))),
    }
}

/// The tidied file, in a box.
fn tidied(alloc: Global, bytes: &[u8]) -> Result<Box<Abc>, Fail> {
    let file = file_of(alloc, bytes)?;
    match Box::new(alloc, tidy(alloc, &file)?) {
        Ok(tidied) => Ok(tidied),
        Err(failed) => Err(Fail::from(AllocError::from(failed))),
    }
}

/// Whether a file is the one that the bytes spell.
fn is_file(alloc: Global, file: &Abc, bytes: &[u8]) -> Result<bool, Fail> {
    let wanted = file_of(alloc, bytes)?;
    Ok(same(file, &wanted))
}

#[test]
fn copies(rt: HostRuntime) -> Result<(), Fail> {
    let alloc = rt.alloc();
    let copy = copy_of(alloc, HI)?;
    let is_hi = is_file(alloc, &copy, HI)?;
    let is_untidy = is_file(alloc, &copy, UNTIDY)?;
    assert!(rt; is_hi);
    assert!(rt; !is_untidy);
    Ok(())
}

#[test]
fn tidying(rt: HostRuntime) -> Result<(), Fail> {
    let alloc = rt.alloc();
    let tidied = tidied(alloc, UNTIDY)?;
    let is_hi = is_file(alloc, &tidied, HI)?;
    assert!(rt; is_hi);
    Ok(())
}
