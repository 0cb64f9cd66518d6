ghost use Rattle.std.specs.Prelude.{All};
ghost use Rattle.abc_disasm.specs.Texts.{definitions_text, front_text, pools_text, version_text, whole_text};
ghost use Rattle.abc_text_lines.specs.Listing.{listing};
ghost use Rattle.abc_file_types.specs.Bodies.{IsReadyBody};
ghost use Rattle.abc_varint.specs.Puts.{Puts, PutsWhole};

use crate::listed::put_all;
use crate::put_bodies::put_bodies;
use abc_base::NoMemory;
use abc_file_types::Abc;
use abc_text_writer::{Shown, put};
use std::alloc::Global;

fn put_version(out: &mut Vec<u8>) -> Result<(), NoMemory>
    ensures { PutsWhole out.old.items out.new.items result version_text }
{
    put(b"abc 16 46\n", out)
}

#[tactic(auto, using(abc_varint::proofs::Putting::stays, std::proofs::Common::append_assoc))]
fn put_pools(abc: &Shown<'_>, out: &mut Vec<u8>) -> Result<(), NoMemory>
    ensures { Puts out.old.items out.new.items result (pools_text abc.now) }
{
    put_all(&abc.file().ints, abc, out)?;
    put_all(&abc.file().uints, abc, out)?;
    put_all(&abc.file().doubles, abc, out)?;
    put_all(&abc.file().strings, abc, out)?;
    put_all(&abc.file().namespaces, abc, out)?;
    put_all(&abc.file().sets, abc, out)?;
    put_all(&abc.file().names, abc, out)?;
    Ok(())
}

#[tactic(auto, using(abc_varint::proofs::Putting::stays, std::proofs::Common::append_assoc))]
fn put_definitions(abc: &Shown<'_>, out: &mut Vec<u8>) -> Result<(), NoMemory>
    ensures { Puts out.old.items out.new.items result (definitions_text abc.now) }
{
    put_all(&abc.file().methods, abc, out)?;
    put_all(&abc.file().metadata, abc, out)?;
    put_all(&abc.file().instances, abc, out)?;
    put_all(&abc.file().classes, abc, out)?;
    put_all(&abc.file().scripts, abc, out)?;
    Ok(())
}

/// Appends the lines of a file that stand before those of its bodies, whatever bodies it has. Where memory runs out, the
/// old bytes are still the front.
#[tactic(auto, using(abc_varint::proofs::Putting::stays, std::proofs::Common::append_assoc))]
pub fn put_front(abc: &Shown<'_>, out: &mut Vec<u8>) -> Result<(), NoMemory>
    ensures { Puts out.old.items out.new.items result (front_text abc.now) }
{
    put_version(out)?;
    put_pools(abc, out)?;
    put_definitions(abc, out)?;
    Ok(())
}

#[tactic(auto, using(abc_varint::proofs::Putting::stays, std::proofs::Common::append_assoc))]
fn put_file(alloc: Global, abc: &Abc, out: &mut Vec<u8>) -> Result<(), NoMemory>
    requires { All IsReadyBody (abc.now).bodies }
    ensures { Puts out.old.items out.new.items result (whole_text abc.now) }
{
    let shown = Shown::new(alloc, abc)?;
    put_front(&shown, out)?;
    put_bodies(alloc, &abc.bodies, &shown, out)?;
    Ok(())
}

/// Appends the one text of a file, of which some bytes spell each body's code. Where memory runs out, the bytes stay as
/// they were. It takes a byte for each instruction of the longest body, and time that grows with the value and the text.
#[tactic(auto, using(crate::proofs::Rendering::listing_is))]
pub fn disassemble(alloc: Global, abc: &Abc, out: &mut Vec<u8>) -> Result<(), NoMemory>
    requires { All IsReadyBody (abc.now).bodies }
    ensures { PutsWhole out.old.items out.new.items result (listing abc.now) }
{
    let len = out.len();
    let done = put_file(alloc, abc, out);
    if done.is_err() {
        out.truncate(len);
    }
    done
}
