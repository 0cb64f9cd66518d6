//! Multinames alone.

use abc_base::SteadySource;
use abc_file_types::{Multiname, Reason};
use abc_pools::{put_multiname, read_multiname};
use abc_varint::{ReadError, Window};
use std::alloc::Global;
use std::test::*;

/// Reads a name beside three strings, three namespaces, two sets and three names.
fn name_of(alloc: Global, bytes: &[u8]) -> Result<Multiname, ReadError> {
    let mut w = Window::new(alloc)?;
    let mut source = SteadySource::new(alloc, bytes, 1)?;
    read_multiname(alloc, &mut w, &mut source, 3, 3, 2, 3)
}

fn is_put(alloc: Global, name: &Multiname, bytes: &[u8]) -> Result<bool, Fail> {
    let mut out = Vec::new(alloc);
    put_multiname(name, &mut out)?;
    Ok(out.as_slice() == bytes)
}

fn is_type_name(name: &Multiname, wanted: u32, parameters: &[u32]) -> bool {
    match name {
        Multiname::TypeName { base, params } => {
            *base == wanted && params.as_slice() == parameters
        }
        _ => false,
    }
}

#[test]
fn type_name(rt: HostRuntime) -> Result<(), Fail> {
    let alloc = rt.alloc();
    let name = name_of(alloc, b"\x1d\x82\x00\x02\x00\x01")?;
    assert!(rt; is_type_name(&name, 2, &[0, 1]));
    let is_put = is_put(alloc, &name, b"\x1d\x02\x02\x00\x01")?;
    assert!(rt; is_put);
    Ok(())
}

/// The first of some canonical names that is not put as it stands.
fn first_changed(alloc: Global, rows: &[&[u8]]) -> Result<Option<usize>, Fail> {
    for (row, bytes) in rows.iter().enumerate() {
        if !is_put(alloc, &name_of(alloc, *bytes)?, *bytes)? {
            return Ok(Some(row));
        }
    }
    Ok(None)
}

/// One name of each kind.
#[test]
fn kinds(rt: HostRuntime) -> Result<(), Fail> {
    let rows = [
        b"\x07\x03\x02".as_slice(),
        b"\x0d\x00\x00".as_slice(),
        b"\x0f\x01".as_slice(),
        b"\x10\x00".as_slice(),
        b"\x11".as_slice(),
        b"\x12".as_slice(),
        b"\x09\x03\x02".as_slice(),
        b"\x0e\x00\x01".as_slice(),
        b"\x1b\x01".as_slice(),
        b"\x1c\x02".as_slice(),
        b"\x1d\x03\x00".as_slice(),
    ];
    let changed = first_changed(rt.alloc(), &rows)?;
    assert_eq!(rt; changed, None);
    Ok(())
}

fn fault_of(alloc: Global, bytes: &[u8]) -> Option<ReadError> {
    match name_of(alloc, bytes) {
        Ok(_) => None,
        Err(fault) => Some(fault),
    }
}

#[test]
fn refused(rt: HostRuntime) {
    for (bytes, place, reason) in [
        (b"\x08".as_slice(), 0, Reason::MultinameKind),
        (b"\x07\x04".as_slice(), 1, Reason::Index),
        (b"\x1d\x00".as_slice(), 1, Reason::Index),
        (b"\x1d\x01\x02\x03\x04".as_slice(), 4, Reason::Index),
        (b"\x1b".as_slice(), 1, Reason::Short),
    ] {
        assert_eq!(rt;
            fault_of(rt.alloc(), bytes),
            Some(ReadError::Refused { place, reason })
        );
    }
}
