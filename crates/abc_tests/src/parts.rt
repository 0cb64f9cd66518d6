//! A front of a source as a source, and bytes that are compared with those of a source.

use abc_base::{Failed, MemSource, Source, SteadySource, write_all};
use abc_log::{Compare, Part, Verdict};
use std::test::*;

#[test]
fn part(rt: HostRuntime) -> Result<(), Fail> {
    let mut part = Part::new(SteadySource::new(rt.alloc(), b"abcde", 2)?, 3);
    let mut block = [0; 4];
    for count in [2, 1, 0] {
        assert_eq!(rt; part.read(&mut block), Ok(count));
    }
    assert_eq!(rt; part.room(), 0);
    let mut rest = part.into_inner();
    assert_eq!(rt; rest.read(&mut block), Ok(2));
    assert_eq!(rt; block, *b"de\0\0");
    Ok(())
}

#[test]
fn other_byte(rt: HostRuntime) -> Result<(), Fail> {
    let mut compare = Compare::new(SteadySource::new(rt.alloc(), b"abc", 2)?);
    assert_eq!(rt; write_all(&mut compare, b"ab"), Ok(()));
    assert_eq!(rt; compare.verdict(), Verdict::Same);
    for piece in [b"d".as_slice(), b"c".as_slice()] {
        assert_eq!(rt; write_all(&mut compare, piece), Err(Failed));
        assert_eq!(rt; compare.verdict(), Verdict::Differs(2));
    }
    assert_eq!(rt; compare.agreed(), 2);
    Ok(())
}

#[test]
fn failing_source(rt: HostRuntime) -> Result<(), Fail> {
    let mut compare = Compare::new(MemSource::new(rt.alloc(), b"abc", 1, &[1])?);
    assert_eq!(rt; write_all(&mut compare, b"ab"), Err(Failed));
    assert_eq!(rt; compare.verdict(), Verdict::ReadFault);
    assert_eq!(rt; compare.agreed(), 1);
    Ok(())
}
