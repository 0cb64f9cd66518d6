//! Streams that never fail, and adapters over std's readers and writers.

use abc_base::{Failed, Sink, Source, StdSink, StdSource, SteadySink, SteadySource, write_all};
use std::test::*;

#[test]
fn steady_sink(rt: HostRuntime) {
    let mut out = SteadySink::new();
    assert_eq!(rt; out.write(b"abc"), Ok(3));
    assert_eq!(rt; write_all(&mut out, b"abc"), Ok(()));
}

#[test]
fn steady_source(rt: HostRuntime) -> Result<(), Fail> {
    let mut source = SteadySource::new(rt.alloc(), b"abcde", 3)?;
    let mut block = [0; 4];
    for count in [3, 2, 0, 0] {
        assert_eq!(rt; source.read(&mut block), Ok(count));
    }
    assert_eq!(rt; block, *b"dec\0");
    Ok(())
}

#[test]
fn std_source(rt: HostRuntime) {
    let mut source = StdSource::new(b"abcdef".as_slice());
    let mut block = [0; 4];
    assert_eq!(rt; source.read(&mut block), Ok(4));
    assert_eq!(rt; block, *b"abcd");
    assert_eq!(rt; source.read(&mut block), Ok(2));
    assert_eq!(rt; source.read(&mut block), Ok(0));
}

#[test]
fn std_sink(rt: HostRuntime) {
    let mut block = [0u8; 4];
    let mut out = StdSink::new(block.as_mut_slice());
    assert_eq!(rt; write_all(&mut out, b"abc"), Ok(()));
    assert_eq!(rt; write_all(&mut out, b"def"), Err(Failed));
    assert_eq!(rt; block, *b"abcd");
}
