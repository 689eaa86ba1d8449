//! Tests of a bundle that is read part by part, past its end, and after a fault.

use mc_bundle::*;
use std::test::Fail;

const TEXT: &[u8] = b"mcaudit bundle 1\npart a 3\nx\ny\npart b/c 0\n\nend\n";

#[test]
fn bundle_is_read_part_by_part(rt: HostRuntime) -> Result<(), Fail> {
    let mut parts = Parts::new(FromReader::new(TEXT));
    let mut buffer = [0u8; 2];
    assert!(rt; parts.next()?);
    assert!(rt; parts.name().as_bytes() == b"a".as_slice());
    assert!(rt; parts.length() == 3);
    assert!(rt; parts.read(&mut buffer)? == 2);
    assert!(rt; buffer.as_slice() == b"x\n".as_slice());
    assert!(rt; parts.read(&mut buffer)? == 1);
    assert!(rt; buffer[0] == b'y');
    assert!(rt; parts.read(&mut buffer)? == 0);
    assert!(rt; parts.next()?);
    assert!(rt; parts.name().as_bytes() == b"b/c".as_slice());
    assert!(rt; parts.length() == 0);
    assert!(rt; !parts.next()?);
    assert!(rt; !parts.next()?);
    Ok(())
}

#[test]
fn cut_part_ends_the_bundle(rt: HostRuntime) {
    let mut parts = Parts::new(FaultyInput::new(&TEXT[..28], 5, 100));
    let mut buffer = [0u8; 8];
    assert!(rt; parts.next() == Ok(true));
    assert!(rt; parts.read(&mut buffer) == Ok(2));
    assert!(rt; parts.read(&mut buffer) == Err(BundleFault::Truncated));
    assert!(rt; parts.read(&mut buffer) == Err(BundleFault::Failed));
    assert!(rt; parts.next() == Err(BundleFault::Failed));
    assert!(rt; parts.into_input().failures() == 0);
}

#[test]
fn failed_read_ends_the_bundle(rt: HostRuntime) {
    let mut parts = Parts::new(FaultyInput::new(TEXT, 5, 20));
    assert!(rt; parts.next() == Err(BundleFault::Read));
    assert!(rt; parts.next() == Err(BundleFault::Failed));
    assert!(rt; parts.into_input().failures() == 1);
}
