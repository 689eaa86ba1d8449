//! Tests of bundles that are read at once, from memory.

use mc_bundle::*;
use std::alloc::Global;
use std::fmt::Write;
use std::test::Fail;

/// Bundles, and how each is read: its parts, a name and a length each, or its fault. In their bytes a
/// `~` is a line feed.
const BUNDLES: &str = "\
mcaudit bundle 1~end~: no part
mcaudit bundle 1~part a 0~~end~: a 0;
mcaudit bundle 1~part a 0~~: NoEnd
mcaudit bundle 1~part a 0~~end~~: AfterEnd
mcaudit bundle 2~end~: NoMagic
mcaudit bundle 1~part a 01~x~end~: BadPartLine
mcaudit bundle 1~part a 2~x~end~: BadPartLine
mcaudit bundle 1~part a 9~x~end~: Truncated
mcaudit bundle 1~part a 16777217~: TooLarge";

/// The bytes of a text in which `~` is a line feed.
pub(super) fn bytes_of(alloc: Global, text: &str) -> Result<Vec<u8>, Fail> {
    let mut bytes = Vec::from_slice(alloc, text.as_bytes())?;
    for byte in &mut bytes {
        if *byte == b'~' {
            *byte = b'\n';
        }
    }
    Ok(bytes)
}

/// Writes the name and the length of each part.
fn push_parts(text: &mut String, bundle: &Bundle<'_>) -> Result<(), Fail> {
    if bundle.count() == 0 {
        text.push_str("no part")?;
    }
    for place in 0..bundle.count() {
        let part = bundle.part(place);
        write!(text, "{} {};", part.name, part.bytes.len())?;
    }
    Ok(())
}

/// What the bytes are read as, in the form of `BUNDLES`.
fn printed_reading(alloc: Global, bytes: &[u8]) -> Result<String, Fail> {
    let mut text = String::new(alloc);
    match Bundle::read(alloc, bytes) {
        Ok(bundle) => push_parts(&mut text, &bundle)?,
        Err(fault) => write!(text, "{fault}")?,
    }
    Ok(text)
}

#[test]
fn bundles_are_read_or_refused(rt: HostRuntime) -> Result<(), Fail> {
    for case in BUNDLES.lines() {
        let (text, wanted) = case.split_once(": ").ok_or("a bundle and how it is read")?;
        let bytes = bytes_of(rt.alloc(), text)?;
        let reading = printed_reading(rt.alloc(), &bytes)?;
        assert!(rt; reading.as_str() == wanted, "{text} is read as {reading}");
    }
    Ok(())
}

/// The bundle of a chain of two routers.
const CHAIN: &[u8] = br#"mcaudit bundle 1
part topology 385
version = 1
lans = ["l0", "l1", "l2"]
router = [{name = "r1"}, {name = "r2"}]
interface = [
{router = "r1", device = "eth0", lan = "l0"},
{router = "r1", device = "eth1", lan = "l1"},
{router = "r2", device = "eth0", lan = "l1"},
{router = "r2", device = "eth1", lan = "l2"},
]
source = [{address = "10.0.0.5", lan = "l0"}]
flow = [{source = "10.0.0.5", group = "239.1.2.3", ttl = 3}]

part vif/r1 139
Interface BytesIn PktsIn BytesOut PktsOut Flags Local Remote
0 eth0 0 0 0 0 00000 00000000 00000000
1 eth1 0 0 0 0 00000 00000000 00000000

part cache/r1 69
Group Origin Iif Pkts Bytes Wrong Oifs
030201EF 0500000A 0 0 0 0 1:1

part vif/r2 139
Interface BytesIn PktsIn BytesOut PktsOut Flags Local Remote
0 eth0 0 0 0 0 00000 00000000 00000000
1 eth1 0 0 0 0 00000 00000000 00000000

part cache/r2 69
Group Origin Iif Pkts Bytes Wrong Oifs
030201EF 0500000A 0 0 0 0 1:1

part igmp/l0 0

part igmp/l1 0

part igmp/l2 33
2200eaf90000000102000000ef010203

part certificate 215
{"flows":[{"group":"239.1.2.3","reached":[{"lan":"l0","need":1,"rank":0},{"lan":"l1","need":2,"rank":1,"router":"r1","vif":1},{"lan":"l2","need":3,"rank":2,"router":"r2","vif":1}],"source":"10.0.0.5"}],"version":1}

end
"#;

/// The chain's parts.
const PARTS: &str =
    "topology 385;vif/r1 139;cache/r1 69;vif/r2 139;cache/r2 69;igmp/l0 0;igmp/l1 0;\
    igmp/l2 33;certificate 215;";

/// The chain's bundle, read again if memory runs out.
fn chain_with_retry(alloc: Global) -> Result<Bundle<'static>, BundleFault> {
    match Bundle::read(alloc, CHAIN) {
        Err(BundleFault::Memory) => Bundle::read(alloc, CHAIN),
        answer => answer,
    }
}

/// Whether the chain's bundle has its last list of reports.
fn has_reports(bundle: &Bundle<'_>) -> bool {
    bundle.count() == 9
        && bundle.part(7).name.as_bytes() == b"igmp/l2".as_slice()
        && bundle.part(7).bytes == b"2200eaf90000000102000000ef010203\n".as_slice()
}

#[test]
fn bundle_is_read_after_a_refused_growth(rt: HostRuntime) -> Result<(), Fail> {
    let bundle = chain_with_retry(rt.alloc())?;
    assert!(rt; has_reports(&bundle));
    let mut parts = String::new(rt.alloc());
    push_parts(&mut parts, &bundle)?;
    assert_eq!(rt; parts.as_str(), PARTS);
    Ok(())
}

/// Each front of the chain's bytes is refused: one that ends in the first line, one that ends in a part
/// or before its line feed, and one that ends where a line is expected.
#[test]
fn cut_bundles_are_refused(rt: HostRuntime) {
    let (mut no_magic, mut truncated, mut no_end) = (0u32, 0u32, 0u32);
    for cut in 0..CHAIN.len() {
        match Bundle::read(rt.alloc(), &CHAIN[..cut]).err() {
            Some(BundleFault::NoMagic) => no_magic = no_magic.saturating_add(1),
            Some(BundleFault::Truncated) => truncated = truncated.saturating_add(1),
            Some(BundleFault::NoEnd) => no_end = no_end.saturating_add(1),
            _ => {}
        }
    }
    assert!(rt; (no_magic, truncated, no_end) == (17, 1058, 155));
}
