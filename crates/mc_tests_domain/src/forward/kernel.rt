//! Domains of texts of real Linux kernels and of reports that hosts sent: on which LAN each vif is, and
//! which LAN wants what. How the routers forward is shown by the command line's cases for the same
//! texts (`make_kernel_texts_*`).

use crate::samples::{CHAIN, Network, WANTED, with_domain};
use mc_forward::Domain;
use mc_topology::{LanNo, RouterNo};
use std::alloc::Global;
use std::process::Abort;
use std::test::Fail;

/// A router with a register vif that no flow uses. Its vifs and cache are as a Linux kernel printed
/// them.
const REGISTER: Network<'static> = Network {
    lans: "l0; l1",
    routers: "r1",
    interfaces: "r1 eth0 l0; r1 eth1 l1",
    flows: "10.0.0.5 239.1.2.3 2",
    ..CHAIN
};

const REGISTER_VIFS: &str = "Interface      BytesIn  PktsIn  BytesOut PktsOut Flags Local    Remote
 0 eth0              0       0         0       0 00000 010014AC 00000000
 1 eth1              0       0         0       0 00000 020114AC 00000000
 2 pimreg            0       0         0       0 00004 00000000 00000000
";

const REGISTER_CACHE: &str = "Group    Origin   Iif     Pkts    Bytes    Wrong Oifs
030201EF 0500000A 0          0        0        0  1:1  
030201EF 0600000A 2          0        0        0  1:1  
";

const REGISTER_TABLES: &[(&str, &str)] = &[(REGISTER_VIFS, REGISTER_CACHE)];

/// A router from l0 to l1 and l2, with five flows. Its vifs and cache are as a Linux kernel printed
/// them.
const FILTERS: Network<'static> = Network {
    routers: "r1",
    interfaces: "r1 eth0 l0; r1 eth1 l1; r1 eth2 l2",
    sources: "10.0.0.5 l0; 10.0.0.6 l0; 10.0.0.7 l0",
    flows: "10.0.0.5 239.1.2.3 2; 10.0.0.6 239.1.2.3 2; 10.0.0.7 239.1.2.3 2; \
            10.0.0.5 232.1.1.1 2; 10.0.0.6 232.1.1.1 2",
    ..CHAIN
};

const FILTERS_VIFS: &str = "Interface      BytesIn  PktsIn  BytesOut PktsOut Flags Local    Remote
 0 eth0              0       0         0       0 00000 010014AC 00000000
 1 eth1              0       0         0       0 00000 020114AC 00000000
 2 eth2              0       0         0       0 00000 030214AC 00000000
";

const FILTERS_CACHE: &str = "Group    Origin   Iif     Pkts    Bytes    Wrong Oifs
030201EF 0500000A 0          0        0        0  1:1    2:1  
030201EF 0600000A 0          0        0        0  1:1  
030201EF 0700000A 0          0        0        0  2:1  
010101E8 0500000A 0          0        0        0  1:1  
010101E8 0600000A 0          0        0        0  1:1    2:1  
";

const FILTERS_TABLES: &[(&str, &str)] = &[(FILTERS_VIFS, FILTERS_CACHE)];

/// The reports that were captured on l0, l1 and l2 after a General Query.
const FILTERS_L0: &str = "1101ecfe0000000002000000\n";

const FILTERS_L1: &str = "1101ecfe0000000002000000
2200e9f50000000101000001e80101010a000005
2200cde20000000101000003ef0102030a0000050a0000060a000009
";

const FILTERS_L2: &str = "1101ecfe0000000002000000
2200e2de0000000201000001e80101010a00000902000002ef0102030a0000050a000006
2200e1e00000000202000001e80101010a00000502000002ef0102030a0000060a000007
2200e0f20000000102000001ef0102030a000006
";

const FILTERS_LANS: &[&str] = &[FILTERS_L0, FILTERS_L1, FILTERS_L2];

/// The LAN of a vif of the first router.
fn placed(rt: &impl Abort, domain: &Domain, vif: u8) -> Option<LanNo> {
    assert!(rt; domain.topology().routers() > 0);
    domain.placed(RouterNo(0), vif)
}

/// Vifs 0 and 1 are on the LANs of their devices, and no other vif is on any.
fn assert_two_vifs_placed(rt: &impl Abort, domain: &Domain) {
    assert!(rt; placed(rt, domain, 0) == Some(LanNo(0)));
    assert!(rt; placed(rt, domain, 1) == Some(LanNo(1)));
    for vif in [2u8, 3, 31, 32, 255] {
        assert!(rt; placed(rt, domain, vif).is_none(), "at vif {vif}");
    }
}

#[test]
fn register_vif_lies_on_no_lan(rt: HostRuntime) -> Result<(), Fail> {
    let lans = &["", WANTED];
    with_domain(rt.alloc(), &REGISTER, REGISTER_TABLES, lans, |domain| {
        assert_two_vifs_placed(&rt, domain);
        Ok(())
    })
}

/// A LAN has one interface, at this vif of the first router, and wants each flow as its word says:
/// `yes`, `no`, or `-` for a flow that isn't checked.
fn assert_interface_and_wants(rt: &impl Abort, domain: &Domain, lan: u32, vif: u8, words: &str) {
    assert!(rt; lan < domain.topology().lans());
    let mut interfaces = domain.interfaces(LanNo(lan));
    assert!(rt; interfaces.next() == Some((RouterNo(0), vif)));
    assert!(rt; interfaces.next().is_none());
    for (flow, word) in (0..5u32).zip(words.split(' ')) {
        if word != "-" {
            assert!(rt; flow < domain.topology().flows());
            let found = domain.wants(LanNo(lan), flow);
            assert!(rt; found == (word == "yes"), "LAN {lan} flow {flow}");
        }
    }
}

#[test]
fn reports_of_three_hosts(rt: HostRuntime) -> Result<(), Fail> {
    let (tables, lans) = (FILTERS_TABLES, FILTERS_LANS);
    with_domain(rt.alloc(), &FILTERS, tables, lans, |domain| {
        assert_interface_and_wants(&rt, domain, 0, 0, "no - - - no");
        assert_interface_and_wants(&rt, domain, 1, 1, "yes yes no yes no");
        assert_interface_and_wants(&rt, domain, 2, 2, "yes no yes no yes");
        Ok(())
    })
}
