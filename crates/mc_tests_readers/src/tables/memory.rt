//! Lack of memory: each reader returns it, at line 0, in place of a table. Each text is read and its
//! table is searched. `rt try --test --fail-alloc N` refuses the Nth growth: the text is then read
//! again.

use mc_tables::{CacheTable, Oif, TableFault, TableFaultKind, VifTable};
use mc_text::{Addr, Order};
use std::alloc::Global;
use std::process::Abort;
use std::test::Fail;

/// Vifs with each form that a word may have, their indexes in no order.
const VIFS: &[u8] = b"Interface      BytesIn  PktsIn  BytesOut PktsOut Flags Local    Remote
31 pimreg            -1 -00000000000000000007 18446744073709551615 0 f0000004 00000000 00000000
 0 eth0           1200      12         0       0 00000 0100000A 00000000
007 none 0 0 0 0 00000 00000000 00000000
 2 a.name_of15byte 0 0 0 0 0800b 010014ac FFFFffff
 1 none 0 0 0 0 00000008 00000002 00000000
3 eth3 0 0 0 0 00000 00000000 00000000
4 eth4 0 0 0 0 00000 00000000 00000000
5 eth5 0 0 0 0 00000 00000000 00000000
6 eth6 0 0 0 0 00000 00000000 00000000
8 eth8 0 0 0 0 00000 00000000 00000000
";

/// Rows of 239.1.2.3 for 10.0.0.1 to 10.0.0.13, and rows of 239.1.0.1 to 239.1.0.13 for every
/// source; then mixed rows for one source, for every source and unresolved ones, in an order and with a
/// counter of -1 that no kernel prints.
const ROWS: &[u8] = b"Group
030201EF 0100000A 0 0 0 0 5:1 4:1 3:1 2:1 1:1
030201EF 0200000A 0 0 0 0 5:1 4:1 3:1 2:1 1:1
030201EF 0300000A 0 0 0 0 5:1 4:1 3:1 2:1 1:1
030201EF 0400000A 0 0 0 0 5:1 4:1 3:1 2:1 1:1
030201EF 0500000A 0 0 0 0 5:1 4:1 3:1 2:1 1:1
030201EF 0600000A 0 0 0 0 5:1 4:1 3:1 2:1 1:1
030201EF 0700000A 0 0 0 0 5:1 4:1 3:1 2:1 1:1
030201EF 0800000A 0 0 0 0 5:1 4:1 3:1 2:1 1:1
030201EF 0900000A 0 0 0 0 5:1 4:1 3:1 2:1 1:1
030201EF 0A00000A 0 0 0 0 5:1 4:1 3:1 2:1 1:1
030201EF 0B00000A 0 0 0 0 5:1 4:1 3:1 2:1 1:1
030201EF 0C00000A 0 0 0 0 5:1 4:1 3:1 2:1 1:1
030201EF 0D00000A 0 0 0 0 5:1 4:1 3:1 2:1 1:1
010001EF 00000000 0 0 0 0 1:1
020001EF 00000000 0 0 0 0 1:1
030001EF 00000000 0 0 0 0 1:1
040001EF 00000000 0 0 0 0 1:1
050001EF 00000000 0 0 0 0 1:1
060001EF 00000000 0 0 0 0 1:1
070001EF 00000000 0 0 0 0 1:1
080001EF 00000000 0 0 0 0 1:1
090001EF 00000000 0 0 0 0 1:1
0A0001EF 00000000 0 0 0 0 1:1
0B0001EF 00000000 0 0 0 0 1:1
0C0001EF 00000000 0 0 0 0 1:1
0D0001EF 00000000 0 0 0 0 1:1
040201EF 0500000A 31         0 -1 18446744073709551615 31:254 0:1    7:3  
050201EF 0500000A 0 -1 0 0
060201EF 00000000 0          0        0        0  1:1  
060201EF 00000000 1          0        0        0  0:1  
070201EF 00000000 -1         0        0        0
3C0008EF 0500000A -1         0        0        0
3C0008EF 0500000A -1         0        0        0
";

/// Whether memory ran out. Such a fault has line 0.
pub(super) fn is_out_of_memory(rt: &impl Abort, fault: TableFault) -> bool {
    if fault.kind == TableFaultKind::Memory {
        assert_eq!(rt; fault.line, 0);
        return true;
    }
    false
}

/// The vifs, read again if memory runs out.
fn vifs_with_retry(rt: &impl Abort, alloc: Global) -> Result<VifTable, TableFault> {
    match VifTable::read(alloc, VIFS) {
        Err(fault) if is_out_of_memory(rt, fault) => VifTable::read(alloc, VIFS),
        answer => answer,
    }
}

/// The rows, read again if memory runs out.
fn rows_with_retry(rt: &impl Abort, alloc: Global) -> Result<CacheTable, TableFault> {
    match CacheTable::read(alloc, ROWS, Order::Little) {
        Err(fault) if is_out_of_memory(rt, fault) => CacheTable::read(alloc, ROWS, Order::Little),
        answer => answer,
    }
}

/// The devices of the vifs 0 to 8. Vif 2 is a tunnel, and none of them is a register interface.
const DEVICES: &str = "eth0 none a.name_of15byte eth3 eth4 eth5 eth6 none eth8";

/// Whether the table has this vif.
pub(super) fn has_vif(
    table: &VifTable,
    index: u8,
    device: &str,
    tunnel: bool,
    register: bool,
) -> bool {
    match table.vif(index) {
        Some(vif) => {
            vif.device() == device.as_bytes()
                && vif.tunnel() == tunnel
                && vif.register() == register
        }
        None => false,
    }
}

/// The table has those vifs and no others.
fn check_vifs(rt: &impl Abort, table: &VifTable) {
    for (index, device) in (0..9).zip(DEVICES.split(' ')) {
        assert!(rt;
            has_vif(table, index, device, index == 2, false),
            "at {index}"
        );
    }
    assert!(rt; has_vif(table, 31, "pimreg", false, true));
    assert!(rt; table.vif(9).is_none());
    assert!(rt; table.vif(32).is_none());
    assert!(rt; table.vif(255).is_none());
    assert!(rt; table.index_of(b"pimreg") == Some(31));
    assert!(rt; table.index_of(b"eth0") == Some(0));
    assert!(rt; table.index_of(b"eth8") == Some(8));
    assert!(rt; table.index_of(b"none").is_none());
    assert!(rt; table.index_of(b"eth1").is_none());
}

#[test]
fn vifs_are_read_after_a_refused_growth(rt: HostRuntime) -> Result<(), Fail> {
    let table = vifs_with_retry(&rt, rt.alloc())?;
    check_vifs(&rt, &table);
    Ok(())
}

/// An outgoing vif.
pub(super) const fn oif(vif: u8, threshold: u8) -> Oif {
    Oif { vif, threshold }
}

/// Whether the table has an entry for 10.0.0.0/24 and a group, with this incoming vif and these
/// outgoing ones.
pub(super) fn has_entry(
    table: &CacheTable,
    last: u8,
    group: [u8; 4],
    iif: u8,
    oifs: &[Oif],
) -> bool {
    let source = Addr::from_octets([10, 0, 0, last]);
    match table.exact(source, Addr::from_octets(group)) {
        Some(entry) => entry.iif == iif && entry.oifs == oifs,
        None => false,
    }
}

/// Whether the table has an entry for this source and group.
pub(super) fn has_entry_for(table: &CacheTable, source: [u8; 4], group: [u8; 4]) -> bool {
    table
        .exact(Addr::from_octets(source), Addr::from_octets(group))
        .is_some()
}

/// Whether the table has a row of a group for every source.
pub(super) fn has_wildcard_row(table: &CacheTable, group: [u8; 4]) -> bool {
    table.has_wildcard(Addr::from_octets(group))
}

/// The table has the mixed rows.
fn check_mixed_rows(rt: &impl Abort, table: &CacheTable) {
    let ascending = [oif(0, 1), oif(7, 3), oif(31, 254)];
    assert!(rt; has_entry(table, 5, [239, 1, 2, 4], 31, &ascending));
    assert!(rt; has_entry(table, 5, [239, 1, 2, 5], 0, &[]));
    assert!(rt;
        !has_entry_for(table, [10, 0, 0, 5], [239, 8, 0, 60]),
        "unresolved"
    );
    assert!(rt; !has_entry_for(table, [0, 0, 0, 0], [239, 1, 2, 6]));
    assert!(rt; !has_entry_for(table, [239, 1, 2, 3], [10, 0, 0, 5]));
    assert!(rt; has_wildcard_row(table, [239, 1, 2, 6]));
    assert!(rt; !has_wildcard_row(table, [239, 1, 2, 7]), "unresolved");
    assert!(rt; !has_wildcard_row(table, [239, 1, 2, 3]));
}

fn check_rows(rt: &impl Abort, table: &CacheTable) {
    let oifs = [oif(1, 1), oif(2, 1), oif(3, 1), oif(4, 1), oif(5, 1)];
    for last in 1..14 {
        assert!(rt;
            has_entry(table, last, [239, 1, 2, 3], 0, &oifs),
            "of {last}"
        );
        assert!(rt; has_wildcard_row(table, [239, 1, 0, last]), "of {last}");
    }
    check_mixed_rows(rt, table);
}

#[test]
fn rows_are_read_after_a_refused_growth(rt: HostRuntime) -> Result<(), Fail> {
    let table = rows_with_retry(&rt, rt.alloc())?;
    check_rows(&rt, &table);
    Ok(())
}
