//! Tables whose texts are fed in pieces, cut inside lines and inside words. `rt try --test
//! --fail-alloc N` refuses the Nth growth: each later call of the reader returns that, and the text is
//! then fed to a second reader.

use super::memory::{has_entry, has_entry_for, has_vif, has_wildcard_row, is_out_of_memory, oif};
use mc_tables::{
    CacheReader, CacheTable, ListedPairs, TableFault, TableFaultKind, VifReader, VifTable,
};
use mc_text::{Addr, Order};
use std::alloc::Global;
use std::process::Abort;
use std::test::Fail;

/// Three vifs. A `|` separates two pieces.
const VIFS: &str = "Inter|face BytesIn PktsIn
 0 et|h0 0 0 0 0 00000 0100000A 0000|0000
|2 tunl0 0 0 0 0 00001 0100000A 0200000A
3||1 pimreg 0 0 0 0 00004 00000000 00000000|
";

/// Rows of 239.1.2.4 for 10.0.0.5 and 10.0.0.6, one of 239.1.2.5 for 10.0.0.5, one of 239.1.2.6 for
/// every source, and an unresolved one. A `|` separates two pieces.
const ROWS: &str = "Gro|up
040201EF 0500|000A 31 0 0 0 7:3 0:|1
040201EF 0600000A 0 0 0 0 1:1
0502|01EF 0500000A 0 0 0 0 1:1
060201EF 00000000 0 0 0 0 1:1|
070201EF 0500000A -1 0 0 0
";

/// The vifs of these pieces. After a fault the next call returns it again.
fn vifs_of(rt: &impl Abort, alloc: Global, pieces: &str) -> Result<VifTable, TableFault> {
    let mut reader = VifReader::new(alloc);
    for piece in pieces.split('|') {
        if let Err(fault) = reader.feed(piece.as_bytes()) {
            assert!(rt; reader.feed(b"\n") == Err(fault));
            break;
        }
    }
    reader.finish()
}

/// The vifs, fed to a second reader if memory runs out.
fn vifs_with_retry(rt: &impl Abort, alloc: Global, pieces: &str) -> Result<VifTable, TableFault> {
    match vifs_of(rt, alloc, pieces) {
        Err(fault) if is_out_of_memory(rt, fault) => vifs_of(rt, alloc, pieces),
        answer => answer,
    }
}

fn check_vifs(rt: &impl Abort, table: &VifTable) {
    assert!(rt; has_vif(table, 0, "eth0", false, false));
    assert!(rt; has_vif(table, 2, "tunl0", true, false));
    assert!(rt; has_vif(table, 31, "pimreg", false, true));
    assert!(rt; table.vif(1).is_none());
    assert!(rt; table.index_of(b"eth0") == Some(0));
}

#[test]
fn vifs_are_read_in_pieces(rt: HostRuntime) -> Result<(), Fail> {
    let table = vifs_with_retry(&rt, rt.alloc(), VIFS)?;
    check_vifs(&rt, &table);
    Ok(())
}

/// The rows of these pieces, where 10.0.0.5 and 239.1.2.4 are listed. After a fault the next call
/// returns it again.
fn rows_of(rt: &impl Abort, alloc: Global, pieces: &str) -> Result<CacheTable, TableFault> {
    let (source, group) = ([10, 0, 0, 5], [239, 1, 2, 4]);
    let pairs = [(Addr::from_octets(source), Addr::from_octets(group))];
    let Ok(listed) = ListedPairs::of(alloc, &pairs) else {
        return Err(TableFault {
            line: 0,
            kind: TableFaultKind::Memory,
        });
    };
    let mut reader = CacheReader::new(alloc, Order::Little, listed);
    for piece in pieces.split('|') {
        if let Err(fault) = reader.feed(piece.as_bytes()) {
            assert!(rt; reader.feed(b"\n") == Err(fault));
            break;
        }
    }
    reader.finish()
}

/// The rows, fed to a second reader if memory runs out.
fn rows_with_retry(rt: &impl Abort, alloc: Global, pieces: &str) -> Result<CacheTable, TableFault> {
    match rows_of(rt, alloc, pieces) {
        Err(fault) if is_out_of_memory(rt, fault) => rows_of(rt, alloc, pieces),
        answer => answer,
    }
}

fn check_rows(rt: &impl Abort, table: &CacheTable) {
    let ascending = [oif(0, 1), oif(7, 3)];
    assert!(rt; has_entry(table, 5, [239, 1, 2, 4], 31, &ascending));
    assert!(rt; !has_entry_for(table, [10, 0, 0, 6], [239, 1, 2, 4]));
    assert!(rt; !has_entry_for(table, [10, 0, 0, 5], [239, 1, 2, 5]));
    assert!(rt; has_wildcard_row(table, [239, 1, 2, 6]));
    assert!(rt; !has_wildcard_row(table, [239, 1, 2, 4]));
}

#[test]
fn rows_are_read_in_pieces(rt: HostRuntime) -> Result<(), Fail> {
    let table = rows_with_retry(&rt, rt.alloc(), ROWS)?;
    check_rows(&rt, &table);
    Ok(())
}

/// Vifs of which the third line spans three pieces and has an address of seven digits.
const BAD_ADDRESS: &str = "Interface
0 eth0 0 0 0 0 00000 00000000 00000000
1 eth1 0 0 |0 0 0000|0 0100000A 0000000
1|";

/// Rows of which two that aren't listed have the same source and group, the second one in two pieces.
const REPEATED_ROWS: &str = "Group
040201EF 0500000A 0 0 0 0 1:1
040201EF 0600000A 0 0 0 0 1:1
040201EF 06|00000A 1 0 0 0 0:1
";

#[test]
fn faults_of_lines_in_pieces(rt: HostRuntime) -> Result<(), Fail> {
    let (line, kind) = (3, TableFaultKind::BadAddress);
    let fault = vifs_with_retry(&rt, rt.alloc(), BAD_ADDRESS).err();
    assert!(rt; fault == Some(TableFault { line, kind }));
    let (line, kind) = (4, TableFaultKind::RepeatedEntry);
    let fault = rows_with_retry(&rt, rt.alloc(), REPEATED_ROWS).err();
    assert!(rt; fault == Some(TableFault { line, kind }));
    Ok(())
}
