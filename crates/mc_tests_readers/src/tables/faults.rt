//! Texts of more than the greatest size, and the fault when memory runs out.

use mc_tables::{CacheTable, TableFault, TableFaultKind, VifTable};
use mc_text::Order;
use std::alloc::{AllocError, Global};
use std::process::Abort;
use std::test::Fail;

/// Both readers refuse a text with this fault.
fn check_both_readers(rt: &impl Abort, alloc: Global, text: &[u8], wanted: TableFault) {
    assert!(rt; VifTable::read(alloc, text).err() == Some(wanted));
    assert!(rt; CacheTable::read(alloc, text, Order::Little).err() == Some(wanted));
}

#[test]
fn oversized_tables_are_refused(rt: HostRuntime) -> Result<(), Fail> {
    let long = vec![in rt.alloc(); b'\n'; 16_777_217]?;
    let (line, kind) = (0, TableFaultKind::TooLarge);
    check_both_readers(&rt, rt.alloc(), &long, TableFault { line, kind });
    let (line, kind) = (1, TableFaultKind::NoHeader);
    check_both_readers(&rt, rt.alloc(), &long[1..], TableFault { line, kind });
    Ok(())
}

/// The fault of a refused growth has no line.
fn check_memory(rt: &impl Abort, alloc: Global, fault: TableFault) -> Result<(), AllocError> {
    let (line, kind) = (0, TableFaultKind::Memory);
    assert!(rt; fault == TableFault { line, kind });
    let printed = fault.to_string(alloc)?;
    assert!(rt; printed.as_str() == "line 0: Memory");
    Ok(())
}

#[test]
fn out_of_memory_has_no_line(rt: HostRuntime) -> Result<(), Fail> {
    let refused = Vec::<u8>::with_capacity(rt.alloc(), usize::MAX).err();
    let fault = refused.map(TableFault::from).ok_or("a refusal")?;
    check_memory(&rt, rt.alloc(), fault)?;
    Ok(())
}
