//! Tests of messages and report lists that no run of the program covers: the records of a list in their
//! order, and single messages.

use mc_igmp::*;
use mc_text::{Addr, MAX_TEXT, Memory};
use std::alloc::{AllocError, Global};
use std::process::Abort;
use std::test::Fail;

// A list with what a Linux kernel sent after another querier's query; a report of version 1 and one of
// version 2; one record that includes its source and one that excludes it; a byte after the last record;
// an unknown type of record; a leave; and one word of auxiliary data.
const LIST: &[u8] = b"1101ecfe0000000002000000\n\
2200e2de0000000201000001e80101010a00000902000002ef0102030a0000050a000006\n\
2200e1e00000000202000001e80101010a00000502000002ef0102030a0000060a000007\n\
2200e0f20000000102000001ef0102030a000006\n\
1200fcfaef010203\n\
2200e0f30000000102000001ef0102030a000005\n\
2200e1f30000000101000001ef0102030a000005\n\
1600f8f9ef010204\n\
2200ebf80000000102000000ef010203ff\n\
2200e5f90000000107000000ef010203\n\
1700f7faef010203\n\
22004d5b0000000102010000EF010203deadbeef\n";

// The list's records, each as a letter for its group (S is 232.1.1.1, A is 239.1.2.3 and B is 239.1.2.4),
// one for its kind (I for Include, E for Exclude, U for Unknown(7)), and the last numbers of its sources
// in 10.0.0.0/24.
const RECORDS: &str = "SI9;AE56;SE5;AE67;AE6;AE;AE5;AI5;BE;AE;AU;AE";

// Whether the sources are those with these last numbers.
fn are_sources(mut sources: Sources<'_>, digits: &[u8]) -> bool {
    for digit in digits {
        match sources.next() {
            Some(source) if source.octets() == [10, 0, 0, *digit & 15] => {}
            _ => return false,
        }
    }
    sources.next().is_none()
}

// Whether the kind and the group are those of these letters, where C is for Change(3).
fn has_kind_and_group(kind: Kind, group: Addr, group_letter: u8, kind_letter: u8) -> bool {
    let is_kind = match kind {
        Kind::Include => kind_letter == b'I',
        Kind::Exclude => kind_letter == b'E',
        Kind::Change(record_type) => kind_letter == b'C' && record_type == 3,
        Kind::Unknown(record_type) => kind_letter == b'U' && record_type == 7,
    };
    let octets = match group_letter {
        b'S' => [232, 1, 1, 1],
        b'A' => [239, 1, 2, 3],
        _ => [239, 1, 2, 4],
    };
    is_kind && group.octets() == octets
}

// Whether the record is the one that these letters and numbers denote.
fn is_record(group_record: &Record<'_>, given: &[u8]) -> bool {
    match given {
        [group, kind, digits @ ..] => {
            has_kind_and_group(group_record.kind, group_record.group, *group, *kind)
                && are_sources(group_record.sources.iter(), digits)
        }
        _ => false,
    }
}

// The list has the records of RECORDS and no others.
fn check_records(rt: &impl Abort, list: &ReportList) {
    let mut given = RECORDS.split(';');
    for group_record in list.records() {
        let wanted = given.next().expect(rt, "no more records");
        assert!(rt; is_record(&group_record, wanted.as_bytes()), "{wanted}");
    }
    assert!(rt; given.next().is_none());
}

#[test]
fn records_of_a_list(rt: HostRuntime) -> Result<(), Fail> {
    let list = ReportList::read(rt.alloc(), LIST)?;
    check_records(&rt, &list);
    Ok(())
}

// The list of a text that is fed byte by byte.
fn read_byte_by_byte(alloc: Global, text: &[u8]) -> Result<Result<ReportList, ListFault>, Memory> {
    let mut reader = ListReader::new(alloc);
    for byte in text {
        reader.feed(&[*byte])?;
    }
    Ok(reader.finish())
}

// A list that is fed byte by byte has the same records, or the same fault, as one that is read at once.
#[test]
fn list_is_read_in_pieces(rt: HostRuntime) -> Result<(), Fail> {
    check_records(&rt, &read_byte_by_byte(rt.alloc(), LIST)??);
    for text in [
        b"1101ecfe0000000002000000\n1101\n11zz\n".as_slice(),
        b"11zz\n",
        b"11",
        b"",
    ] {
        assert!(rt;
            read_byte_by_byte(rt.alloc(), text)?.err() == ReportList::read(rt.alloc(), text).err()
        );
    }
    Ok(())
}

// The list, fed to a reader in two pieces. Once memory has run out, each later call returns that.
fn read_in_two_pieces(rt: &impl Abort, alloc: Global) -> Result<ReportList, ListFault> {
    let (front, rest) = LIST.split_at(100);
    let mut reader = ListReader::new(alloc);
    if reader.feed(front).is_err() {
        assert!(rt; reader.feed(rest) == Err(Memory));
        assert!(rt; reader.feed(b"") == Err(Memory));
        assert!(rt; reader.room() > 0);
    }
    if reader.feed(rest).is_err() {
        assert!(rt; reader.feed(b"zz\n") == Err(Memory));
    }
    reader.finish()
}

// The same, by a second reader if memory runs out.
fn read_with_retry(rt: &impl Abort, alloc: Global) -> Result<ReportList, ListFault> {
    match read_in_two_pieces(rt, alloc) {
        Err(fault) if fault.kind == ListFaultKind::Memory => read_in_two_pieces(rt, alloc),
        answer => answer,
    }
}

#[test]
fn list_in_pieces_after_a_refused_growth(rt: HostRuntime) -> Result<(), Fail> {
    check_records(&rt, &read_with_retry(&rt, rt.alloc())?);
    Ok(())
}

// After a line with a fault the rest is still taken, and the fault is returned at the end.
#[test]
fn list_with_a_fault_in_pieces(rt: HostRuntime) -> Result<(), Fail> {
    let mut reader = ListReader::new(rt.alloc());
    reader.feed(b"11zz\n")?;
    assert!(rt; reader.feed(b"1101ecfe00").is_ok());
    assert!(rt; reader.feed(b"\n").is_ok());
    let fault = ListFault {
        line: 1,
        record_no: 0,
        kind: ListFaultKind::BadHex,
    };
    assert!(rt; reader.finish().err() == Some(fault));
    Ok(())
}

// Records that were forgotten aren't in the list.
#[test]
fn records_are_forgotten(rt: HostRuntime) -> Result<(), Fail> {
    let mut reader = ListReader::new(rt.alloc());
    reader.feed(LIST)?;
    assert!(rt; reader.room() == MAX_TEXT + 1 - LIST.len());
    assert!(rt; reader.records().next().is_some());
    reader.forget_records();
    assert!(rt; reader.records().next().is_none());
    assert!(rt; reader.finish()?.records().next().is_none());
    Ok(())
}

// How many records there are.
fn count_records(records: ListRecords<'_>) -> u32 {
    let mut count = 0u32;
    for _record in records {
        count = count.saturating_add(1);
    }
    count
}

// Two reports, twenty times each: all of their records are in the list. After sixteen lines, one that comes
// twice is kept as known, so that the two of the next four lines are, and none of the others adds to the
// distinct records.
#[test]
fn repeated_lines_add_no_distinct_record(rt: HostRuntime) -> Result<(), Fail> {
    let mut reader = ListReader::new(rt.alloc());
    for _ in 0..20 {
        reader.feed(b"1200fcfaef010203\n2200eaf90000000102000000ef010203\n")?;
    }
    let list = reader.finish()?;
    assert!(rt; count_records(list.records()) == 40);
    assert!(rt; count_records(list.distinct_records()) == 20);
    Ok(())
}

// Whether the bytes are refused with this fault.
fn is_refused_with(bytes: &[u8], fault: MessageFault) -> bool {
    matches!(Message::parse(bytes), Err(given) if given == fault)
}

// Whether the bytes are a message of this other type.
fn is_other_type(bytes: &[u8], message_type: u8) -> bool {
    matches!(Message::parse(bytes), Ok(Message::Other(given)) if given == message_type)
}

// Whether the message is a report of one record, the one that these letters and numbers denote.
fn is_report_of(bytes: &[u8], given: &[u8]) -> bool {
    match Message::parse(bytes) {
        Ok(Message::Report(mut records)) => match records.next() {
            Some(group_record) => is_record(&group_record, given) && records.next().is_none(),
            None => false,
        },
        _ => false,
    }
}

// Refused are seven bytes, a wrong checksum twice, a report without its one record, one without its second
// record, and a cut report of version 2. Parsed are a query and a leave; reports of versions 1 and 2, and
// one with a byte after it; and one of a change.
#[test]
fn messages_are_parsed(rt: HostRuntime) {
    let second = MessageFault::Truncated(2);
    assert!(rt; is_refused_with(b"\x22\0\xea\xf9\0\0\0", MessageFault::Short));
    assert!(rt; is_refused_with(b"\0\0\0\0\0\0\0\0", MessageFault::BadChecksum));
    assert!(rt;
        is_refused_with(
            b"\x22\0\xea\xf8\0\0\0\x01\x02\0\0\0\xef\x01\x02\x03",
            MessageFault::BadChecksum
        )
    );
    assert!(rt; is_refused_with(b"\x22\0\xdd\xfe\0\0\0\x01", MessageFault::Truncated(1)));
    assert!(rt;
        is_refused_with(
            b"\x22\0\xe9\xf8\0\0\0\x02\x03\0\0\0\xef\x01\x02\x03",
            second
        )
    );
    assert!(rt; is_refused_with(b"\x16\0\xf8\xfd\xef\x01\x02", MessageFault::Short));
    assert!(rt; is_other_type(b"\x11\x64\xee\x9b\0\0\0\0", 17));
    assert!(rt; is_other_type(b"\x17\0\xf7\xfa\xef\x01\x02\x03", 23));
    assert!(rt; is_report_of(b"\x12\0\xfc\xfa\xef\x01\x02\x03", b"AE"));
    assert!(rt; is_report_of(b"\x16\0\xf8\xfa\xef\x01\x02\x03", b"AE"));
    assert!(rt; is_report_of(b"\x16\0\xf7\xfa\xef\x01\x02\x03\x01", b"AE"));
    assert!(rt; is_report_of(b"\x22\0\xe9\xf9\0\0\0\x01\x03\0\0\0\xef\x01\x02\x03", b"AC"));
}

// A message's fault is printed so.
fn check_printed(
    rt: &impl Abort,
    alloc: Global,
    fault: MessageFault,
    wanted: &str,
) -> Result<(), AllocError> {
    let printed = fault.to_string(alloc)?;
    assert!(rt; printed.as_str() == wanted);
    Ok(())
}

#[test]
fn prints_faults_of_messages(rt: HostRuntime) -> Result<(), Fail> {
    check_printed(&rt, rt.alloc(), MessageFault::Short, "Short")?;
    check_printed(&rt, rt.alloc(), MessageFault::BadChecksum, "BadChecksum")?;
    check_printed(&rt, rt.alloc(), MessageFault::Truncated(2), "Truncated 2")?;
    Ok(())
}
