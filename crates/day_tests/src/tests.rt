use crate::cases::CASES;
use std::alloc::{AllocError, Global};
use std::test::Fail;
use ticket_file::Record;

const HEADER: [u8; 5] = [82, 80, 81, 1, 0];

const CEILING: [u8; 6] = [67, 4, 116, 1, 0, 0];

const TICKET: [u8; 7] = [84, 5, 0, 0, 1, 0, 0];

/// The number and the place of a file's fault.
fn fault_of(heap: Global, file: &[u8]) -> Result<Option<(u8, usize)>, AllocError> {
    let report = day::report_on(heap, file)?;
    Ok(
        report
            .fault
            .map(|fault| (fault.refusal.number(), fault.place)),
    )
}

/// A header, and then this.
fn headed(heap: Global, records: &[u8]) -> Result<Vec<u8>, AllocError> {
    let mut file = Vec::new(heap);
    file.extend_from_slice(&HEADER)?;
    file.extend_from_slice(records)?;
    Ok(file)
}

/// A header and so many tickets.
fn with_tickets(heap: Global, count: u8) -> Result<Vec<u8>, AllocError> {
    let mut file = headed(heap, &[])?;
    for _ in 0..count {
        file.extend_from_slice(&TICKET)?;
    }
    Ok(file)
}

#[test]
fn records(rt: HostRuntime) -> Result<(), Fail> {
    let heap = rt.alloc();
    for case in CASES {
        let file = headed(heap, case.records)?;
        assert_eq!(rt; fault_of(heap, &file)?, case.fault, "{}", case.name);
    }
    Ok(())
}

#[test]
fn headers(rt: HostRuntime) -> Result<(), Fail> {
    let heap = rt.alloc();
    assert_eq!(rt; fault_of(heap, &[])?, Some((2, 0)));
    assert_eq!(rt; fault_of(heap, &[82, 80, 81, 1])?, Some((2, 0)));
    assert_eq!(rt; fault_of(heap, &[82, 80, 81, 1, 0])?, Some((7, 5)));
    assert_eq!(rt; fault_of(heap, &[82, 80, 82, 1, 0])?, Some((2, 0)));
    assert_eq!(rt; fault_of(heap, &[82, 80, 81, 2, 0])?, Some((3, 3)));
    assert_eq!(rt; fault_of(heap, &[82, 80, 81, 1, 1])?, Some((3, 3)));
    Ok(())
}

#[test]
fn lengths(rt: HostRuntime) -> Result<(), Fail> {
    let heap = rt.alloc();
    let mut file = headed(heap, &[84, 7, 0, 0, 1, 0, 0, 9, 9])?;
    file.extend_from_slice(&CEILING)?;
    for _ in 0..8187 {
        file.extend_from_slice(&[66, 2, 0, 0])?;
    }
    assert_eq!(rt; file.len(), 32768);
    assert_eq!(rt; fault_of(heap, &file)?, None);
    file.push(66)?;
    assert_eq!(rt; fault_of(heap, &file)?, Some((1, 0)));
    Ok(())
}

#[test]
fn tickets(rt: HostRuntime) -> Result<(), Fail> {
    let heap = rt.alloc();
    let mut file = with_tickets(heap, 24)?;
    file.extend_from_slice(&CEILING)?;
    assert_eq!(rt; fault_of(heap, &file)?, None);
    let file = with_tickets(heap, 25)?;
    assert_eq!(rt; fault_of(heap, &file)?, Some((9, 173)));
    let mut file = with_tickets(heap, 24)?;
    file.extend_from_slice(&[84, 5, 0, 0, 17, 0, 0])?;
    assert_eq!(rt; fault_of(heap, &file)?, Some((8, 173)));
    Ok(())
}

#[test]
fn texts(rt: HostRuntime) -> Result<(), Fail> {
    let heap = rt.alloc();
    let file = headed(
        heap,
        &[
            84, 5, 0, 10, 5, 10, 0, 67, 4, 116, 1, 0, 0, 66, 2, 2, 8, 66, 2, 0, 255,
        ],
    )?;
    let report = day::report_on(heap, &file)?;
    assert!(rt; report.text.as_str() == "floor 50\nceiling 372\n0 0-10\nban 2 8\nban 0 255\n");
    let file = headed(
        heap,
        &[
            84, 5, 0, 4, 4, 1, 0, 84, 5, 1, 3, 1, 3, 0, 67, 4, 14, 0, 0, 0,
        ],
    )?;
    let report = day::report_on(heap, &file)?;
    assert!(rt; report.text.as_str() == "floor 11\nceiling 14\n0 0-4\n1 1-3\n");
    let file = headed(heap, &[67, 4, 0, 0, 0, 1])?;
    let report = day::report_on(heap, &file)?;
    assert!(rt; report.text.as_str() == "fault ticket 10 5\n");
    let report = day::report_on(heap, &[])?;
    assert!(rt; report.text.as_str() == "fault file 2 0\n");
    Ok(())
}

#[test]
fn labels(rt: HostRuntime) -> Result<(), Fail> {
    let heap = rt.alloc();
    let file = headed(
        heap,
        &[
            84, 5, 1, 2, 3, 4, 0, 84, 7, 0, 0, 1, 0, 0, 120, 121, 67, 4, 1, 0, 0, 0,
        ],
    )?;
    let reading = ticket_file::read(heap, &file)?;
    assert!(rt; reading.fault.is_none());
    assert!(rt; reading.records.len() == 3);
    let second = reading.records[1];
    assert_eq!(rt; second.place, 12);
    let Record::Ticket { label, .. } = second.record else {
        return Err(Fail::new("the second record is a ticket"));
    };
    assert_eq!(rt; label.place, 19);
    assert!(rt; label.bytes == b"xy".as_slice());
    Ok(())
}
