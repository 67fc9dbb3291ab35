use crate::report::report_on;
use std::alloc::{AllocError, Global};

/// The file of day one with this low byte of the ceiling, and these records after the ceiling.
fn day_one(heap: Global, low: u8, records: &[u8]) -> Result<Vec<u8>, AllocError> {
    let mut file = vec![in heap;
        82, 80, 81, 1, 0, 84, 5, 0, 10, 5, 10, 0, 84, 5, 4, 8, 2, 10, 0, 84, 5, 5, 9, 4, 12, 0, 84,
        5, 13, 15, 2, 8, 0, 67, 4, low, 1, 0, 0,
    ]?;
    file.extend_from_slice(records)?;
    Ok(file)
}

/// Whether the report on a file is this text.
fn reports(heap: Global, file: &[u8], text: &[u8]) -> Result<bool, AllocError> {
    let report = report_on(heap, file)?;
    Ok(report.text.as_slice() == text)
}

/// Whether the report on day one, with this low byte and these records, is this text.
fn prints(heap: Global, low: u8, records: &[u8], text: &[u8]) -> Result<bool, AllocError> {
    let file = day_one(heap, low, records)?;
    reports(heap, &file, text)
}

#[test]
fn listings(rt: HostRuntime) -> Result<(), AllocError> {
    let heap = rt.alloc();
    let text = b"floor 362\nceiling 372\n0 0-0\n1 4-5\n2 5-7\n3 13-14\n";
    assert!(rt; prints(heap, 116, &[], text)?);
    assert!(rt; prints(heap, 116, &[66, 2, 2, 8], text)?);
    let text = b"floor 362\nceiling 372\n0 0-0\n1 4-5\n2 5-5 7-7\n3 13-14\n";
    assert!(rt; prints(heap, 116, &[66, 2, 2, 6], text)?);
    let day_two = [
        82, 80, 81, 1, 0, 84, 5, 0, 4, 4, 1, 0, 84, 5, 1, 3, 1, 3, 0, 67, 4, 14, 0, 0, 0,
    ];
    let text = b"floor 12\nceiling 14\n0 2-4\n1 1-1\n";
    assert!(rt; reports(heap, &day_two, text)?);
    let no_tickets = [82, 80, 81, 1, 0, 67, 4, 0, 0, 0, 0];
    assert!(rt; reports(heap, &no_tickets, b"floor 0\nceiling 0\n")?);
    Ok(())
}

#[test]
fn faults(rt: HostRuntime) -> Result<(), AllocError> {
    let heap = rt.alloc();
    assert!(rt; prints(heap, 115, &[], b"fault planner 21 39\n")?);
    assert!(rt; prints(heap, 116, &[66, 2, 4, 0], b"fault planner 11 39\n")?);
    assert!(rt; prints(heap, 116, &[66, 2, 2, 10], b"fault planner 12 39\n")?);
    assert!(rt;
        prints(
            heap,
            116,
            &[66, 2, 2, 8, 66, 2, 2, 8],
            b"fault planner 12 43\n"
        )?
    );
    let row = [
        66, 2, 2, 5, 66, 2, 2, 6, 66, 2, 2, 7, 66, 2, 2, 8, 66, 2, 2, 9,
    ];
    assert!(rt; prints(heap, 116, &row, b"fault planner 13 55\n")?);
    assert!(rt; prints(heap, 116, &[66, 2, 4, 0, 65], b"fault planner 11 39\n")?);
    assert!(rt; prints(heap, 116, &[65, 0], b"fault file 5 39\n")?);
    Ok(())
}
