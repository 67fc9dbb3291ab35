//! Files and their faults.

/// The records of a file, which come after a header in order, and the number and the place of its fault.
#[derive(Clone, Copy)]
pub struct Case {
    pub name: &'static str,
    pub records: &'static [u8],
    pub fault: Option<(u8, usize)>,
}

/// A ticket takes 7 bytes without a label, a ceiling 6, a ban 4; the first record stands at 5.
pub const CASES: &[Case] = &[
    Case {
        name: "a lone kind letter",
        records: &[84],
        fault: Some((4, 5)),
    },
    Case {
        name: "an unknown kind that passes the end",
        records: &[90, 9],
        fault: Some((4, 5)),
    },
    Case {
        name: "a body one byte too short for its length",
        records: &[67, 4, 116, 1, 0],
        fault: Some((4, 5)),
    },
    Case {
        name: "an unknown kind",
        records: &[90, 0],
        fault: Some((5, 5)),
    },
    Case {
        name: "a ticket with 4 bytes",
        records: &[84, 4, 0, 0, 1, 0],
        fault: Some((6, 5)),
    },
    Case {
        name: "a ticket with 5 bytes",
        records: &[84, 5, 0, 0, 1, 0, 0, 67, 4, 1, 0, 0, 0],
        fault: None,
    },
    Case {
        name: "a ticket with 21 bytes",
        records: &[
            84, 21, 0, 0, 1, 0, 0, 1, 2, 3, 4, 5, 6, 7, 8, 9, 10, 11, 12, 13, 14, 15, 16, 67, 4, 1,
            0, 0, 0,
        ],
        fault: None,
    },
    Case {
        name: "a ticket with 22 bytes",
        records: &[
            84, 22, 0, 0, 1, 0, 0, 1, 2, 3, 4, 5, 6, 7, 8, 9, 10, 11, 12, 13, 14, 15, 16, 17, 67,
            4, 1, 0, 0, 0,
        ],
        fault: Some((6, 5)),
    },
    Case {
        name: "a ceiling with 3 bytes",
        records: &[67, 3, 1, 0, 0],
        fault: Some((6, 5)),
    },
    Case {
        name: "a ceiling with 4 bytes",
        records: &[67, 4, 1, 0, 0, 0],
        fault: None,
    },
    Case {
        name: "a ceiling with 5 bytes",
        records: &[67, 5, 1, 0, 0, 0, 0],
        fault: Some((6, 5)),
    },
    Case {
        name: "a ban with 1 byte",
        records: &[67, 4, 1, 0, 0, 0, 66, 1, 0],
        fault: Some((6, 11)),
    },
    Case {
        name: "a ban with 2 bytes",
        records: &[67, 4, 1, 0, 0, 0, 66, 2, 0, 0],
        fault: None,
    },
    Case {
        name: "a ban with 3 bytes",
        records: &[67, 4, 1, 0, 0, 0, 66, 3, 0, 0, 0],
        fault: Some((6, 11)),
    },
    Case {
        name: "a second ceiling",
        records: &[67, 4, 1, 0, 0, 0, 67, 4, 1, 0, 0, 0],
        fault: Some((7, 11)),
    },
    Case {
        name: "a ticket after the ceiling",
        records: &[67, 4, 1, 0, 0, 0, 84, 5, 0, 0, 1, 0, 0],
        fault: Some((7, 11)),
    },
    Case {
        name: "a ban before the ceiling",
        records: &[66, 2, 0, 0, 67, 4, 1, 0, 0, 0],
        fault: Some((7, 5)),
    },
    Case {
        name: "a ban with 3 bytes before the ceiling",
        records: &[66, 3, 0, 0, 0],
        fault: Some((6, 5)),
    },
    Case {
        name: "no record",
        records: &[],
        fault: Some((7, 5)),
    },
    Case {
        name: "no ceiling",
        records: &[84, 5, 0, 0, 1, 0, 0],
        fault: Some((7, 12)),
    },
    Case {
        name: "length 0",
        records: &[84, 5, 0, 0, 0, 0, 0],
        fault: Some((8, 5)),
    },
    Case {
        name: "length 1",
        records: &[84, 5, 0, 0, 1, 0, 0, 67, 4, 1, 0, 0, 0],
        fault: None,
    },
    Case {
        name: "length 16",
        records: &[84, 5, 0, 0, 16, 0, 0, 67, 4, 1, 0, 0, 0],
        fault: None,
    },
    Case {
        name: "length 17",
        records: &[84, 5, 0, 0, 17, 0, 0],
        fault: Some((8, 5)),
    },
    Case {
        name: "weight 1,000",
        records: &[84, 5, 0, 0, 1, 232, 3, 67, 4, 1, 0, 0, 0],
        fault: None,
    },
    Case {
        name: "weight 1,001",
        records: &[84, 5, 0, 0, 1, 233, 3],
        fault: Some((8, 5)),
    },
    Case {
        name: "first start 255, last 255",
        records: &[84, 5, 255, 255, 1, 0, 0, 67, 4, 1, 0, 0, 0],
        fault: None,
    },
    Case {
        name: "first start 7, last 6",
        records: &[84, 5, 7, 6, 1, 0, 0],
        fault: Some((8, 5)),
    },
    Case {
        name: "ceiling 16,777,215",
        records: &[67, 4, 255, 255, 255, 0],
        fault: None,
    },
    Case {
        name: "ceiling 16,777,216",
        records: &[67, 4, 0, 0, 0, 1],
        fault: Some((10, 5)),
    },
    Case {
        name: "a bad ticket before an unknown kind",
        records: &[84, 5, 0, 0, 0, 0, 0, 90, 0],
        fault: Some((8, 5)),
    },
    Case {
        name: "a bad ticket after an unknown kind",
        records: &[90, 0, 84, 5, 0, 0, 0, 0, 0],
        fault: Some((5, 5)),
    },
    Case {
        name: "a bad second ticket before an unknown kind",
        records: &[84, 5, 0, 0, 1, 0, 0, 84, 5, 1, 0, 1, 0, 0, 90, 0],
        fault: Some((8, 12)),
    },
    Case {
        name: "a bad ceiling before a ticket",
        records: &[67, 4, 0, 0, 0, 1, 84, 5, 0, 0, 1, 0, 0],
        fault: Some((10, 5)),
    },
    Case {
        name: "a bad ticket that passes the end",
        records: &[84, 5, 0, 0, 0, 0],
        fault: Some((4, 5)),
    },
    Case {
        name: "a bad ticket after the ceiling",
        records: &[67, 4, 1, 0, 0, 0, 84, 5, 0, 0, 0, 0, 0],
        fault: Some((7, 11)),
    },
];
