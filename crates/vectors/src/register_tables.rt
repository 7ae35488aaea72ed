// Register files that are taken and refused.
use crate::files::{Edit, Refused, Run, RunsRefused, Taken, Worded};
use words::faults::Refusal;

// The refused register files of docs/FORMAT.md.
pub const FORMAT: [Worded; 10] = [
    Worded(&[0x80000021], Refusal::Limit, 0, 0xF1040000),
    Worded(&[0x80000001], Refusal::Missing, 1, 0xF1020001),
    Worded(
        &[0x80000001, 0x90010000, 0x70000002],
        Refusal::Wrong,
        1,
        0xF1030001,
    ),
    Worded(
        &[0x80000001, 0x90000001, 0xA0000001, 0xB0000000, 0x70000004],
        Refusal::Unknown,
        2,
        0xF2050002,
    ),
    Worded(
        &[0x80000001, 0x90000001, 0xA0000000, 0xB0000001, 0x70000004],
        Refusal::Unknown,
        3,
        0xF2050003,
    ),
    Worded(
        &[0x80000001, 0x90000002, 0xA0000000, 0xB0000001, 0x70000004],
        Refusal::Wrong,
        4,
        0xF1030004,
    ),
    Worded(
        &[0x80000001, 0x90000001, 0xC0010100, 0xB0000000, 0x70000004],
        Refusal::Unknown,
        2,
        0xF2050002,
    ),
    Worded(
        &[
            0x80000001, 0x90000001, 0xC0010000, 0xB0000000, 0xA0000000, 0xB0000000, 0x70000006,
        ],
        Refusal::Wrong,
        4,
        0xF1030004,
    ),
    Worded(&[0x80000001, 0x90000002], Refusal::Missing, 2, 0xF1020002),
    Worded(
        &[0x80000001, 0x90000002, 0x70000002, 0x00000000],
        Refusal::Wrong,
        3,
        0xF1030003,
    ),
];

// Two kinds of 2 and 3 records, a link each way, and the landings of two source kinds.
pub const WHOLE: [u32; 17] = [
    0x80000002, 0x90000002, 0x90000003, 0xA0000001, 0xB0000002, 0xB0000000, 0xA0000100, 0xB0000001,
    0xB0000000, 0xB0000001, 0xC0030000, 0xB0000001, 0xB0000000, 0xB0000001, 0xC0010101, 0xB0000002,
    0x70000010,
];

// Edits of that file.
pub const EDITS: [Edit; 43] = [
    Edit(0, 0x80000021, Refusal::Limit, 0),
    Edit(0, 0x800000FF, Refusal::Limit, 0),
    Edit(0, 0x80000121, Refusal::Wrong, 0),
    // one kind: its second count stands where a link, landings or the end may
    Edit(0, 0x80000001, Refusal::Wrong, 2),
    // three kinds: a link stands where the third count must
    Edit(0, 0x80000003, Refusal::Wrong, 3),
    // kind 0 has one record: the second record word of link 0 stands behind it
    Edit(1, 0x90000001, Refusal::Wrong, 5),
    // kind 0 has three records: a link stands where the third record word must
    Edit(1, 0x90000003, Refusal::Wrong, 6),
    Edit(1, 0x9000FFFF, Refusal::Wrong, 6),
    // kind 1 has too few records for the record words of link 0
    Edit(2, 0x90000002, Refusal::Unknown, 4),
    Edit(2, 0x90000000, Refusal::Unknown, 4),
    Edit(2, 0x90000004, Refusal::Wrong, 10),
    // unknown ends of the first link and of the last
    Edit(3, 0xA0000201, Refusal::Unknown, 3),
    Edit(3, 0xA0000002, Refusal::Unknown, 3),
    Edit(3, 0xA000FF01, Refusal::Unknown, 3),
    Edit(3, 0xA00000FF, Refusal::Unknown, 3),
    Edit(6, 0xA0000200, Refusal::Unknown, 6),
    Edit(6, 0xA0000102, Refusal::Unknown, 6),
    Edit(6, 0xA0010200, Refusal::Wrong, 6),
    // the first and the last record word of the first link and of the last
    Edit(4, 0xB0000003, Refusal::Unknown, 4),
    Edit(5, 0xB0000003, Refusal::Unknown, 5),
    Edit(5, 0xB000FFFF, Refusal::Unknown, 5),
    Edit(7, 0xB0000002, Refusal::Unknown, 7),
    Edit(9, 0xB0000002, Refusal::Unknown, 9),
    Edit(9, 0xB0010002, Refusal::Wrong, 9),
    // landings out of order, and of an unknown target kind
    Edit(10, 0xC0030100, Refusal::Unknown, 10),
    Edit(10, 0xC003FF00, Refusal::Unknown, 10),
    Edit(10, 0xC0030002, Refusal::Unknown, 10),
    Edit(14, 0xC0010001, Refusal::Unknown, 14),
    Edit(14, 0xC0010201, Refusal::Unknown, 14),
    Edit(14, 0xC0010102, Refusal::Unknown, 14),
    Edit(14, 0xC00101FF, Refusal::Unknown, 14),
    // more or fewer source records than record words
    Edit(10, 0xC0020000, Refusal::Wrong, 13),
    Edit(10, 0xC0040000, Refusal::Wrong, 14),
    Edit(14, 0xC0000101, Refusal::Wrong, 15),
    Edit(14, 0xCFFF0101, Refusal::Wrong, 16),
    // the first and the last record word of the landings
    Edit(11, 0xB0000002, Refusal::Unknown, 11),
    Edit(13, 0xB0000002, Refusal::Unknown, 13),
    Edit(15, 0xB0000003, Refusal::Unknown, 15),
    // the end
    Edit(16, 0x7000000F, Refusal::Wrong, 16),
    Edit(16, 0x70000011, Refusal::Wrong, 16),
    Edit(16, 0x7FFFFFFF, Refusal::Wrong, 16),
    Edit(17, 0x70000011, Refusal::Wrong, 17),
    Edit(17, 0xC0000200, Refusal::Wrong, 17),
];

pub const REFUSED: [Refused; 20] = [
    Refused(&[], Refusal::Missing, 0),
    // the first word at fault decides, whatever stands behind it
    Refused(&[0x80000021, 0x00000000], Refusal::Limit, 0),
    Refused(
        &[0x80000001, 0x90000001, 0xA0000001, 0x00000000],
        Refusal::Unknown,
        2,
    ),
    Refused(
        &[0x80000001, 0x90000001, 0xA0000000, 0xB0000001],
        Refusal::Unknown,
        3,
    ),
    Refused(&[0x80000001, 0x90000001, 0xC0010001], Refusal::Unknown, 2),
    // no kinds: no link and no landings have a kind
    Refused(&[0x80000000], Refusal::Missing, 1),
    Refused(&[0x80000000, 0x70000000], Refusal::Wrong, 1),
    Refused(&[0x80000000, 0x70000002], Refusal::Wrong, 1),
    Refused(&[0x80000000, 0x70000001, 0x70000002], Refusal::Wrong, 2),
    Refused(&[0x80000000, 0x90000000, 0x70000002], Refusal::Wrong, 1),
    Refused(&[0x80000000, 0xA0000000, 0x70000002], Refusal::Unknown, 1),
    Refused(&[0x80000000, 0xC0000000, 0x70000002], Refusal::Unknown, 1),
    // a kind without records can be led to by none
    Refused(
        &[
            0x80000002, 0x90000001, 0x90000000, 0xA0000001, 0xB0000000, 0x70000005,
        ],
        Refusal::Unknown,
        4,
    ),
    Refused(
        &[0x80000001, 0x90000000, 0xC0010000, 0xB0000000, 0x70000004],
        Refusal::Unknown,
        3,
    ),
    // one record word too many
    Refused(
        &[
            0x80000001, 0x90000001, 0xA0000000, 0xB0000000, 0xB0000000, 0x70000005,
        ],
        Refusal::Wrong,
        4,
    ),
    Refused(
        &[
            0x80000001, 0x90000001, 0xC0010000, 0xB0000000, 0xB0000000, 0x70000005,
        ],
        Refusal::Wrong,
        4,
    ),
    // record words are compared with the count of the to kind, not of the from kind
    Refused(
        &[
            0x80000002, 0x90000001, 0x90000005, 0xA0000001, 0xB0000005, 0x70000005,
        ],
        Refusal::Unknown,
        4,
    ),
    Refused(
        &[
            0x80000002, 0x90000002, 0x90000001, 0xA0000001, 0xB0000000, 0xB0000001, 0x70000006,
        ],
        Refusal::Unknown,
        5,
    ),
    // words of a problem
    Refused(
        &[0x10000001, 0x10000101, 0x50000000, 0x70000003],
        Refusal::Wrong,
        0,
    ),
    Refused(&[0xF1020000], Refusal::Wrong, 0),
];

pub const LIMITS: [RunsRefused; 22] = [
    // 32 kinds with 31 counts and with 33
    RunsRefused(
        &[Run(0x80000020, 0, 1), Run(0x90000000, 0, 31)],
        Refusal::Missing,
        32,
    ),
    RunsRefused(
        &[
            Run(0x80000020, 0, 1),
            Run(0x90000000, 0, 31),
            Run(0x70000020, 0, 1),
        ],
        Refusal::Wrong,
        32,
    ),
    RunsRefused(
        &[
            Run(0x80000020, 0, 1),
            Run(0x90000000, 0, 33),
            Run(0x70000022, 0, 1),
        ],
        Refusal::Wrong,
        33,
    ),
    RunsRefused(
        &[
            Run(0x80000021, 0, 1),
            Run(0x90000000, 0, 33),
            Run(0x70000022, 0, 1),
        ],
        Refusal::Limit,
        0,
    ),
    // a bit without a field in the last count
    RunsRefused(
        &[
            Run(0x80000020, 0, 1),
            Run(0x90000000, 0, 31),
            Run(0x90010000, 0, 1),
            Run(0x70000021, 0, 1),
        ],
        Refusal::Wrong,
        32,
    ),
    // kind 32 of 32
    RunsRefused(
        &[
            Run(0x80000020, 0, 1),
            Run(0x90000000, 0, 32),
            Run(0xA0002000, 0, 1),
            Run(0x70000022, 0, 1),
        ],
        Refusal::Unknown,
        33,
    ),
    RunsRefused(
        &[
            Run(0x80000020, 0, 1),
            Run(0x90000000, 0, 32),
            Run(0xA0000020, 0, 1),
            Run(0x70000022, 0, 1),
        ],
        Refusal::Unknown,
        33,
    ),
    RunsRefused(
        &[
            Run(0x80000020, 0, 1),
            Run(0x90000000, 0, 32),
            Run(0xC0000020, 0, 1),
            Run(0x70000022, 0, 1),
        ],
        Refusal::Unknown,
        33,
    ),
    // the last link at fault, and one link more
    RunsRefused(
        &[
            Run(0x80000001, 0, 1),
            Run(0x90000000, 0, 1),
            Run(0xA0000000, 0, 63),
            Run(0xA0000001, 0, 1),
            Run(0x70000042, 0, 1),
        ],
        Refusal::Unknown,
        65,
    ),
    RunsRefused(
        &[
            Run(0x80000001, 0, 1),
            Run(0x90000000, 0, 1),
            Run(0xA0000000, 0, 65),
            Run(0x70000043, 0, 1),
        ],
        Refusal::Limit,
        66,
    ),
    RunsRefused(
        &[
            Run(0x80000001, 0, 1),
            Run(0x90000000, 0, 1),
            Run(0xA0000000, 0, 64),
            Run(0xA0000101, 0, 1),
        ],
        Refusal::Limit,
        66,
    ),
    RunsRefused(
        &[
            Run(0x80000001, 0, 1),
            Run(0x90000000, 0, 1),
            Run(0xA0000000, 0, 64),
            Run(0xA0010000, 0, 1),
        ],
        Refusal::Wrong,
        66,
    ),
    // the last landings at fault, and one more
    RunsRefused(
        &[
            Run(0x80000001, 0, 1),
            Run(0x90000000, 0, 1),
            Run(0xC0000000, 0x100, 31),
            Run(0xC0002000, 0, 1),
        ],
        Refusal::Unknown,
        33,
    ),
    RunsRefused(
        &[
            Run(0x80000001, 0, 1),
            Run(0x90000000, 0, 1),
            Run(0xC0000000, 0x100, 31),
            Run(0xC0001F01, 0, 1),
        ],
        Refusal::Unknown,
        33,
    ),
    RunsRefused(
        &[
            Run(0x80000001, 0, 1),
            Run(0x90000000, 0, 1),
            Run(0xC0000000, 0x100, 33),
            Run(0x70000023, 0, 1),
        ],
        Refusal::Limit,
        34,
    ),
    RunsRefused(
        &[
            Run(0x80000001, 0, 1),
            Run(0x90000000, 0, 1),
            Run(0xC0000000, 0x100, 32),
            Run(0xC0000001, 0, 1),
        ],
        Refusal::Limit,
        34,
    ),
    // landings without the first, and with one twice
    RunsRefused(
        &[
            Run(0x80000001, 0, 1),
            Run(0x90000000, 0, 1),
            Run(0xC0000100, 0x100, 32),
            Run(0x70000022, 0, 1),
        ],
        Refusal::Unknown,
        2,
    ),
    RunsRefused(
        &[
            Run(0x80000001, 0, 1),
            Run(0x90000000, 0, 1),
            Run(0xC0000000, 0, 2),
            Run(0x70000004, 0, 1),
        ],
        Refusal::Unknown,
        3,
    ),
    // 65,535 records: the last record word of a link, one too few, and the end
    RunsRefused(
        &[
            Run(0x80000001, 0, 1),
            Run(0x9000FFFF, 0, 1),
            Run(0xA0000000, 0, 1),
            Run(0xB0000001, 1, 65535),
            Run(0x70010002, 0, 1),
        ],
        Refusal::Unknown,
        65537,
    ),
    RunsRefused(
        &[
            Run(0x80000001, 0, 1),
            Run(0x9000FFFF, 0, 1),
            Run(0xA0000000, 0, 1),
            Run(0xB0000000, 1, 65534),
            Run(0x70010001, 0, 1),
        ],
        Refusal::Wrong,
        65537,
    ),
    RunsRefused(
        &[
            Run(0x80000001, 0, 1),
            Run(0x9000FFFF, 0, 1),
            Run(0xA0000000, 0, 1),
            Run(0xB0000000, 1, 65535),
        ],
        Refusal::Missing,
        65538,
    ),
    // 4,095 source records: the last record word
    RunsRefused(
        &[
            Run(0x80000001, 0, 1),
            Run(0x90000001, 0, 1),
            Run(0xCFFF0000, 0, 1),
            Run(0xB0000000, 0, 4094),
            Run(0xB0000001, 0, 1),
        ],
        Refusal::Unknown,
        4097,
    ),
];

// A file that is taken, its kinds, its links, and the place of the last link (0 if there is none).
pub const TAKEN: [Taken<(u32, usize, usize)>; 15] = [
    Taken(&[Run(0x80000000, 0, 1), Run(0x70000001, 0, 1)], (0, 0, 0)),
    Taken(
        &[
            Run(0x80000001, 0, 1),
            Run(0x90000002, 0, 1),
            Run(0x70000002, 0, 1),
        ],
        (1, 0, 0),
    ),
    Taken(
        &[
            Run(0x80000001, 0, 1),
            Run(0x90000003, 0, 1),
            Run(0xA0000000, 0, 1),
            Run(0xB0000001, 1, 2),
            Run(0xB0000001, 0, 1),
            Run(0xC0010000, 0, 1),
            Run(0xB0000000, 0, 1),
            Run(0x70000008, 0, 1),
        ],
        (1, 1, 2),
    ),
    // 32 kinds; a link between the last of them, without records, and landings in the last
    Taken(
        &[
            Run(0x80000020, 0, 1),
            Run(0x90000000, 0, 32),
            Run(0x70000021, 0, 1),
        ],
        (32, 0, 0),
    ),
    Taken(
        &[
            Run(0x80000020, 0, 1),
            Run(0x90000000, 0, 32),
            Run(0xA0001F1F, 0, 1),
            Run(0xC000001F, 0, 1),
            Run(0x70000023, 0, 1),
        ],
        (32, 1, 33),
    ),
    // 64 links without records
    Taken(
        &[
            Run(0x80000001, 0, 1),
            Run(0x90000000, 0, 1),
            Run(0xA0000000, 0, 64),
            Run(0x70000042, 0, 1),
        ],
        (1, 64, 65),
    ),
    // 32 landings words
    Taken(
        &[
            Run(0x80000001, 0, 1),
            Run(0x90000000, 0, 1),
            Run(0xC0000000, 0x100, 32),
            Run(0x70000022, 0, 1),
        ],
        (1, 0, 0),
    ),
    // the largest count, and a link from it to the last record
    Taken(
        &[
            Run(0x80000001, 0, 1),
            Run(0x9000FFFF, 0, 1),
            Run(0x70000002, 0, 1),
        ],
        (1, 0, 0),
    ),
    Taken(
        &[
            Run(0x80000001, 0, 1),
            Run(0x9000FFFF, 0, 1),
            Run(0xA0000000, 0, 1),
            Run(0xB0000000, 1, 65535),
            Run(0x70010002, 0, 1),
        ],
        (1, 1, 2),
    ),
    // the most source records, into a kind of one record
    Taken(
        &[
            Run(0x80000001, 0, 1),
            Run(0x90000001, 0, 1),
            Run(0xCFFF0000, 0, 1),
            Run(0xB0000000, 0, 4095),
            Run(0x70001002, 0, 1),
        ],
        (1, 0, 0),
    ),
    // landings of more source kinds and source records than the file has kinds and records
    Taken(
        &[
            Run(0x80000001, 0, 1),
            Run(0x90000001, 0, 1),
            Run(0xC0000000, 0x100, 2),
            Run(0xC0020200, 0, 1),
            Run(0xB0000000, 0, 2),
            Run(0x70000007, 0, 1),
        ],
        (1, 0, 0),
    ),
    // a kind of no records leads by no record words, and is led to by none
    Taken(
        &[
            Run(0x80000002, 0, 1),
            Run(0x90000000, 0, 1),
            Run(0x90000002, 0, 1),
            Run(0xA0000001, 0, 2),
            Run(0xA0000000, 0, 1),
            Run(0x70000006, 0, 1),
        ],
        (2, 3, 5),
    ),
    // a link to a kind of more records, and one to a kind of fewer
    Taken(
        &[
            Run(0x80000002, 0, 1),
            Run(0x90000001, 0, 1),
            Run(0x90000005, 0, 1),
            Run(0xA0000001, 0, 1),
            Run(0xB0000004, 0, 1),
            Run(0x70000005, 0, 1),
        ],
        (2, 1, 3),
    ),
    Taken(
        &[
            Run(0x80000002, 0, 1),
            Run(0x90000003, 0, 1),
            Run(0x90000001, 0, 1),
            Run(0xA0000001, 0, 1),
            Run(0xB0000000, 0, 3),
            Run(0x70000007, 0, 1),
        ],
        (2, 1, 3),
    ),
    // all links of two kinds, each with its own number of record words
    Taken(
        &[
            Run(0x80000002, 0, 1),
            Run(0x90000001, 1, 2),
            Run(0xA0000000, 0, 1),
            Run(0xB0000000, 0, 1),
            Run(0xA0000001, 0, 1),
            Run(0xB0000001, 0, 1),
            Run(0xA0000100, 0, 1),
            Run(0xB0000000, 0, 2),
            Run(0xA0000101, 0, 1),
            Run(0xB0000000, 1, 2),
            Run(0x7000000D, 0, 1),
        ],
        (2, 4, 10),
    ),
];
