// Shifts from load to their end, and what finish then does.
use machine::answers::Ending;
use words::faults::Refusal;

// A load and a shift of at most so many steps; how it ends, and the words of the finish or its refusal.
#[derive(Clone, Copy)]
pub struct Run {
    pub problem: &'static [u32],
    pub register: &'static [u32],
    pub work: usize,
    pub budget: u32,
    pub ending: Ending,
    pub steps: u32,
    pub given: u32,
    pub living: u32,
    pub finish: Result<&'static [u32], Refusal>,
}

pub const RUNS: [Run; 17] = [
    // six records that a link leads two on, onto no links
    Run {
        problem: &[
            0x10000001, 0x20000000, 0x10000101, 0x50000000, 0x60000000, 0x70000005,
        ],
        register: &[
            0x80000001, 0x90000006, 0xA0000000, 0xB0000002, 0xB0000003, 0xB0000004, 0xB0000005,
            0xB0000000, 0xB0000001, 0x70000009,
        ],
        work: 45,
        budget: 100,
        ending: Ending::Complete,
        steps: 6,
        given: 2,
        living: 2,
        finish: Ok(&[
            0x80000001, 0x90000002, 0xC0060000, 0xB0000000, 0xB0000001, 0xB0000000, 0xB0000001,
            0xB0000000, 0xB0000001, 0x70000009,
        ]),
    },
    // three steps are one
    Run {
        problem: &[
            0x10000001, 0x10000101, 0x20000000, 0x30000301, 0x40000000, 0x40000000, 0x40000000,
            0x40000000, 0x50000000, 0x70000009,
        ],
        register: &[0x80000001, 0x90000001, 0x70000002],
        work: 100,
        budget: 100,
        ending: Ending::Complete,
        steps: 4,
        given: 3,
        living: 3,
        finish: Ok(&[
            0x80000001, 0x90000003, 0xA0000000, 0xB0000001, 0xB0000002, 0xB0000001, 0xC0010000,
            0xB0000000, 0x70000008,
        ]),
    },
    // the same, with a budget for exactly its steps
    Run {
        problem: &[
            0x10000001, 0x10000101, 0x20000000, 0x30000301, 0x40000000, 0x40000000, 0x40000000,
            0x40000000, 0x50000000, 0x70000009,
        ],
        register: &[0x80000001, 0x90000001, 0x70000002],
        work: 100,
        budget: 4,
        ending: Ending::Complete,
        steps: 4,
        given: 3,
        living: 3,
        finish: Ok(&[
            0x80000001, 0x90000003, 0xA0000000, 0xB0000001, 0xB0000002, 0xB0000001, 0xC0010000,
            0xB0000000, 0x70000008,
        ]),
    },
    // and with one less
    Run {
        problem: &[
            0x10000001, 0x10000101, 0x20000000, 0x30000301, 0x40000000, 0x40000000, 0x40000000,
            0x40000000, 0x50000000, 0x70000009,
        ],
        register: &[0x80000001, 0x90000001, 0x70000002],
        work: 100,
        budget: 3,
        ending: Ending::Spent,
        steps: 3,
        given: 3,
        living: 3,
        finish: Err(Refusal::Incomplete),
    },
    // and with none
    Run {
        problem: &[
            0x10000001, 0x10000101, 0x20000000, 0x30000301, 0x40000000, 0x40000000, 0x40000000,
            0x40000000, 0x50000000, 0x70000009,
        ],
        register: &[0x80000001, 0x90000001, 0x70000002],
        work: 100,
        budget: 0,
        ending: Ending::Spent,
        steps: 0,
        given: 0,
        living: 0,
        finish: Err(Refusal::Incomplete),
    },
    // a link without rules: full after two steps
    Run {
        problem: &[0x10000001, 0x10000101, 0x20000000, 0x50000000, 0x70000004],
        register: &[0x80000001, 0x90000001, 0x70000002],
        work: 14,
        budget: 100,
        ending: Ending::Full,
        steps: 2,
        given: 2,
        living: 2,
        finish: Err(Refusal::Incomplete),
    },
    // full after one
    Run {
        problem: &[0x10000001, 0x10000101, 0x20000000, 0x50000000, 0x70000004],
        register: &[0x80000001, 0x90000001, 0x70000002],
        work: 13,
        budget: 100,
        ending: Ending::Full,
        steps: 1,
        given: 1,
        living: 1,
        finish: Err(Refusal::Incomplete),
    },
    // full at once
    Run {
        problem: &[0x10000001, 0x10000101, 0x20000000, 0x50000000, 0x70000004],
        register: &[0x80000001, 0x90000001, 0x70000002],
        work: 6,
        budget: 100,
        ending: Ending::Full,
        steps: 0,
        given: 0,
        living: 0,
        finish: Err(Refusal::Incomplete),
    },
    // full, but the budget is spent first
    Run {
        problem: &[0x10000001, 0x10000101, 0x20000000, 0x50000000, 0x70000004],
        register: &[0x80000001, 0x90000001, 0x70000002],
        work: 14,
        budget: 2,
        ending: Ending::Spent,
        steps: 2,
        given: 2,
        living: 2,
        finish: Err(Refusal::Incomplete),
    },
    // two steps are none, three steps are none: the fourth step merges
    Run {
        problem: &[
            0x10000001, 0x10000101, 0x20000000, 0x30000200, 0x40000000, 0x40000000, 0x30000300,
            0x40000000, 0x40000000, 0x40000000, 0x50000000, 0x7000000B,
        ],
        register: &[0x80000001, 0x90000001, 0x70000002],
        work: 100,
        budget: 100,
        ending: Ending::Complete,
        steps: 5,
        given: 2,
        living: 1,
        finish: Ok(&[
            0x80000001, 0x90000001, 0xA0000000, 0xB0000000, 0xC0010000, 0xB0000000, 0x70000006,
        ]),
    },
    // the same, spent while one waits
    Run {
        problem: &[
            0x10000001, 0x10000101, 0x20000000, 0x30000200, 0x40000000, 0x40000000, 0x30000300,
            0x40000000, 0x40000000, 0x40000000, 0x50000000, 0x7000000B,
        ],
        register: &[0x80000001, 0x90000001, 0x70000002],
        work: 100,
        budget: 4,
        ending: Ending::Spent,
        steps: 4,
        given: 2,
        living: 1,
        finish: Err(Refusal::Waiting),
    },
    // two records lead to one of another kind, both onto one kind
    Run {
        problem: &[
            0x10000002, 0x20000001, 0x10000101, 0x50000000, 0x50000100, 0x60000000, 0x70000006,
        ],
        register: &[
            0x80000002, 0x90000002, 0x90000001, 0xA0000001, 0xB0000000, 0xB0000000, 0x70000006,
        ],
        work: 100,
        budget: 100,
        ending: Ending::Complete,
        steps: 3,
        given: 1,
        living: 1,
        finish: Ok(&[
            0x80000001, 0x90000001, 0xC0020000, 0xB0000000, 0xB0000000, 0xC0010100, 0xB0000000,
            0x70000007,
        ]),
    },
    // no records: complete at once
    Run {
        problem: &[
            0x10000001, 0x10000101, 0x20000000, 0x30000301, 0x40000000, 0x40000000, 0x40000000,
            0x40000000, 0x50000000, 0x70000009,
        ],
        register: &[0x80000001, 0x90000000, 0x70000002],
        work: 100,
        budget: 0,
        ending: Ending::Complete,
        steps: 0,
        given: 0,
        living: 0,
        finish: Ok(&[0x80000001, 0x90000000, 0xA0000000, 0xC0000000, 0x70000004]),
    },
    // moorings at quays get berths
    Run {
        problem: &[
            0x10000002, 0x20000001, 0x10000103, 0x20000001, 0x20000102, 0x20000201, 0x30010200,
            0x40000001, 0x40000002, 0x50000000, 0x50000102, 0x60000002, 0x40000000, 0x40000001,
            0x7000000E,
        ],
        register: &[
            0x80000002, 0x90000004, 0x90000002, 0xA0000001, 0xB0000000, 0xB0000000, 0xB0000001,
            0xB0000001, 0x70000008,
        ],
        work: 400,
        budget: 100,
        ending: Ending::Complete,
        steps: 20,
        given: 10,
        living: 8,
        finish: Ok(&[
            0x80000003, 0x90000004, 0x90000002, 0x90000002, 0xA0000001, 0xB0000000, 0xB0000000,
            0xB0000001, 0xB0000001, 0xA0000102, 0xB0000000, 0xB0000001, 0xA0000201, 0xB0000000,
            0xB0000001, 0xC0040000, 0xB0000000, 0xB0000001, 0xB0000002, 0xB0000003, 0xC0020102,
            0xB0000000, 0xB0000001, 0x70000017,
        ]),
    },
    // a sweep makes room
    Run {
        problem: &[
            0x10000001, 0x10000101, 0x20000000, 0x20000000, 0x30000200, 0x40000000, 0x40000000,
            0x30000300, 0x40000000, 0x40000000, 0x40000000, 0x30000400, 0x40000001, 0x40000001,
            0x40000001, 0x40000001, 0x50000000, 0x70000011,
        ],
        register: &[0x80000001, 0x90000001, 0x70000002],
        work: 44,
        budget: 200,
        ending: Ending::Complete,
        steps: 23,
        given: 5,
        living: 4,
        finish: Ok(&[
            0x80000001, 0x90000004, 0xA0000000, 0xB0000000, 0xB0000001, 0xB0000002, 0xB0000003,
            0xA0000000, 0xB0000001, 0xB0000002, 0xB0000003, 0xB0000000, 0xC0010000, 0xB0000000,
            0x7000000E,
        ]),
    },
    // the turns and flips of a triangle
    Run {
        problem: &[
            0x10000001, 0x10000101, 0x20000000, 0x20000000, 0x30000300, 0x40000000, 0x40000000,
            0x40000000, 0x30000200, 0x40000001, 0x40000001, 0x30000400, 0x40000000, 0x40000001,
            0x40000000, 0x40000001, 0x50000000, 0x70000011,
        ],
        register: &[0x80000001, 0x90000001, 0x70000002],
        work: 200,
        budget: 200,
        ending: Ending::Complete,
        steps: 16,
        given: 7,
        living: 6,
        finish: Ok(&[
            0x80000001, 0x90000006, 0xA0000000, 0xB0000001, 0xB0000003, 0xB0000005, 0xB0000000,
            0xB0000002, 0xB0000004, 0xA0000000, 0xB0000002, 0xB0000004, 0xB0000000, 0xB0000005,
            0xB0000001, 0xB0000003, 0xC0010000, 0xB0000000, 0x70000012,
        ]),
    },
    // the turns and flips of a square
    Run {
        problem: &[
            0x10000001, 0x10000101, 0x20000000, 0x20000000, 0x30000400, 0x40000000, 0x40000000,
            0x40000000, 0x40000000, 0x30000200, 0x40000001, 0x40000001, 0x30000204, 0x40000000,
            0x40000001, 0x40000001, 0x40000000, 0x40000000, 0x40000000, 0x50000000, 0x70000014,
        ],
        register: &[0x80000001, 0x90000001, 0x70000002],
        work: 400,
        budget: 400,
        ending: Ending::Complete,
        steps: 20,
        given: 9,
        living: 8,
        finish: Ok(&[
            0x80000001, 0x90000008, 0xA0000000, 0xB0000001, 0xB0000003, 0xB0000005, 0xB0000006,
            0xB0000002, 0xB0000007, 0xB0000000, 0xB0000004, 0xA0000000, 0xB0000002, 0xB0000004,
            0xB0000000, 0xB0000007, 0xB0000001, 0xB0000006, 0xB0000005, 0xB0000003, 0xC0010000,
            0xB0000000, 0x70000016,
        ]),
    },
];
