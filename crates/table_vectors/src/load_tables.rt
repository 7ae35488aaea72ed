// Loads: problem words, a source, work words, and the capacity or the fault.
use vectors::loose::Loose;
use words::faults::{Fault, Refusal};

// The problem words, the source, the number of work words, and the capacity or the fault.
#[derive(Clone, Copy)]
pub struct Load(
    pub &'static [u32],
    pub Loose,
    pub usize,
    pub Result<u32, Fault>,
);

// One kind on each side, and a target link.
pub const FREE: [u32; 5] = [0x10000001, 0x10000101, 0x20000000, 0x50000000, 0x70000004];

// One kind on each side, and a source link that becomes the empty path.
pub const ROUND: [u32; 6] = [
    0x10000001, 0x20000000, 0x10000101, 0x50000000, 0x60000000, 0x70000005,
];

// Two source kinds and a link between them, both onto one kind.
const JOINED: [u32; 7] = [
    0x10000002, 0x20000001, 0x10000101, 0x50000000, 0x50000100, 0x60000000, 0x70000006,
];

// Two source links that become the empty path.
pub const TWO_ROUND: [u32; 8] = [
    0x10000001, 0x20000000, 0x20000000, 0x10000101, 0x50000000, 0x60000000, 0x60000100, 0x70000007,
];

// Three records with a blank; the second link leads the first of the others to the blank.
pub const SECOND_STRAYS: [u32; 11] = [
    0x80000001, 0x90000003, 0xA0000000, 0xB0000000, 0xB0000001, 0xB0000002, 0xA0000000, 0xB0000002,
    0xB0000000, 0xB0000001, 0x7000000A,
];

const NONE: Loose = Loose {
    kinds: 0,
    records: 0,
    links: 0,
    from: 0,
    to: 0,
    led: 0,
};

// One record.
const ONE: Loose = Loose {
    kinds: 1,
    records: 1,
    ..NONE
};

// Six records, and a link that leads each to the third.
const SIX: Loose = Loose {
    kinds: 1,
    records: 6,
    links: 1,
    led: 2,
    ..NONE
};

// Two kinds of two records, and a link from the first to the second.
const TWO: Loose = Loose {
    kinds: 2,
    records: 2,
    links: 1,
    from: 0,
    to: 1,
    led: 1,
};

// Two records, and two links that lead each to the second.
const TWICE: Loose = Loose {
    kinds: 1,
    records: 2,
    links: 2,
    led: 1,
    ..NONE
};

pub const LOADS: [Load; 44] = [
    // needed words and capacity
    Load(
        &FREE,
        ONE,
        0,
        Err(Fault {
            refusal: Refusal::Memory,
            place: 0,
        }),
    ),
    Load(
        &FREE,
        ONE,
        5,
        Err(Fault {
            refusal: Refusal::Memory,
            place: 0,
        }),
    ),
    Load(&FREE, ONE, 6, Ok(0)),
    Load(&FREE, ONE, 9, Ok(0)),
    Load(&FREE, ONE, 10, Ok(1)),
    Load(&FREE, ONE, 13, Ok(1)),
    Load(&FREE, ONE, 14, Ok(2)),
    Load(
        &FREE,
        Loose { records: 0, ..ONE },
        4,
        Err(Fault {
            refusal: Refusal::Memory,
            place: 0,
        }),
    ),
    Load(&FREE, Loose { records: 0, ..ONE }, 5, Ok(0)),
    Load(&FREE, Loose { records: 0, ..ONE }, 9, Ok(1)),
    Load(
        &FREE,
        Loose {
            records: 4095,
            ..ONE
        },
        4099,
        Err(Fault {
            refusal: Refusal::Memory,
            place: 0,
        }),
    ),
    Load(
        &FREE,
        Loose {
            records: 4095,
            ..ONE
        },
        4136,
        Ok(9),
    ),
    Load(
        &ROUND,
        SIX,
        17,
        Err(Fault {
            refusal: Refusal::Memory,
            place: 0,
        }),
    ),
    Load(&ROUND, SIX, 18, Ok(0)),
    Load(&ROUND, SIX, 45, Ok(9)),
    Load(&ROUND, Loose { records: 0, ..SIX }, 6, Ok(0)),
    Load(
        &JOINED,
        TWO,
        12,
        Err(Fault {
            refusal: Refusal::Memory,
            place: 0,
        }),
    ),
    Load(&JOINED, TWO, 13, Ok(0)),
    Load(&JOINED, TWO, 16, Ok(1)),
    Load(
        &TWO_ROUND,
        TWICE,
        13,
        Err(Fault {
            refusal: Refusal::Memory,
            place: 0,
        }),
    ),
    Load(&TWO_ROUND, TWICE, 17, Ok(1)),
    // another shape
    Load(
        &FREE,
        Loose { kinds: 0, ..ONE },
        14,
        Err(Fault {
            refusal: Refusal::Shape,
            place: 0,
        }),
    ),
    Load(
        &FREE,
        Loose { kinds: 2, ..ONE },
        14,
        Err(Fault {
            refusal: Refusal::Shape,
            place: 0,
        }),
    ),
    Load(
        &FREE,
        Loose { links: 1, ..ONE },
        14,
        Err(Fault {
            refusal: Refusal::Shape,
            place: 0,
        }),
    ),
    Load(
        &ROUND,
        Loose { links: 0, ..SIX },
        45,
        Err(Fault {
            refusal: Refusal::Shape,
            place: 0,
        }),
    ),
    Load(
        &ROUND,
        Loose { links: 2, ..SIX },
        45,
        Err(Fault {
            refusal: Refusal::Shape,
            place: 0,
        }),
    ),
    Load(
        &ROUND,
        Loose { from: 1, ..SIX },
        45,
        Err(Fault {
            refusal: Refusal::Shape,
            place: 0,
        }),
    ),
    Load(
        &ROUND,
        Loose { to: 1, ..SIX },
        45,
        Err(Fault {
            refusal: Refusal::Shape,
            place: 0,
        }),
    ),
    Load(
        &JOINED,
        Loose {
            from: 1,
            to: 0,
            ..TWO
        },
        16,
        Err(Fault {
            refusal: Refusal::Shape,
            place: 0,
        }),
    ),
    // too many records, before a link that strays and before memory
    Load(
        &FREE,
        Loose {
            records: 4096,
            ..ONE
        },
        0,
        Err(Fault {
            refusal: Refusal::Large,
            place: 0,
        }),
    ),
    Load(
        &FREE,
        Loose {
            records: u32::MAX,
            ..ONE
        },
        9000,
        Err(Fault {
            refusal: Refusal::Large,
            place: 0,
        }),
    ),
    Load(
        &JOINED,
        Loose {
            records: 2048,
            led: 9999,
            ..TWO
        },
        9000,
        Err(Fault {
            refusal: Refusal::Large,
            place: 0,
        }),
    ),
    Load(
        &FREE,
        Loose {
            kinds: 2,
            records: 4096,
            ..ONE
        },
        9000,
        Err(Fault {
            refusal: Refusal::Shape,
            place: 0,
        }),
    ),
    // a link that strays, before memory
    Load(
        &ROUND,
        Loose { led: 6, ..SIX },
        0,
        Err(Fault {
            refusal: Refusal::Leads,
            place: 0,
        }),
    ),
    Load(
        &ROUND,
        Loose {
            led: u32::MAX,
            ..SIX
        },
        45,
        Err(Fault {
            refusal: Refusal::Leads,
            place: 0,
        }),
    ),
    Load(
        &JOINED,
        Loose { led: 2, ..TWO },
        16,
        Err(Fault {
            refusal: Refusal::Leads,
            place: 0,
        }),
    ),
    // the problem's words come first, with their own places
    Load(
        &[],
        Loose {
            kinds: 0,
            records: 9999,
            ..ONE
        },
        0,
        Err(Fault {
            refusal: Refusal::Missing,
            place: 0,
        }),
    ),
    Load(
        &[0x10000001, 0x10000101, 0x20000000],
        ONE,
        14,
        Err(Fault {
            refusal: Refusal::Missing,
            place: 3,
        }),
    ),
    Load(
        &[0x10000101],
        ONE,
        14,
        Err(Fault {
            refusal: Refusal::Wrong,
            place: 0,
        }),
    ),
    Load(
        &[0x10000001, 0x10000101, 0x20000000, 0x50000000, 0x70000005],
        ONE,
        14,
        Err(Fault {
            refusal: Refusal::Wrong,
            place: 4,
        }),
    ),
    Load(
        &[0x10000021],
        Loose { kinds: 33, ..ONE },
        14,
        Err(Fault {
            refusal: Refusal::Limit,
            place: 0,
        }),
    ),
    Load(
        &[0x10000001, 0x10000101, 0x20000001, 0x50000000, 0x70000004],
        ONE,
        14,
        Err(Fault {
            refusal: Refusal::Unknown,
            place: 2,
        }),
    ),
    Load(
        &[
            0x10000001, 0x20000000, 0x10000101, 0x50000000, 0x60000001, 0x40000000, 0x70000006,
        ],
        SIX,
        45,
        Err(Fault {
            refusal: Refusal::Unknown,
            place: 5,
        }),
    ),
    Load(
        &[
            0x10000001, 0x10000102, 0x20000001, 0x30000101, 0x40000000, 0x40000000, 0x30000200,
            0x40000000, 0x40000000, 0x50000000, 0x70000009,
        ],
        ONE,
        14,
        Err(Fault {
            refusal: Refusal::Unjoined,
            place: 8,
        }),
    ),
];
