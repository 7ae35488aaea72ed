// Registers that are written and refused.
use crate::files::Run;
use crate::loose::Loose;
use words::faults::Refusal;

// A loose register and the runs of its words.
#[derive(Clone, Copy)]
pub struct LooseWritten(pub Loose, pub &'static [Run]);

// A loose register and why it is not written, at place 0.
#[derive(Clone, Copy)]
pub struct LooseRefused(pub Loose, pub Refusal);

const NONE: Loose = Loose {
    kinds: 0,
    records: 0,
    links: 0,
    from: 0,
    to: 0,
    led: 0,
};

pub const LOOSE_WRITTEN: [LooseWritten; 9] = [
    LooseWritten(NONE, &[Run(0x80000000, 0, 1), Run(0x70000001, 0, 1)]),
    // the most kinds, links and records
    LooseWritten(
        Loose { kinds: 32, ..NONE },
        &[
            Run(0x80000020, 0, 1),
            Run(0x90000000, 0, 32),
            Run(0x70000021, 0, 1),
        ],
    ),
    LooseWritten(
        Loose {
            kinds: 1,
            links: 64,
            ..NONE
        },
        &[
            Run(0x80000001, 0, 1),
            Run(0x90000000, 0, 1),
            Run(0xA0000000, 0, 64),
            Run(0x70000042, 0, 1),
        ],
    ),
    LooseWritten(
        Loose {
            kinds: 1,
            records: 65535,
            ..NONE
        },
        &[
            Run(0x80000001, 0, 1),
            Run(0x9000FFFF, 0, 1),
            Run(0x70000002, 0, 1),
        ],
    ),
    LooseWritten(
        Loose {
            kinds: 32,
            records: 65535,
            ..NONE
        },
        &[
            Run(0x80000020, 0, 1),
            Run(0x9000FFFF, 0, 32),
            Run(0x70000021, 0, 1),
        ],
    ),
    LooseWritten(
        Loose {
            kinds: 1,
            records: 65535,
            links: 1,
            led: 65534,
            ..NONE
        },
        &[
            Run(0x80000001, 0, 1),
            Run(0x9000FFFF, 0, 1),
            Run(0xA0000000, 0, 1),
            Run(0xB000FFFE, 0, 65535),
            Run(0x70010002, 0, 1),
        ],
    ),
    // the last kinds as ends
    LooseWritten(
        Loose {
            kinds: 32,
            links: 1,
            from: 31,
            to: 31,
            ..NONE
        },
        &[
            Run(0x80000020, 0, 1),
            Run(0x90000000, 0, 32),
            Run(0xA0001F1F, 0, 1),
            Run(0x70000022, 0, 1),
        ],
    ),
    LooseWritten(
        Loose {
            kinds: 2,
            records: 1,
            links: 1,
            from: 1,
            ..NONE
        },
        &[
            Run(0x80000002, 0, 1),
            Run(0x90000001, 0, 2),
            Run(0xA0000100, 0, 1),
            Run(0xB0000000, 0, 1),
            Run(0x70000005, 0, 1),
        ],
    ),
    // the last record
    LooseWritten(
        Loose {
            kinds: 1,
            records: 3,
            links: 1,
            led: 2,
            ..NONE
        },
        &[
            Run(0x80000001, 0, 1),
            Run(0x90000003, 0, 1),
            Run(0xA0000000, 0, 1),
            Run(0xB0000002, 0, 3),
            Run(0x70000006, 0, 1),
        ],
    ),
];

pub const LOOSE_REFUSED: [LooseRefused; 19] = [
    LooseRefused(Loose { kinds: 33, ..NONE }, Refusal::Large),
    LooseRefused(
        Loose {
            kinds: u32::MAX,
            ..NONE
        },
        Refusal::Large,
    ),
    LooseRefused(
        Loose {
            kinds: 1,
            links: 65,
            ..NONE
        },
        Refusal::Large,
    ),
    LooseRefused(
        Loose {
            kinds: 1,
            links: u32::MAX,
            ..NONE
        },
        Refusal::Large,
    ),
    LooseRefused(Loose { links: 65, ..NONE }, Refusal::Large),
    LooseRefused(
        Loose {
            kinds: 1,
            records: 65536,
            ..NONE
        },
        Refusal::Large,
    ),
    LooseRefused(
        Loose {
            kinds: 32,
            records: 65536,
            ..NONE
        },
        Refusal::Large,
    ),
    LooseRefused(
        Loose {
            kinds: 1,
            records: u32::MAX,
            ..NONE
        },
        Refusal::Large,
    ),
    // large and astray: the lower number decides
    LooseRefused(
        Loose {
            kinds: 33,
            links: 1,
            to: 33,
            ..NONE
        },
        Refusal::Large,
    ),
    LooseRefused(
        Loose {
            kinds: 1,
            records: 65536,
            links: 1,
            led: 65536,
            ..NONE
        },
        Refusal::Large,
    ),
    // ends that are not among the kinds, with and without records
    LooseRefused(Loose { links: 1, ..NONE }, Refusal::Leads),
    LooseRefused(
        Loose {
            kinds: 1,
            links: 1,
            from: 1,
            ..NONE
        },
        Refusal::Leads,
    ),
    LooseRefused(
        Loose {
            kinds: 1,
            links: 1,
            to: 1,
            ..NONE
        },
        Refusal::Leads,
    ),
    LooseRefused(
        Loose {
            kinds: 1,
            records: 1,
            links: 64,
            to: u32::MAX,
            ..NONE
        },
        Refusal::Leads,
    ),
    LooseRefused(
        Loose {
            kinds: 32,
            records: 1,
            links: 1,
            from: 32,
            ..NONE
        },
        Refusal::Leads,
    ),
    LooseRefused(
        Loose {
            kinds: 32,
            records: 1,
            links: 1,
            to: 32,
            ..NONE
        },
        Refusal::Leads,
    ),
    // records that are not counted
    LooseRefused(
        Loose {
            kinds: 1,
            records: 3,
            links: 1,
            led: 3,
            ..NONE
        },
        Refusal::Leads,
    ),
    LooseRefused(
        Loose {
            kinds: 1,
            records: 65535,
            links: 64,
            led: 65535,
            ..NONE
        },
        Refusal::Leads,
    ),
    LooseRefused(
        Loose {
            kinds: 1,
            records: 1,
            links: 1,
            led: u32::MAX,
            ..NONE
        },
        Refusal::Leads,
    ),
];

// A register file, and the words of the layer over it.
#[derive(Clone, Copy)]
pub struct BlankWritten(pub &'static [u32], pub &'static [u32]);

pub const BLANK_WRITTEN: [BlankWritten; 8] = [
    BlankWritten(&[0x80000000, 0x70000001], &[0x80000000, 0x70000001]),
    BlankWritten(
        &[0x80000001, 0x90000002, 0x70000002],
        &[0x80000001, 0x90000001, 0x70000002],
    ),
    BlankWritten(
        &[0x80000001, 0x90000000, 0x70000002],
        &[0x80000001, 0x90000000, 0x70000002],
    ),
    BlankWritten(
        &[0x80000001, 0x9000FFFF, 0x70000002],
        &[0x80000001, 0x9000FFFE, 0x70000002],
    ),
    BlankWritten(
        &[
            0x80000001, 0x90000004, 0xA0000000, 0xB0000000, 0xB0000002, 0xB0000003, 0xB0000002,
            0x70000007,
        ],
        &[
            0x80000001, 0x90000003, 0xA0000000, 0xB0000001, 0xB0000002, 0xB0000001, 0x70000006,
        ],
    ),
    // only the blank is led to
    BlankWritten(
        &[0x80000001, 0x90000001, 0xA0000000, 0xB0000000, 0x70000004],
        &[0x80000001, 0x90000000, 0xA0000000, 0x70000003],
    ),
    // the blank leads to a record that is none
    BlankWritten(
        &[
            0x80000001, 0x90000002, 0xA0000000, 0xB0000001, 0xB0000001, 0x70000005,
        ],
        &[0x80000001, 0x90000001, 0xA0000000, 0xB0000000, 0x70000004],
    ),
    // landings are not written
    BlankWritten(
        &[
            0x80000002, 0x90000002, 0x90000003, 0xA0000001, 0xB0000000, 0xB0000002, 0xC0010000,
            0xB0000000, 0x70000008,
        ],
        &[
            0x80000002, 0x90000001, 0x90000002, 0xA0000001, 0xB0000001, 0x70000005,
        ],
    ),
];

// A register file, and the lowest link of the layer over it that leads astray.
#[derive(Clone, Copy)]
pub struct BlankRefused(pub &'static [Run], pub usize);

pub const BLANK_REFUSED: [BlankRefused; 6] = [
    BlankRefused(
        &[
            Run(0x80000001, 0, 1),
            Run(0x90000002, 0, 1),
            Run(0xA0000000, 0, 1),
            Run(0xB0000000, 0, 2),
            Run(0x70000005, 0, 1),
        ],
        0,
    ),
    // the last of three
    BlankRefused(
        &[
            Run(0x80000001, 0, 1),
            Run(0x90000002, 0, 1),
            Run(0xA0000000, 0, 1),
            Run(0xB0000000, 1, 2),
            Run(0xA0000000, 0, 1),
            Run(0xB0000000, 1, 2),
            Run(0xA0000000, 0, 1),
            Run(0xB0000000, 0, 2),
            Run(0x7000000B, 0, 1),
        ],
        2,
    ),
    // the second and the third of four
    BlankRefused(
        &[
            Run(0x80000001, 0, 1),
            Run(0x90000002, 0, 1),
            Run(0xA0000000, 0, 1),
            Run(0xB0000001, 0, 2),
            Run(0xA0000000, 0, 1),
            Run(0xB0000000, 0, 2),
            Run(0xA0000000, 0, 1),
            Run(0xB0000000, 0, 2),
            Run(0xA0000000, 0, 1),
            Run(0xB0000001, 0, 2),
            Run(0x7000000E, 0, 1),
        ],
        1,
    ),
    // the last of 64, the others without records
    BlankRefused(
        &[
            Run(0x80000002, 0, 1),
            Run(0x90000002, 0, 1),
            Run(0x90000000, 0, 1),
            Run(0xA0000101, 0, 63),
            Run(0xA0000000, 0, 1),
            Run(0xB0000001, 0, 1),
            Run(0xB0000000, 0, 1),
            Run(0x70000045, 0, 1),
        ],
        63,
    ),
    // the to kind has a blank only
    BlankRefused(
        &[
            Run(0x80000002, 0, 1),
            Run(0x90000002, 0, 1),
            Run(0x90000001, 0, 1),
            Run(0xA0000001, 0, 1),
            Run(0xB0000000, 0, 2),
            Run(0x70000006, 0, 1),
        ],
        0,
    ),
    // the last of 65,535 records leads to the blank
    BlankRefused(
        &[
            Run(0x80000001, 0, 1),
            Run(0x9000FFFF, 0, 1),
            Run(0xA0000000, 0, 1),
            Run(0xB0000001, 0, 65534),
            Run(0xB0000000, 0, 1),
            Run(0x70010002, 0, 1),
        ],
        0,
    ),
];

// A register file without landings: read and written, it is the same.
#[derive(Clone, Copy)]
pub struct Same(pub &'static [Run]);

pub const SAME: [Same; 9] = [
    Same(&[Run(0x80000000, 0, 1), Run(0x70000001, 0, 1)]),
    Same(&[
        Run(0x80000001, 0, 1),
        Run(0x90000000, 0, 1),
        Run(0x70000002, 0, 1),
    ]),
    Same(&[
        Run(0x80000001, 0, 1),
        Run(0x90000002, 0, 1),
        Run(0x70000002, 0, 1),
    ]),
    Same(&[
        Run(0x80000020, 0, 1),
        Run(0x90000000, 1, 32),
        Run(0x70000021, 0, 1),
    ]),
    Same(&[
        Run(0x80000002, 0, 1),
        Run(0x90000002, 0, 1),
        Run(0x90000001, 0, 1),
        Run(0xA0000001, 0, 1),
        Run(0xB0000000, 0, 2),
        Run(0x70000006, 0, 1),
    ]),
    Same(&[
        Run(0x80000002, 0, 1),
        Run(0x90000001, 1, 2),
        Run(0xA0000000, 0, 1),
        Run(0xB0000000, 0, 1),
        Run(0xA0000001, 0, 1),
        Run(0xB0000001, 0, 1),
        Run(0xA0000100, 0, 1),
        Run(0xB0000000, 0, 2),
        Run(0xA0000101, 0, 1),
        Run(0xB0000000, 1, 2),
        Run(0x7000000D, 0, 1),
    ]),
    Same(&[
        Run(0x80000001, 0, 1),
        Run(0x90000000, 0, 1),
        Run(0xA0000000, 0, 64),
        Run(0x70000042, 0, 1),
    ]),
    Same(&[
        Run(0x80000020, 0, 1),
        Run(0x90000000, 0, 32),
        Run(0xA0000000, 0x101, 32),
        Run(0xA0001F00, 0, 32),
        Run(0x70000061, 0, 1),
    ]),
    Same(&[
        Run(0x80000001, 0, 1),
        Run(0x9000FFFF, 0, 1),
        Run(0xA0000000, 0, 1),
        Run(0xB0000000, 1, 65535),
        Run(0x70010002, 0, 1),
    ]),
];

// A register file with landings, and the words written.
#[derive(Clone, Copy)]
pub struct Landed(pub &'static [Run], pub &'static [Run]);

pub const LANDED: [Landed; 3] = [
    Landed(
        &[
            Run(0x80000001, 0, 1),
            Run(0x90000000, 0, 1),
            Run(0xC0000000, 0x100, 32),
            Run(0x70000022, 0, 1),
        ],
        &[
            Run(0x80000001, 0, 1),
            Run(0x90000000, 0, 1),
            Run(0x70000002, 0, 1),
        ],
    ),
    Landed(
        &[
            Run(0x80000001, 0, 1),
            Run(0x90000001, 0, 1),
            Run(0xCFFF0000, 0, 1),
            Run(0xB0000000, 0, 4095),
            Run(0x70001002, 0, 1),
        ],
        &[
            Run(0x80000001, 0, 1),
            Run(0x90000001, 0, 1),
            Run(0x70000002, 0, 1),
        ],
    ),
    Landed(
        &[
            Run(0x80000001, 0, 1),
            Run(0x90000003, 0, 1),
            Run(0xA0000000, 0, 1),
            Run(0xB0000001, 1, 2),
            Run(0xB0000001, 0, 1),
            Run(0xC0010000, 0, 1),
            Run(0xB0000000, 0, 1),
            Run(0x70000008, 0, 1),
        ],
        &[
            Run(0x80000001, 0, 1),
            Run(0x90000003, 0, 1),
            Run(0xA0000000, 0, 1),
            Run(0xB0000001, 1, 2),
            Run(0xB0000001, 0, 1),
            Run(0x70000006, 0, 1),
        ],
    ),
];

// The size and the steps of a wheel.
#[derive(Clone, Copy)]
pub struct Turned(pub u16, pub &'static [u16]);

pub const WHEELS: [Turned; 10] = [
    Turned(0, &[]),
    Turned(0, &[1]),
    Turned(1, &[]),
    Turned(1, &[0, 5]),
    Turned(3, &[1]),
    Turned(6, &[2, 5]),
    Turned(6, &[2, 8]),
    Turned(7, &[0, 1, 2, 3, 4, 5, 6, 7]),
    Turned(7, &[0, 1, 2, 3, 4, 5, 6, 65535, 9]),
    Turned(65535, &[65535, 1]),
];

// The wheel of 3 with the step 1.
pub const THREE: [u32; 7] = [
    0x80000001, 0x90000003, 0xA0000000, 0xB0000001, 0xB0000002, 0xB0000000, 0x70000006,
];

// One layer and two layers over a wheel of 3 with the step 0.
pub const STILL: [u32; 6] = [
    0x80000001, 0x90000002, 0xA0000000, 0xB0000000, 0xB0000001, 0x70000005,
];

pub const STILLER: [u32; 5] = [0x80000001, 0x90000001, 0xA0000000, 0xB0000000, 0x70000004];
