// What registers answer.
use crate::register_tables::WHOLE;
use words::faults::{Fault, Refusal};

// A question and its answer.
#[derive(Clone, Copy)]
pub enum Ask {
    Kinds(u32),
    Links(u32),
    Ends(u32, Option<(u32, u32)>),
    Count(u32, u32),
    Follow(u32, u32, Option<u32>),
}

// A held register that took nothing.
pub const NOTHING: [Ask; 10] = [
    Ask::Kinds(0),
    Ask::Links(0),
    Ask::Ends(0, None),
    Ask::Ends(u32::MAX, None),
    Ask::Count(0, 0),
    Ask::Count(u32::MAX, 0),
    Ask::Follow(0, 0, None),
    Ask::Follow(0, u32::MAX, None),
    Ask::Follow(u32::MAX, 0, None),
    Ask::Follow(u32::MAX, u32::MAX, None),
];

// A link from a kind of two records to a kind of one.
const PAIR: [u32; 7] = [
    0x80000002, 0x90000002, 0x90000001, 0xA0000001, 0xB0000000, 0xB0000000, 0x70000006,
];

const PAIR_HELD: [Ask; 21] = [
    Ask::Kinds(2),
    Ask::Links(1),
    Ask::Ends(0, Some((0, 1))),
    Ask::Ends(1, None),
    Ask::Ends(63, None),
    Ask::Ends(64, None),
    Ask::Ends(u32::MAX, None),
    Ask::Count(0, 2),
    Ask::Count(1, 1),
    Ask::Count(2, 0),
    Ask::Count(3, 0),
    Ask::Count(u32::MAX, 0),
    Ask::Follow(0, 0, Some(0)),
    Ask::Follow(0, 1, Some(0)),
    Ask::Follow(0, 2, None),
    Ask::Follow(0, 3, None),
    Ask::Follow(0, u32::MAX, None),
    Ask::Follow(1, 0, None),
    Ask::Follow(64, 0, None),
    Ask::Follow(u32::MAX, 0, None),
    Ask::Follow(u32::MAX, u32::MAX, None),
];

// Two kinds of 2 and 3 records, a link each way, and landings, which are no part of the answers.
const BOTH_WAYS_HELD: [Ask; 16] = [
    Ask::Kinds(2),
    Ask::Links(2),
    Ask::Ends(0, Some((0, 1))),
    Ask::Ends(1, Some((1, 0))),
    Ask::Ends(2, None),
    Ask::Count(0, 2),
    Ask::Count(1, 3),
    Ask::Count(2, 0),
    Ask::Follow(0, 0, Some(2)),
    Ask::Follow(0, 1, Some(0)),
    Ask::Follow(0, 2, None),
    Ask::Follow(1, 0, Some(1)),
    Ask::Follow(1, 1, Some(0)),
    Ask::Follow(1, 2, Some(1)),
    Ask::Follow(1, 3, None),
    Ask::Follow(2, 0, None),
];

// A wheel of 6 with the steps 2, 5.
const WHEEL: [Ask; 36] = [
    Ask::Kinds(1),
    Ask::Links(2),
    Ask::Ends(0, Some((0, 0))),
    Ask::Ends(1, Some((0, 0))),
    Ask::Ends(2, None),
    Ask::Ends(u32::MAX, None),
    Ask::Count(0, 6),
    Ask::Count(1, 0),
    Ask::Count(u32::MAX, 0),
    Ask::Follow(0, 0, Some(2)),
    Ask::Follow(0, 1, Some(3)),
    Ask::Follow(0, 2, Some(4)),
    Ask::Follow(0, 3, Some(5)),
    Ask::Follow(0, 4, Some(0)),
    Ask::Follow(0, 5, Some(1)),
    Ask::Follow(0, 6, None),
    Ask::Follow(1, 0, Some(5)),
    Ask::Follow(1, 1, Some(0)),
    Ask::Follow(1, 2, Some(1)),
    Ask::Follow(1, 3, Some(2)),
    Ask::Follow(1, 4, Some(3)),
    Ask::Follow(1, 5, Some(4)),
    Ask::Follow(1, 6, None),
    Ask::Follow(2, 0, None),
    Ask::Follow(2, 1, None),
    Ask::Follow(2, 2, None),
    Ask::Follow(2, 3, None),
    Ask::Follow(2, 4, None),
    Ask::Follow(2, 5, None),
    Ask::Follow(2, 6, None),
    Ask::Follow(0, u32::MAX, None),
    Ask::Follow(1, u32::MAX, None),
    Ask::Follow(1, u32::MAX - 4, None),
    Ask::Follow(8, 0, None),
    Ask::Follow(u32::MAX, 0, None),
    Ask::Follow(u32::MAX, u32::MAX, None),
];

// A wheel of 0 with the step 1.
const WHEEL_OF_NONE: [Ask; 7] = [
    Ask::Kinds(1),
    Ask::Links(1),
    Ask::Ends(0, Some((0, 0))),
    Ask::Ends(1, None),
    Ask::Count(0, 0),
    Ask::Follow(0, 0, None),
    Ask::Follow(0, u32::MAX, None),
];

// The steps 1 to 6, 65535, 8, 9 on a wheel of 6: the ninth is not used.
const WHEEL_OF_STEPS: [Ask; 12] = [
    Ask::Links(8),
    Ask::Ends(7, Some((0, 0))),
    Ask::Ends(8, None),
    Ask::Follow(0, 5, Some(0)),
    Ask::Follow(1, 0, Some(2)),
    Ask::Follow(5, 4, Some(4)),
    Ask::Follow(6, 0, Some(3)),
    Ask::Follow(6, 5, Some(2)),
    Ask::Follow(7, 0, Some(2)),
    Ask::Follow(7, 5, Some(1)),
    Ask::Follow(7, 6, None),
    Ask::Follow(8, 0, None),
];

// The largest wheel, with the steps 65535, 1, 65534.
const LARGEST_WHEEL: [Ask; 8] = [
    Ask::Count(0, 65535),
    Ask::Follow(0, 0, Some(0)),
    Ask::Follow(0, 65534, Some(65534)),
    Ask::Follow(0, 65535, None),
    Ask::Follow(1, 65534, Some(0)),
    Ask::Follow(2, 0, Some(65534)),
    Ask::Follow(2, 65534, Some(65533)),
    Ask::Follow(2, 65536, None),
];

// Four records, the first of them a blank.
pub const FOUR: [u32; 8] = [
    0x80000001, 0x90000004, 0xA0000000, 0xB0000000, 0xB0000002, 0xB0000003, 0xB0000002, 0x70000007,
];

// The layer over it.
pub const FOUR_BLANK: [Ask; 15] = [
    Ask::Kinds(1),
    Ask::Links(1),
    Ask::Ends(0, Some((0, 0))),
    Ask::Ends(1, None),
    Ask::Count(0, 3),
    Ask::Count(1, 0),
    Ask::Follow(0, 0, Some(1)),
    Ask::Follow(0, 1, Some(2)),
    Ask::Follow(0, 2, Some(1)),
    Ask::Follow(0, 3, None),
    Ask::Follow(0, 4, None),
    Ask::Follow(0, u32::MAX - 1, None),
    Ask::Follow(0, u32::MAX, None),
    Ask::Follow(1, 0, None),
    Ask::Follow(u32::MAX, u32::MAX, None),
];

// The layer over that layer.
pub const FOUR_BLANK_BLANK: [Ask; 9] = [
    Ask::Kinds(1),
    Ask::Links(1),
    Ask::Count(0, 2),
    Ask::Follow(0, 0, Some(1)),
    Ask::Follow(0, 1, Some(0)),
    Ask::Follow(0, 2, None),
    Ask::Follow(0, u32::MAX - 1, None),
    Ask::Follow(0, u32::MAX, None),
    Ask::Follow(1, 0, None),
];

// Four layers over it, or over a wheel of 3: nothing is left, and a count of 0 stays 0.
pub const FOUR_GONE: [Ask; 6] = [
    Ask::Kinds(1),
    Ask::Links(1),
    Ask::Ends(0, Some((0, 0))),
    Ask::Count(0, 0),
    Ask::Follow(0, 0, None),
    Ask::Follow(0, u32::MAX, None),
];

// The layer over a wheel of 3 with the step 1.
pub const WHEEL_BLANK: [Ask; 10] = [
    Ask::Kinds(1),
    Ask::Links(1),
    Ask::Ends(0, Some((0, 0))),
    Ask::Ends(1, None),
    Ask::Count(0, 2),
    Ask::Count(1, 0),
    Ask::Follow(0, 0, Some(1)),
    Ask::Follow(0, 1, None),
    Ask::Follow(0, 2, None),
    Ask::Follow(0, u32::MAX, None),
];

// The layer over that layer.
pub const WHEEL_BLANK_BLANK: [Ask; 6] = [
    Ask::Kinds(1),
    Ask::Links(1),
    Ask::Count(0, 1),
    Ask::Follow(0, 0, None),
    Ask::Follow(0, 1, None),
    Ask::Follow(0, u32::MAX, None),
];

// A file that a held register is given, whether it takes it or for which fault not, and the answers then.
#[derive(Clone, Copy)]
pub struct Take(
    pub &'static [u32],
    pub Result<(), Fault>,
    pub &'static [Ask],
);

// One after another, to one held register that took nothing before.
pub const TAKES: [Take; 8] = [
    Take(
        &[],
        Err(Fault {
            refusal: Refusal::Missing,
            place: 0,
        }),
        &NOTHING,
    ),
    Take(&PAIR, Ok(()), &PAIR_HELD),
    Take(
        &[0x80000021],
        Err(Fault {
            refusal: Refusal::Limit,
            place: 0,
        }),
        &PAIR_HELD,
    ),
    Take(
        &[0x80000001, 0x90000009, 0x70000003],
        Err(Fault {
            refusal: Refusal::Wrong,
            place: 2,
        }),
        &PAIR_HELD,
    ),
    Take(
        &[0x80000000, 0xA0000000, 0x70000002],
        Err(Fault {
            refusal: Refusal::Unknown,
            place: 1,
        }),
        &PAIR_HELD,
    ),
    Take(&WHOLE, Ok(()), &BOTH_WAYS_HELD),
    Take(
        &[0x80000001, 0x90000009],
        Err(Fault {
            refusal: Refusal::Missing,
            place: 2,
        }),
        &BOTH_WAYS_HELD,
    ),
    Take(&[0x80000000, 0x70000001], Ok(()), &NOTHING),
];

// A wheel's size, its steps, and its answers.
#[derive(Clone, Copy)]
pub struct Turns(pub u16, pub &'static [u16], pub &'static [Ask]);

pub const WHEELS: [Turns; 5] = [
    Turns(6, &[2, 5], &WHEEL),
    Turns(0, &[1], &WHEEL_OF_NONE),
    Turns(6, &[1, 2, 3, 4, 5, 6, 65535, 8, 9], &WHEEL_OF_STEPS),
    Turns(6, &[1, 2, 3, 4, 5, 6, 65535, 8], &WHEEL_OF_STEPS),
    Turns(65535, &[65535, 1, 65534], &LARGEST_WHEEL),
];
