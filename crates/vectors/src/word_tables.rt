// Refusals as numbers and words, and words as tokens.
use words::faults::Refusal;

// A refusal, its number and layer, which docs/FORMAT.md gives, and the word of a fault at place 7.
#[derive(Clone, Copy)]
pub struct Numbered(pub Refusal, pub u32, pub u32, pub u32);

pub const REFUSALS: [Numbered; 16] = [
    Numbered(Refusal::State, 1, 4, 0xF4010007),
    Numbered(Refusal::Missing, 2, 1, 0xF1020007),
    Numbered(Refusal::Wrong, 3, 1, 0xF1030007),
    Numbered(Refusal::Limit, 4, 1, 0xF1040007),
    Numbered(Refusal::Unknown, 5, 2, 0xF2050007),
    Numbered(Refusal::Unjoined, 6, 2, 0xF2060007),
    Numbered(Refusal::Shape, 7, 3, 0xF3070007),
    Numbered(Refusal::Large, 8, 3, 0xF3080007),
    Numbered(Refusal::Leads, 9, 3, 0xF3090007),
    Numbered(Refusal::Waiting, 10, 4, 0xF40A0007),
    Numbered(Refusal::NotLiving, 11, 4, 0xF40B0007),
    Numbered(Refusal::Filled, 12, 4, 0xF40C0007),
    Numbered(Refusal::Full, 13, 4, 0xF40D0007),
    Numbered(Refusal::NoneWaits, 14, 4, 0xF40E0007),
    Numbered(Refusal::Incomplete, 15, 4, 0xF40F0007),
    Numbered(Refusal::Memory, 16, 4, 0xF4100007),
];

// A place, and how a fault word shows it.
#[derive(Clone, Copy)]
pub struct Placed(pub usize, pub u32);

pub const PLACES: [Placed; 6] = [
    Placed(0, 0xF2050000),
    Placed(65534, 0xF205FFFE),
    Placed(65535, 0xF205FFFF),
    Placed(65536, 0xF205FFFF),
    Placed(4325409, 0xF205FFFF),
    Placed(usize::MAX, 0xF205FFFF),
];

// Words, a place in them, and the tag and fields of the token there; of a path, the number of its steps.
// The tag stays a number, since docs/FORMAT.md gives it as one.
#[derive(Clone, Copy)]
pub struct Shown(pub &'static [u32], pub usize, pub [usize; 4]);

pub const TOKENS: [Shown; 19] = [
    Shown(&[0x1000FFFE], 0, [1, 255, 254, 0]),
    Shown(&[0x2000FEFF], 0, [2, 254, 255, 0]),
    Shown(&[0x30FF0000], 0, [3, 255, 0, 0]),
    Shown(
        &[0x30070201, 0x40000000, 0x40000000, 0x40000000],
        0,
        [3, 7, 2, 1],
    ),
    Shown(&[0x30070003, 0, 0, 0, 0], 0, [3, 7, 0, 3]),
    Shown(&[0x400000FF], 0, [4, 255, 0, 0]),
    Shown(&[0x40000000, 0x40000001], 1, [4, 1, 0, 0]),
    Shown(&[0x5000FEFF], 0, [5, 254, 255, 0]),
    Shown(&[0x6000FF00], 0, [6, 255, 0, 0]),
    Shown(&[0x60000302, 0x40000000, 0x40000000], 0, [6, 3, 2, 0]),
    Shown(&[0x7FFFFFFF], 0, [7, 268435455, 0, 0]),
    Shown(&[0x70000000], 0, [7, 0, 0, 0]),
    Shown(&[0x800000FF], 0, [8, 255, 0, 0]),
    Shown(&[0x9000FFFF], 0, [9, 65535, 0, 0]),
    Shown(&[0xA000FEFF], 0, [10, 254, 255, 0]),
    Shown(&[0xB000FFFF], 0, [11, 65535, 0, 0]),
    Shown(&[0xCFFFFEFD], 0, [12, 4095, 254, 253]),
    Shown(&[0xF2050003], 0, [15, 2, 5, 3]),
    Shown(&[0xFFFFFFFF], 0, [15, 15, 255, 65535]),
];

// Words, a place in them, and why no token stands there.
#[derive(Clone, Copy)]
pub struct Unshown(pub &'static [u32], pub usize, pub Refusal, pub usize);

pub const NO_TOKENS: [Unshown; 19] = [
    Unshown(&[], 0, Refusal::Missing, 0),
    Unshown(&[0x40000000], 1, Refusal::Missing, 1),
    Unshown(&[0x40000000], usize::MAX, Refusal::Missing, usize::MAX),
    Unshown(&[0x00000000], 0, Refusal::Wrong, 0),
    Unshown(&[0xD0000000], 0, Refusal::Wrong, 0),
    Unshown(&[0x40000000, 0xE0000000], 1, Refusal::Wrong, 1),
    Unshown(&[0x10010000], 0, Refusal::Wrong, 0),
    Unshown(&[0x28000000], 0, Refusal::Wrong, 0),
    Unshown(&[0x31000000], 0, Refusal::Wrong, 0),
    Unshown(&[0x40000100], 0, Refusal::Wrong, 0),
    Unshown(&[0x58000000], 0, Refusal::Wrong, 0),
    Unshown(&[0x60010000], 0, Refusal::Wrong, 0),
    Unshown(&[0x80000100], 0, Refusal::Wrong, 0),
    Unshown(&[0x90010000], 0, Refusal::Wrong, 0),
    Unshown(&[0xA8000000], 0, Refusal::Wrong, 0),
    Unshown(&[0xB0010000], 0, Refusal::Wrong, 0),
    // a step too few
    Unshown(
        &[0x30000201, 0x40000000, 0x40000000],
        0,
        Refusal::Missing,
        3,
    ),
    Unshown(&[0x3000FFFF], 0, Refusal::Missing, 1),
    Unshown(
        &[0x40000000, 0x60000002, 0x40000000],
        1,
        Refusal::Missing,
        3,
    ),
];
