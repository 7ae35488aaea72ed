// Problem files that are taken and refused.
use crate::files::{Edit, Refused, Run, RunsRefused, Taken, Worded};
use words::faults::Refusal;

// One target link g with the rule ggg = g.
pub const GGG: [u32; 10] = [
    0x10000001, 0x10000101, 0x20000000, 0x30000301, 0x40000000, 0x40000000, 0x40000000, 0x40000000,
    0x50000000, 0x70000009,
];

// The refused edits of that problem in docs/FORMAT.md.
pub const FORMAT_EDITS: [Edit; 15] = [
    Edit(0, 0x10000101, Refusal::Wrong, 0),
    Edit(0, 0x10000000, Refusal::Limit, 0),
    Edit(0, 0x10000021, Refusal::Limit, 0),
    Edit(0, 0x10000121, Refusal::Wrong, 0),
    Edit(2, 0x20010000, Refusal::Wrong, 2),
    Edit(2, 0x20000001, Refusal::Unknown, 2),
    Edit(3, 0x30000341, Refusal::Limit, 3),
    Edit(3, 0x30010341, Refusal::Limit, 3),
    Edit(3, 0x30010301, Refusal::Unknown, 3),
    Edit(3, 0x30000302, Refusal::Wrong, 8),
    Edit(4, 0x40000001, Refusal::Unknown, 4),
    Edit(8, 0x50000100, Refusal::Unknown, 8),
    Edit(8, 0x50000001, Refusal::Unknown, 8),
    Edit(9, 0x70000008, Refusal::Wrong, 9),
    Edit(10, 0x00000000, Refusal::Wrong, 10),
];

// The other refused problems of docs/FORMAT.md, and some of the edits as whole files, with their fault words.
pub const FORMAT: [Worded; 9] = [
    Worded(&[], Refusal::Missing, 0, 0xF1020000),
    Worded(
        &[
            0x10000001, 0x10000101, 0x20000000, 0x30000301, 0x40000000, 0x40000000, 0x40000000,
            0x40000000, 0x70000008,
        ],
        Refusal::Wrong,
        8,
        0xF1030008,
    ),
    Worded(
        &[
            0x10000001, 0x10000101, 0x20000000, 0x30000301, 0x40000000, 0x40000000, 0x40000000,
            0x40000000, 0x50000000,
        ],
        Refusal::Missing,
        9,
        0xF1020009,
    ),
    Worded(
        &[
            0x10000001, 0x10000102, 0x20000001, 0x30000200, 0x40000000, 0x40000000, 0x50000000,
            0x70000007,
        ],
        Refusal::Unjoined,
        5,
        0xF2060005,
    ),
    Worded(
        &[
            0x10000001, 0x10000102, 0x20000001, 0x30000100, 0x40000000, 0x50000000, 0x70000006,
        ],
        Refusal::Unjoined,
        4,
        0xF2060004,
    ),
    Worded(
        &[
            0x10000002, 0x20000001, 0x10000102, 0x50000000, 0x50000101, 0x60000000, 0x70000006,
        ],
        Refusal::Unjoined,
        5,
        0xF2060005,
    ),
    Worded(&[0x10000021], Refusal::Limit, 0, 0xF1040000),
    Worded(
        &[0x10000001, 0x10000101, 0x20000001],
        Refusal::Unknown,
        2,
        0xF2050002,
    ),
    Worded(
        &[0x10000001, 0x10000101, 0x50000000, 0x70000003, 0x00000000],
        Refusal::Wrong,
        4,
        0xF1030004,
    ),
];

// Two source kinds with a link each way; two target kinds with the links a (0 to 1) and b (1 to 0);
// the rules abab = ab at kind 0, the empty path = ba at kind 1, and empty = empty at kind 0;
// the kinds are exchanged, source link 0 is mapped to b and source link 1 to aba.
pub const WHOLE: [u32; 26] = [
    0x10000002, 0x20000001, 0x20000100, 0x10000102, 0x20000001, 0x20000100, 0x30000402, 0x40000000,
    0x40000001, 0x40000000, 0x40000001, 0x40000000, 0x40000001, 0x30010002, 0x40000001, 0x40000000,
    0x30000000, 0x50000001, 0x50000100, 0x60000001, 0x40000001, 0x60000103, 0x40000000, 0x40000001,
    0x40000000, 0x70000019,
];

// Edits of that file, by what they change.
pub const SCHEMA_EDITS: [Edit; 26] = [
    Edit(0, 0x10000102, Refusal::Wrong, 0),
    Edit(0, 0x1000FF02, Refusal::Wrong, 0),
    Edit(0, 0x10000100, Refusal::Wrong, 0),
    Edit(0, 0x10000000, Refusal::Limit, 0),
    Edit(0, 0x10000021, Refusal::Limit, 0),
    Edit(0, 0x100000FF, Refusal::Limit, 0),
    // one source kind: the first link has an unknown one
    Edit(0, 0x10000001, Refusal::Unknown, 1),
    // three source kinds: a link map stands where the third kind map must
    Edit(0, 0x10000003, Refusal::Wrong, 19),
    Edit(1, 0x20000201, Refusal::Unknown, 1),
    Edit(1, 0x20000002, Refusal::Unknown, 1),
    Edit(1, 0x2000FFFF, Refusal::Unknown, 1),
    Edit(2, 0x20000200, Refusal::Unknown, 2),
    Edit(2, 0x20000102, Refusal::Unknown, 2),
    Edit(2, 0x20010200, Refusal::Wrong, 2),
    Edit(3, 0x10000002, Refusal::Wrong, 3),
    Edit(3, 0x10000202, Refusal::Wrong, 3),
    Edit(3, 0x10000021, Refusal::Wrong, 3),
    Edit(3, 0x10000100, Refusal::Limit, 3),
    Edit(3, 0x10000121, Refusal::Limit, 3),
    Edit(3, 0x100001FF, Refusal::Limit, 3),
    Edit(3, 0x10000101, Refusal::Unknown, 4),
    Edit(4, 0x20000201, Refusal::Unknown, 4),
    Edit(4, 0x20000002, Refusal::Unknown, 4),
    Edit(5, 0x20000200, Refusal::Unknown, 5),
    Edit(5, 0x20000102, Refusal::Unknown, 5),
    // link 1 leaves kind 0, so that the second step does not join
    Edit(5, 0x20000000, Refusal::Unjoined, 8),
];

pub const RULE_EDITS: [Edit; 33] = [
    Edit(6, 0x30004102, Refusal::Limit, 6),
    Edit(6, 0x30000441, Refusal::Limit, 6),
    Edit(6, 0x3000FFFF, Refusal::Limit, 6),
    Edit(6, 0x30024102, Refusal::Limit, 6),
    Edit(6, 0x31004102, Refusal::Wrong, 6),
    Edit(6, 0x30020402, Refusal::Unknown, 6),
    Edit(6, 0x30FF0402, Refusal::Unknown, 6),
    // the other first kind: the first step does not leave it
    Edit(6, 0x30010402, Refusal::Unjoined, 7),
    // left longer, right shorter: the right side begins at a b
    Edit(6, 0x30000501, Refusal::Unjoined, 12),
    Edit(6, 0x30000303, Refusal::Unjoined, 10),
    // wrong ends: only left steps, only right steps
    Edit(6, 0x30000300, Refusal::Unjoined, 9),
    Edit(6, 0x30000100, Refusal::Unjoined, 7),
    Edit(6, 0x30000005, Refusal::Unjoined, 11),
    Edit(6, 0x30000001, Refusal::Unjoined, 7),
    Edit(13, 0x30010001, Refusal::Unjoined, 14),
    Edit(13, 0x30010100, Refusal::Unjoined, 14),
    // wrong ends: both sides have steps
    Edit(6, 0x30000401, Refusal::Unjoined, 11),
    // both sides end alike, but a step is left over
    Edit(6, 0x30000400, Refusal::Wrong, 11),
    Edit(6, 0x30000004, Refusal::Wrong, 11),
    // a side longer than its steps
    Edit(6, 0x30000403, Refusal::Wrong, 13),
    Edit(16, 0x30000100, Refusal::Wrong, 17),
    Edit(16, 0x30000001, Refusal::Wrong, 17),
    Edit(16, 0x30020000, Refusal::Unknown, 16),
    // the first and the last step of each side
    Edit(7, 0x40000002, Refusal::Unknown, 7),
    Edit(7, 0x40000001, Refusal::Unjoined, 7),
    Edit(7, 0x40000102, Refusal::Wrong, 7),
    Edit(10, 0x400000FF, Refusal::Unknown, 10),
    Edit(10, 0x40000000, Refusal::Unjoined, 10),
    Edit(11, 0x40000002, Refusal::Unknown, 11),
    Edit(11, 0x40000001, Refusal::Unjoined, 11),
    Edit(12, 0x40000002, Refusal::Unknown, 12),
    Edit(12, 0x40000000, Refusal::Unjoined, 12),
    Edit(15, 0x40000001, Refusal::Unjoined, 15),
];

pub const MAP_EDITS: [Edit; 37] = [
    // kind maps out of order, and to unknown kinds
    Edit(17, 0x50000101, Refusal::Unknown, 17),
    Edit(17, 0x5000FF01, Refusal::Unknown, 17),
    Edit(17, 0x50000002, Refusal::Unknown, 17),
    Edit(17, 0x500000FF, Refusal::Unknown, 17),
    Edit(18, 0x50000000, Refusal::Unknown, 18),
    Edit(18, 0x50000200, Refusal::Unknown, 18),
    Edit(18, 0x50000102, Refusal::Unknown, 18),
    // other target kinds: a path of a link map begins or ends elsewhere
    Edit(17, 0x50000000, Refusal::Unjoined, 20),
    Edit(18, 0x50000101, Refusal::Unjoined, 20),
    // link maps out of order
    Edit(19, 0x60000101, Refusal::Unknown, 19),
    Edit(19, 0x6000FF01, Refusal::Unknown, 19),
    Edit(21, 0x60000003, Refusal::Unknown, 21),
    Edit(21, 0x60000203, Refusal::Unknown, 21),
    // too long
    Edit(19, 0x60000041, Refusal::Limit, 19),
    Edit(19, 0x60000141, Refusal::Limit, 19),
    Edit(19, 0x600000FF, Refusal::Limit, 19),
    Edit(19, 0x60010141, Refusal::Wrong, 19),
    Edit(21, 0x60000141, Refusal::Limit, 21),
    // shorter: a wrong end, at the last step that is left or at the link map itself
    Edit(19, 0x60000000, Refusal::Unjoined, 19),
    Edit(21, 0x60000100, Refusal::Unjoined, 21),
    Edit(21, 0x60000102, Refusal::Unjoined, 23),
    Edit(21, 0x60000101, Refusal::Wrong, 23),
    // longer than its steps
    Edit(19, 0x60000002, Refusal::Wrong, 21),
    Edit(21, 0x60000104, Refusal::Wrong, 25),
    // the first and the last step
    Edit(20, 0x40000002, Refusal::Unknown, 20),
    Edit(20, 0x40000000, Refusal::Unjoined, 20),
    Edit(22, 0x40000002, Refusal::Unknown, 22),
    Edit(22, 0x40000001, Refusal::Unjoined, 22),
    Edit(24, 0x40000002, Refusal::Unknown, 24),
    Edit(24, 0x40000001, Refusal::Unjoined, 24),
    // the end
    Edit(25, 0x60000200, Refusal::Wrong, 25),
    Edit(25, 0x70000018, Refusal::Wrong, 25),
    Edit(25, 0x7000001A, Refusal::Wrong, 25),
    Edit(25, 0x70000000, Refusal::Wrong, 25),
    Edit(25, 0x7FFFFFFF, Refusal::Wrong, 25),
    Edit(26, 0x7000001A, Refusal::Wrong, 26),
    Edit(26, 0x60000200, Refusal::Wrong, 26),
];

pub const REFUSED: [Refused; 13] = [
    // the first word at fault decides, whatever stands behind it
    Refused(&[0x10000000], Refusal::Limit, 0),
    Refused(&[0x10000001, 0x20000001, 0x00000000], Refusal::Unknown, 1),
    Refused(&[0x10000001, 0x10000101, 0x30010000], Refusal::Unknown, 2),
    Refused(
        &[0x10000001, 0x10000101, 0x30000100, 0x40000000],
        Refusal::Unknown,
        3,
    ),
    Refused(
        &[0x10000001, 0x10000101, 0x20000000, 0x30000002, 0x40000000],
        Refusal::Missing,
        5,
    ),
    // no target schema, and a second source schema
    Refused(&[0x10000001, 0x50000000, 0x70000002], Refusal::Wrong, 1),
    Refused(
        &[0x10000001, 0x10000001, 0x50000000, 0x70000003],
        Refusal::Wrong,
        1,
    ),
    // both sides have one step, to different kinds: the last step of the rule
    Refused(
        &[
            0x10000001, 0x10000102, 0x20000001, 0x20000000, 0x30000101, 0x40000000, 0x40000001,
            0x50000000, 0x70000008,
        ],
        Refusal::Unjoined,
        6,
    ),
    Refused(
        &[
            0x10000001, 0x10000102, 0x20000001, 0x20000000, 0x30000101, 0x40000001, 0x40000000,
            0x50000000, 0x70000008,
        ],
        Refusal::Unjoined,
        6,
    ),
    // a kind map or a link map too many
    Refused(
        &[0x10000001, 0x10000101, 0x50000000, 0x50000100, 0x70000004],
        Refusal::Wrong,
        3,
    ),
    Refused(
        &[0x10000001, 0x10000101, 0x50000000, 0x60000000, 0x70000004],
        Refusal::Wrong,
        3,
    ),
    // a rule behind a kind map; words of a register file
    Refused(
        &[0x10000001, 0x10000101, 0x50000000, 0x30000000, 0x70000004],
        Refusal::Wrong,
        3,
    ),
    Refused(&[0x80000000, 0x70000001], Refusal::Wrong, 0),
];

pub const LIMITS: [RunsRefused; 36] = [
    // source kinds: 33; 32 with 31 kind maps and with 33; the last one misordered
    RunsRefused(
        &[
            Run(0x10000021, 0, 1),
            Run(0x10000101, 0, 1),
            Run(0x50000000, 0x100, 33),
            Run(0x70000023, 0, 1),
        ],
        Refusal::Limit,
        0,
    ),
    RunsRefused(
        &[
            Run(0x10000020, 0, 1),
            Run(0x10000101, 0, 1),
            Run(0x50000000, 0x100, 31),
            Run(0x70000021, 0, 1),
        ],
        Refusal::Wrong,
        33,
    ),
    RunsRefused(
        &[
            Run(0x10000020, 0, 1),
            Run(0x10000101, 0, 1),
            Run(0x50000000, 0x100, 33),
            Run(0x70000023, 0, 1),
        ],
        Refusal::Wrong,
        34,
    ),
    RunsRefused(
        &[
            Run(0x10000020, 0, 1),
            Run(0x10000101, 0, 1),
            Run(0x50000000, 0x100, 31),
            Run(0x50001E00, 0, 1),
        ],
        Refusal::Unknown,
        33,
    ),
    RunsRefused(
        &[
            Run(0x10000020, 0, 1),
            Run(0x10000101, 0, 1),
            Run(0x50000100, 0x100, 32),
            Run(0x70000022, 0, 1),
        ],
        Refusal::Unknown,
        2,
    ),
    // target kinds: 33; kind 32 of 32 in a link, a rule and a kind map
    RunsRefused(
        &[
            Run(0x10000001, 0, 1),
            Run(0x10000121, 0, 1),
            Run(0x50000000, 0, 1),
            Run(0x70000003, 0, 1),
        ],
        Refusal::Limit,
        1,
    ),
    RunsRefused(
        &[
            Run(0x10000001, 0, 1),
            Run(0x10000120, 0, 1),
            Run(0x20002000, 0, 1),
        ],
        Refusal::Unknown,
        2,
    ),
    RunsRefused(
        &[
            Run(0x10000001, 0, 1),
            Run(0x10000120, 0, 1),
            Run(0x20000020, 0, 1),
        ],
        Refusal::Unknown,
        2,
    ),
    RunsRefused(
        &[
            Run(0x10000001, 0, 1),
            Run(0x10000120, 0, 1),
            Run(0x30200000, 0, 1),
        ],
        Refusal::Unknown,
        2,
    ),
    RunsRefused(
        &[
            Run(0x10000001, 0, 1),
            Run(0x10000120, 0, 1),
            Run(0x50000020, 0, 1),
        ],
        Refusal::Unknown,
        2,
    ),
    // source links: the last at fault, one more, one more that is at fault too
    RunsRefused(
        &[
            Run(0x10000001, 0, 1),
            Run(0x20000000, 0, 63),
            Run(0x20000001, 0, 1),
        ],
        Refusal::Unknown,
        64,
    ),
    RunsRefused(
        &[
            Run(0x10000001, 0, 1),
            Run(0x20000000, 0, 65),
            Run(0x10000101, 0, 1),
        ],
        Refusal::Limit,
        65,
    ),
    RunsRefused(
        &[
            Run(0x10000001, 0, 1),
            Run(0x20000000, 0, 64),
            Run(0x20000101, 0, 1),
        ],
        Refusal::Limit,
        65,
    ),
    RunsRefused(
        &[
            Run(0x10000001, 0, 1),
            Run(0x20000000, 0, 64),
            Run(0x20010000, 0, 1),
        ],
        Refusal::Wrong,
        65,
    ),
    // target links likewise; link 64 of 64 in a rule
    RunsRefused(
        &[
            Run(0x10000001, 0, 1),
            Run(0x10000101, 0, 1),
            Run(0x20000000, 0, 63),
            Run(0x20000100, 0, 1),
        ],
        Refusal::Unknown,
        65,
    ),
    RunsRefused(
        &[
            Run(0x10000001, 0, 1),
            Run(0x10000101, 0, 1),
            Run(0x20000000, 0, 65),
            Run(0x50000000, 0, 1),
        ],
        Refusal::Limit,
        66,
    ),
    RunsRefused(
        &[
            Run(0x10000001, 0, 1),
            Run(0x10000101, 0, 1),
            Run(0x20000000, 0, 64),
            Run(0x20000101, 0, 1),
        ],
        Refusal::Limit,
        66,
    ),
    RunsRefused(
        &[
            Run(0x10000001, 0, 1),
            Run(0x10000101, 0, 1),
            Run(0x20000000, 0, 64),
            Run(0x20010000, 0, 1),
        ],
        Refusal::Wrong,
        66,
    ),
    RunsRefused(
        &[
            Run(0x10000001, 0, 1),
            Run(0x10000101, 0, 1),
            Run(0x20000000, 0, 64),
            Run(0x30000100, 0, 1),
            Run(0x40000040, 0, 1),
        ],
        Refusal::Unknown,
        67,
    ),
    // rules: the last at fault, one more, one more that is at fault too
    RunsRefused(
        &[
            Run(0x10000001, 0, 1),
            Run(0x10000101, 0, 1),
            Run(0x30000000, 0, 127),
            Run(0x30010000, 0, 1),
        ],
        Refusal::Unknown,
        129,
    ),
    RunsRefused(
        &[
            Run(0x10000001, 0, 1),
            Run(0x10000101, 0, 1),
            Run(0x30000000, 0, 129),
            Run(0x50000000, 0, 1),
        ],
        Refusal::Limit,
        130,
    ),
    RunsRefused(
        &[
            Run(0x10000001, 0, 1),
            Run(0x10000101, 0, 1),
            Run(0x30000000, 0, 128),
            Run(0x30010000, 0, 1),
        ],
        Refusal::Limit,
        130,
    ),
    RunsRefused(
        &[
            Run(0x10000001, 0, 1),
            Run(0x10000101, 0, 1),
            Run(0x30000000, 0, 128),
            Run(0x31000000, 0, 1),
        ],
        Refusal::Wrong,
        130,
    ),
    // paths: 65 left steps, 65 right steps, 65 steps of a link map
    RunsRefused(
        &[
            Run(0x10000001, 0, 1),
            Run(0x10000101, 0, 1),
            Run(0x20000000, 0, 1),
            Run(0x30004100, 0, 1),
            Run(0x40000000, 0, 65),
        ],
        Refusal::Limit,
        3,
    ),
    RunsRefused(
        &[
            Run(0x10000001, 0, 1),
            Run(0x10000101, 0, 1),
            Run(0x20000000, 0, 1),
            Run(0x30000041, 0, 1),
            Run(0x40000000, 0, 65),
        ],
        Refusal::Limit,
        3,
    ),
    RunsRefused(
        &[
            Run(0x10000001, 0, 1),
            Run(0x20000000, 0, 1),
            Run(0x10000101, 0, 1),
            Run(0x20000000, 0, 1),
            Run(0x50000000, 0, 1),
            Run(0x60000041, 0, 1),
            Run(0x40000000, 0, 65),
        ],
        Refusal::Limit,
        5,
    ),
    // the last of 64 steps: missing, of another tag, unknown, and not joined
    RunsRefused(
        &[
            Run(0x10000001, 0, 1),
            Run(0x10000101, 0, 1),
            Run(0x20000000, 0, 1),
            Run(0x30004000, 0, 1),
            Run(0x40000000, 0, 63),
        ],
        Refusal::Missing,
        67,
    ),
    RunsRefused(
        &[
            Run(0x10000001, 0, 1),
            Run(0x10000101, 0, 1),
            Run(0x20000000, 0, 1),
            Run(0x30000040, 0, 1),
            Run(0x40000000, 0, 63),
            Run(0x50000000, 0, 1),
        ],
        Refusal::Wrong,
        67,
    ),
    RunsRefused(
        &[
            Run(0x10000001, 0, 1),
            Run(0x10000101, 0, 1),
            Run(0x20000000, 0, 1),
            Run(0x30004040, 0, 1),
            Run(0x40000000, 0, 127),
            Run(0x40000001, 0, 1),
        ],
        Refusal::Unknown,
        131,
    ),
    RunsRefused(
        &[
            Run(0x10000001, 0, 1),
            Run(0x10000102, 0, 1),
            Run(0x20000000, 1, 2),
            Run(0x30004000, 0, 1),
            Run(0x40000000, 0, 62),
            Run(0x40000001, 0, 2),
        ],
        Refusal::Unjoined,
        68,
    ),
    // wrong ends at the last of 64 steps
    RunsRefused(
        &[
            Run(0x10000001, 0, 1),
            Run(0x10000102, 0, 1),
            Run(0x20000000, 1, 2),
            Run(0x30004000, 0, 1),
            Run(0x40000000, 0, 63),
            Run(0x40000001, 0, 1),
        ],
        Refusal::Unjoined,
        68,
    ),
    RunsRefused(
        &[
            Run(0x10000001, 0, 1),
            Run(0x10000102, 0, 1),
            Run(0x20000000, 1, 2),
            Run(0x30004040, 0, 1),
            Run(0x40000000, 0, 127),
            Run(0x40000001, 0, 1),
        ],
        Refusal::Unjoined,
        132,
    ),
    RunsRefused(
        &[
            Run(0x10000001, 0, 1),
            Run(0x20000000, 0, 1),
            Run(0x10000102, 0, 1),
            Run(0x20000000, 1, 2),
            Run(0x50000000, 0, 1),
            Run(0x60000040, 0, 1),
            Run(0x40000000, 0, 63),
            Run(0x40000001, 0, 1),
        ],
        Refusal::Unjoined,
        70,
    ),
    // link maps of 64 source links: 63, 65, and the last misordered
    RunsRefused(
        &[
            Run(0x10000001, 0, 1),
            Run(0x20000000, 0, 64),
            Run(0x10000101, 0, 1),
            Run(0x50000000, 0, 1),
            Run(0x60000000, 0x100, 63),
            Run(0x70000082, 0, 1),
        ],
        Refusal::Wrong,
        130,
    ),
    RunsRefused(
        &[
            Run(0x10000001, 0, 1),
            Run(0x20000000, 0, 64),
            Run(0x10000101, 0, 1),
            Run(0x50000000, 0, 1),
            Run(0x60000000, 0x100, 65),
            Run(0x70000084, 0, 1),
        ],
        Refusal::Wrong,
        131,
    ),
    RunsRefused(
        &[
            Run(0x10000001, 0, 1),
            Run(0x20000000, 0, 64),
            Run(0x10000101, 0, 1),
            Run(0x50000000, 0, 1),
            Run(0x60000000, 0x100, 63),
            Run(0x60003E00, 0, 1),
        ],
        Refusal::Unknown,
        130,
    ),
];

// A file that is taken; of its source and of its target the kinds, the links and the place of the first link;
// its rules, and the place of the kind maps.
pub const TAKEN: [Taken<[usize; 8]>; 13] = [
    Taken(
        &[
            Run(0x10000001, 0, 1),
            Run(0x10000101, 0, 1),
            Run(0x50000000, 0, 1),
            Run(0x70000003, 0, 1),
        ],
        [1, 0, 1, 1, 0, 2, 0, 2],
    ),
    Taken(
        &[
            Run(0x10000001, 0, 1),
            Run(0x10000101, 0, 1),
            Run(0x20000000, 0, 1),
            Run(0x30000301, 0, 1),
            Run(0x40000000, 0, 4),
            Run(0x50000000, 0, 1),
            Run(0x70000009, 0, 1),
        ],
        [1, 0, 1, 1, 1, 2, 1, 8],
    ),
    Taken(
        &[
            Run(0x10000002, 0, 1),
            Run(0x20000001, 0, 1),
            Run(0x10000101, 0, 1),
            Run(0x50000000, 0x100, 2),
            Run(0x60000000, 0, 1),
            Run(0x70000006, 0, 1),
        ],
        [2, 1, 1, 1, 0, 3, 0, 3],
    ),
    // the most kinds
    Taken(
        &[
            Run(0x10000020, 0, 1),
            Run(0x10000101, 0, 1),
            Run(0x50000000, 0x100, 32),
            Run(0x70000022, 0, 1),
        ],
        [32, 0, 1, 1, 0, 2, 0, 2],
    ),
    Taken(
        &[
            Run(0x10000001, 0, 1),
            Run(0x10000120, 0, 1),
            Run(0x20001F1F, 0, 1),
            Run(0x301F0000, 0, 1),
            Run(0x5000001F, 0, 1),
            Run(0x70000005, 0, 1),
        ],
        [1, 0, 1, 32, 1, 2, 1, 4],
    ),
    Taken(
        &[
            Run(0x10000020, 0, 1),
            Run(0x10000120, 0, 1),
            Run(0x50000000, 0x101, 32),
            Run(0x70000022, 0, 1),
        ],
        [32, 0, 1, 32, 0, 2, 0, 2],
    ),
    // the most links
    Taken(
        &[
            Run(0x10000001, 0, 1),
            Run(0x20000000, 0, 64),
            Run(0x10000101, 0, 1),
            Run(0x50000000, 0, 1),
            Run(0x60000000, 0x100, 64),
            Run(0x70000083, 0, 1),
        ],
        [1, 64, 1, 1, 0, 66, 0, 66],
    ),
    Taken(
        &[
            Run(0x10000001, 0, 1),
            Run(0x10000101, 0, 1),
            Run(0x20000000, 0, 64),
            Run(0x30000100, 0, 1),
            Run(0x4000003F, 0, 1),
            Run(0x50000000, 0, 1),
            Run(0x70000045, 0, 1),
        ],
        [1, 0, 1, 1, 64, 2, 1, 68],
    ),
    // the most rules
    Taken(
        &[
            Run(0x10000001, 0, 1),
            Run(0x10000101, 0, 1),
            Run(0x30000000, 0, 128),
            Run(0x50000000, 0, 1),
            Run(0x70000083, 0, 1),
        ],
        [1, 0, 1, 1, 0, 2, 128, 130],
    ),
    // the longest paths: left, right, both, and of a link map
    Taken(
        &[
            Run(0x10000001, 0, 1),
            Run(0x10000101, 0, 1),
            Run(0x20000000, 0, 1),
            Run(0x30004000, 0, 1),
            Run(0x40000000, 0, 64),
            Run(0x50000000, 0, 1),
            Run(0x70000045, 0, 1),
        ],
        [1, 0, 1, 1, 1, 2, 1, 68],
    ),
    Taken(
        &[
            Run(0x10000001, 0, 1),
            Run(0x10000101, 0, 1),
            Run(0x20000000, 0, 1),
            Run(0x30000040, 0, 1),
            Run(0x40000000, 0, 64),
            Run(0x50000000, 0, 1),
            Run(0x70000045, 0, 1),
        ],
        [1, 0, 1, 1, 1, 2, 1, 68],
    ),
    Taken(
        &[
            Run(0x10000001, 0, 1),
            Run(0x10000101, 0, 1),
            Run(0x20000000, 0, 1),
            Run(0x30004040, 0, 1),
            Run(0x40000000, 0, 128),
            Run(0x50000000, 0, 1),
            Run(0x70000085, 0, 1),
        ],
        [1, 0, 1, 1, 1, 2, 1, 132],
    ),
    Taken(
        &[
            Run(0x10000001, 0, 1),
            Run(0x20000000, 0, 1),
            Run(0x10000101, 0, 1),
            Run(0x20000000, 0, 1),
            Run(0x50000000, 0, 1),
            Run(0x60000040, 0, 1),
            Run(0x40000000, 0, 64),
            Run(0x70000046, 0, 1),
        ],
        [1, 1, 1, 1, 1, 3, 0, 4],
    ),
];

// The number of a rule; its first kind, its place, its left length and its right length, unless there is none.
#[derive(Clone, Copy)]
pub struct ShownRule(pub usize, pub Option<(u32, usize, usize, usize)>);

// The number of a link map; its place and its length, unless there is none.
#[derive(Clone, Copy)]
pub struct ShownMap(pub usize, pub Option<(usize, usize)>);

// The rules and the link maps of the whole file above.
pub const RULES: [ShownRule; 7] = [
    ShownRule(0, Some((0, 6, 4, 2))),
    ShownRule(1, Some((1, 13, 0, 2))),
    ShownRule(2, Some((0, 16, 0, 0))),
    ShownRule(3, None),
    ShownRule(127, None),
    ShownRule(128, None),
    ShownRule(usize::MAX, None),
];

pub const MAPS: [ShownMap; 6] = [
    ShownMap(0, Some((19, 1))),
    ShownMap(1, Some((21, 3))),
    ShownMap(2, None),
    ShownMap(63, None),
    ShownMap(64, None),
    ShownMap(usize::MAX, None),
];

// Some of those of the largest problem.
pub const LARGEST_RULES: [ShownRule; 5] = [
    ShownRule(0, Some((31, 130, 64, 64))),
    ShownRule(1, Some((31, 259, 64, 64))),
    ShownRule(127, Some((31, 16513, 64, 64))),
    ShownRule(128, None),
    ShownRule(usize::MAX, None),
];

pub const LARGEST_MAPS: [ShownMap; 5] = [
    ShownMap(0, Some((16674, 64))),
    ShownMap(1, Some((16739, 64))),
    ShownMap(63, Some((20769, 64))),
    ShownMap(64, None),
    ShownMap(usize::MAX, None),
];
