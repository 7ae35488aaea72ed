// What the reader of register files takes and refuses.
use crate::files::{Reader, Run, built, push_runs};
use crate::register_tables::{EDITS, FORMAT, LIMITS, REFUSED, TAKEN, WHOLE};
use register_files::read_register;
use std::alloc::{AllocError, Global};
use std::test::Fail;

#[test]
fn refuses_small_files(rt: HostRuntime) {
    let trial = Reader::Register.on_trial(&rt);
    trial.refuses_worded(&FORMAT);
    trial.refuses_each(&REFUSED);
    trial.misses_each(&WHOLE);
}

#[test]
fn refuses_edited_files(rt: HostRuntime) -> Result<(), Fail> {
    let trial = Reader::Register.on_trial(&rt);
    trial.refuses_edits(&WHOLE, &EDITS)?;
    trial.refuses_tags(&WHOLE)?;
    trial.refuses_bits(&WHOLE)
}

#[test]
fn refuses_at_limits(rt: HostRuntime) -> Result<(), Fail> {
    Reader::Register.on_trial(&rt).refuses_runs(&LIMITS)
}

// The kinds of a file, its links, and the place of the last; none if it is refused.
fn outline(words: &[u32]) -> Option<(u32, usize, usize)> {
    let found = read_register(words).ok()?;
    let place = found.links.as_slice().last().copied().unwrap_or(0);
    Some((found.kinds, found.links.len(), place))
}

// Adds landings of 4,095 source records for each of 32 source kinds.
fn push_landings(words: &mut Vec<u32>) -> Result<(), AllocError> {
    for source in 0..32u32 {
        push_runs(
            words,
            &[
                Run(0xCFFF0000 + source * 256, 0, 1),
                Run(0xB0000000, 0, 4095),
            ],
        )?;
    }
    Ok(())
}

// The largest register file: 4,325,410 words.
fn largest(heap: Global) -> Result<Vec<u32>, AllocError> {
    let mut words = built(heap, &[Run(0x80000020, 0, 1), Run(0x9000FFFF, 0, 32)])?;
    for _ in 0..64 {
        push_runs(
            &mut words,
            &[Run(0xA000001F, 0, 1), Run(0xB0000000, 1, 65535)],
        )?;
    }
    push_landings(&mut words)?;
    words.push(0x70420021)?;
    Ok(words)
}

#[test]
fn takes_files(rt: HostRuntime) -> Result<(), Fail> {
    Reader::Register.on_trial(&rt).takes_each(&TAKEN, outline)?;
    let words = largest(rt.alloc())?;
    assert_eq!(rt; words.len(), 4325410);
    assert_eq!(rt; outline(&words), Some((32, 64, 33 + 63 * 65536)));
    assert_eq!(rt; outline(&WHOLE), Some((2, 2, 6)));
    Ok(())
}
