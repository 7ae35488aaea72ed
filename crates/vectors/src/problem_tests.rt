// What the reader of problems takes and refuses, and the tokens of what it took.
use crate::files::{Reader, Run, built, push_runs};
use crate::problem_tables::{
    FORMAT, FORMAT_EDITS, GGG, LARGEST_MAPS, LARGEST_RULES, LIMITS, MAP_EDITS, MAPS, REFUSED,
    RULE_EDITS, RULES, SCHEMA_EDITS, ShownMap, ShownRule, TAKEN, WHOLE,
};
use problems::{Found, link_map_at, read_problem, rule_at};
use std::alloc::{AllocError, Global};
use std::process::Abort;
use std::test::Fail;
use words::tokens::Token;

#[test]
fn refuses_small_problems(rt: HostRuntime) {
    let trial = Reader::Problem.on_trial(&rt);
    trial.refuses_worded(&FORMAT);
    trial.refuses_each(&REFUSED);
    trial.misses_each(&GGG);
    trial.misses_each(&WHOLE);
}

#[test]
fn refuses_edited_problems(rt: HostRuntime) -> Result<(), Fail> {
    let trial = Reader::Problem.on_trial(&rt);
    trial.refuses_edits(&GGG, &FORMAT_EDITS)?;
    trial.refuses_edits(&WHOLE, &SCHEMA_EDITS)?;
    trial.refuses_edits(&WHOLE, &RULE_EDITS)?;
    trial.refuses_edits(&WHOLE, &MAP_EDITS)?;
    trial.refuses_tags(&WHOLE)?;
    trial.refuses_bits(&WHOLE)
}

#[test]
fn refuses_problems_at_limits(rt: HostRuntime) -> Result<(), Fail> {
    Reader::Problem.on_trial(&rt).refuses_runs(&LIMITS)
}

fn outline(words: &[u32]) -> Option<[usize; 8]> {
    let found = read_problem(words).ok()?;
    let source = found.source;
    let target = found.target;
    Some([
        source.kinds as usize,
        source.links,
        source.place,
        target.kinds as usize,
        target.links,
        target.place,
        found.rules.len(),
        found.maps,
    ])
}

// Adds 64 link maps of 64 steps.
fn push_maps(words: &mut Vec<u32>) -> Result<(), AllocError> {
    for link in 0..64u32 {
        push_runs(
            words,
            &[Run(0x60000040 + link * 256, 0, 1), Run(0x40000000, 1, 64)],
        )?;
    }
    Ok(())
}

// The largest problem: 20,835 words.
fn largest(heap: Global) -> Result<Vec<u32>, AllocError> {
    let mut words = built(
        heap,
        &[
            Run(0x10000020, 0, 1),
            Run(0x20001F00, 0, 64),
            Run(0x10000120, 0, 1),
            Run(0x20001F1F, 0, 64),
        ],
    )?;
    for _ in 0..128 {
        push_runs(
            &mut words,
            &[
                Run(0x301F4040, 0, 1),
                Run(0x40000000, 1, 64),
                Run(0x40000000, 1, 64),
            ],
        )?;
    }
    push_runs(&mut words, &[Run(0x5000001F, 0x100, 32)])?;
    push_maps(&mut words)?;
    words.push(0x70005162)?;
    Ok(words)
}

#[test]
fn takes_problems(rt: HostRuntime) -> Result<(), Fail> {
    Reader::Problem.on_trial(&rt).takes_each(&TAKEN, outline)?;
    let words = largest(rt.alloc())?;
    assert_eq!(rt; words.len(), 20835);
    assert_eq!(rt;
        outline(&words),
        Some([32, 64, 1, 32, 64, 66, 128, 130 + 128 * 129])
    );
    assert_eq!(rt; outline(&WHOLE), Some([2, 2, 1, 2, 2, 4, 3, 17]));
    Ok(())
}

// So many words from a place on; none if there are fewer.
fn part(words: &[u32], at: usize, n: usize) -> &[u32] {
    words.get(at..at.saturating_add(n)).unwrap_or(&[])
}

// The token of a rule: its first kind, its place, and its sides, which are the next words.
fn shows_rule(rt: &impl Abort, words: &[u32], found: &Found, case: ShownRule) -> Result<(), Fail> {
    match (rule_at(words, found, case.0), case.1) {
        (
            Some(
                Token::Rule {
                    first,
                    left,
                    right,
                    place,
                },
            ),
            Some((kind, at, m, n)),
        ) => {
            assert_eq!(rt; (first, place, left.len(), right.len()), (kind, at, m, n));
            let start = at.saturating_add(1);
            assert_eq!(rt;
                (left, right),
                (
                    part(words, start, m),
                    part(words, start.saturating_add(m), n)
                )
            );
            Ok(())
        }
        (None, None) => Ok(()),
        _ => Err(Fail::new("another token, or none")),
    }
}

// The token of a link map: its number, its place, and its path, which is the next words.
fn shows_map(rt: &impl Abort, words: &[u32], found: &Found, case: ShownMap) -> Result<(), Fail> {
    match (link_map_at(words, found, case.0), case.1) {
        (Some(Token::LinkMap { link, path, place }), Some((at, n))) => {
            assert_eq!(rt; (link as usize, place, path.len()), (case.0, at, n));
            assert_eq!(rt; path, part(words, at.saturating_add(1), n));
            Ok(())
        }
        (None, None) => Ok(()),
        _ => Err(Fail::new("another token, or none")),
    }
}

fn shows_all(
    rt: &impl Abort,
    words: &[u32],
    rules: &[ShownRule],
    maps: &[ShownMap],
) -> Result<(), Fail> {
    let Ok(found) = read_problem(words) else {
        return Err(Fail::new("refused"));
    };
    rules
        .iter()
        .try_for_each(|case| shows_rule(rt, words, &found, *case))?;
    maps.iter()
        .try_for_each(|case| shows_map(rt, words, &found, *case))
}

#[test]
fn shows_tokens(rt: HostRuntime) -> Result<(), Fail> {
    shows_all(&rt, &WHOLE, &RULES, &MAPS)?;
    let words = largest(rt.alloc())?;
    shows_all(&rt, &words, &LARGEST_RULES, &LARGEST_MAPS)
}
