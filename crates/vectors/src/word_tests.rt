// Refusals as numbers and words, and words as tokens.
use crate::word_tables::{NO_TOKENS, PLACES, REFUSALS, TOKENS};
use words::faults::{Fault, Refusal};
use words::tokens::{Token, token_at};

#[test]
fn numbers_refusals(rt: HostRuntime) {
    for case in &REFUSALS {
        assert_eq!(rt;
            (case.0.number(), case.0.layer(), case.0.at(7).word()),
            (case.1, case.2, case.3)
        );
    }
}

#[test]
fn places_faults(rt: HostRuntime) {
    for case in &PLACES {
        assert_eq!(rt; Refusal::Unknown.at(case.0).word(), case.1);
    }
}

// The tag of a token and its fields.
fn fields(token: Token<'_>) -> [usize; 4] {
    match token {
        Token::Schema { side, kinds } => [1, side as usize, kinds as usize, 0],
        Token::Link { from, to } => [2, from as usize, to as usize, 0],
        Token::Rule {
            first,
            left,
            right,
            ..
        } => [3, first as usize, left.len(), right.len()],
        Token::Step(link) => [4, link as usize, 0, 0],
        Token::KindMap { source, target } => [5, source as usize, target as usize, 0],
        Token::LinkMap { link, path, .. } => [6, link as usize, path.len(), 0],
        Token::End(n) => [7, n as usize, 0, 0],
        Token::Register(kinds) => [8, kinds as usize, 0, 0],
        Token::Count(n) => [9, n as usize, 0, 0],
        Token::RegisterLink { from, to } => [10, from as usize, to as usize, 0],
        Token::Record(n) => [11, n as usize, 0, 0],
        Token::Landings {
            records,
            source,
            target,
        } => [12, records as usize, source as usize, target as usize],
        Token::Fault {
            layer,
            number,
            place,
        } => [15, layer as usize, number as usize, place as usize],
    }
}

fn shown(words: &[u32], at: usize) -> Result<[usize; 4], Fault> {
    Ok(fields(token_at(words, at)?))
}

#[test]
fn shows_words(rt: HostRuntime) {
    for case in &TOKENS {
        assert_eq!(rt; shown(case.0, case.1), Ok(case.2));
    }
}

#[test]
fn shows_no_words(rt: HostRuntime) {
    for case in &NO_TOKENS {
        assert_eq!(rt; shown(case.0, case.1), Err(case.2.at(case.3)));
    }
}
