// What the registers answer, from tables.
use crate::answer_tables::{
    Ask, FOUR, FOUR_BLANK, FOUR_BLANK_BLANK, FOUR_GONE, NOTHING, TAKES, WHEEL_BLANK,
    WHEEL_BLANK_BLANK, WHEELS,
};
use registers::blank::Blank;
use registers::held::Held;
use registers::register::Register;
use registers::wheel::Wheel;
use std::process::Abort;
use words::faults::Fault;

// A match and no closure in the row: rows are constants, each a question with its answer.
fn answers<R: Register>(rt: &impl Abort, register: &R, row: usize, ask: Ask) {
    match ask {
        Ask::Kinds(n) => {
            assert_eq!(rt; (row, register.kinds()), (row, n));
        }
        Ask::Links(n) => {
            assert_eq!(rt; (row, register.links()), (row, n));
        }
        Ask::Ends(link, ends) => {
            assert_eq!(rt; (row, register.ends(link)), (row, ends));
        }
        Ask::Count(kind, n) => {
            assert_eq!(rt; (row, register.count(kind)), (row, n));
        }
        Ask::Follow(link, record, led) => {
            assert_eq!(rt; (row, register.follow(link, record)), (row, led));
        }
    }
}

fn answers_each<R: Register>(rt: &impl Abort, register: &R, table: &[Ask]) {
    for (row, ask) in table.iter().enumerate() {
        answers(rt, register, row, *ask);
    }
}

// A held register takes a file, or tells the fault for which it refuses.
fn takes<'a>(held: &mut Held<'a>, words: &'a [u32]) -> Result<(), Fault> {
    Ok(held.take(words)?)
}

// A held register answers by its file, and keeps it when another is refused.
#[test]
fn held_answers(rt: HostRuntime) {
    let mut held = Held::new();
    answers_each(&rt, &held, &NOTHING);
    for case in &TAKES {
        assert_eq!(rt; takes(&mut held, case.0), case.1);
        answers_each(&rt, &held, case.2);
    }
}

#[test]
fn wheel_answers(rt: HostRuntime) {
    for case in &WHEELS {
        answers_each(&rt, &Wheel::new(case.0, case.1), case.2);
    }
}

#[test]
fn blank_over_held_answers(rt: HostRuntime) {
    let mut held = Held::new();
    answers_each(&rt, &Blank::over(held), &NOTHING);
    assert_eq!(rt; takes(&mut held, &FOUR), Ok(()));
    answers_each(&rt, &Blank::over(held), &FOUR_BLANK);
    let twice = Blank::over(Blank::over(held));
    answers_each(&rt, &twice, &FOUR_BLANK_BLANK);
    answers_each(&rt, &Blank::over(Blank::over(twice)), &FOUR_GONE);
}

#[test]
fn blank_over_wheel_answers(rt: HostRuntime) {
    let wheel = Wheel::new(3, &[1]);
    answers_each(&rt, &Blank::over(wheel), &WHEEL_BLANK);
    answers_each(&rt, &Blank::over(Blank::over(wheel)), &WHEEL_BLANK_BLANK);
    answers_each(
        &rt,
        &Blank::over(Blank::over(Blank::over(Blank::over(wheel)))),
        &FOUR_GONE,
    );
}
