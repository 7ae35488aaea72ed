// Shifts played to their end, and finish.
use crate::OLD;
use crate::shift_tables::{RUNS, Run};
use machine::answers::Ending;
use registers::held::Held;
use std::process::Abort;
use table::table::Table;
use table::table::shift::{Shift, Step};
use words::faults::Refusal;

// The table of a row on trial: what it plays and finishes.
#[derive(Drop)]
struct Trial<'a, 'w, A> {
    rt: &'a A,
    row: usize,
    table: Table<'w>,
}

impl<A: Abort> Trial<'_, '_, A> {
    // Finishes into so many words, and tells the answer; all words from the told number on are as they were.
    fn finishes(&mut self, room: usize, out: &mut [u32; 64]) -> Result<usize, Refusal> {
        out.fill(OLD);
        let told = self.table.finish(&mut out[..room.min(64)]);
        for word in &out[told.unwrap_or(0).min(64)..] {
            assert_eq!(self.rt; (self.row, *word), (self.row, OLD));
        }
        told
    }

    // Finish where it must be refused.
    fn refuses(&mut self, room: usize, refusal: Refusal) {
        let told = self.finishes(room, &mut [0; 64]);
        assert_eq!(self.rt; (self.row, told), (self.row, Err(refusal)));
    }

    // Finish where it must give these words: also a second time, and not where one word is missing.
    fn gives(&mut self, words: &[u32]) {
        self.refuses(words.len().saturating_sub(1), Refusal::Memory);
        let mut out = [0; 64];
        for room in [words.len(), 64] {
            let told = self.finishes(room, &mut out);
            assert_eq!(self.rt; (self.row, told), (self.row, Ok(words.len())));
            assert_eq!(self.rt; (self.row, &out[..words.len().min(64)]), (self.row, words));
        }
    }

    fn plays(&mut self, budget: u32, end: (Ending, u32)) {
        assert_eq!(self.rt;
            (self.row, self.table.play(Shift::begin(budget))),
            (self.row, end)
        );
    }
}

fn runs(rt: &impl Abort, row: usize, case: Run) {
    let mut words = [0; 400];
    let table = Table::open(&mut words[..case.work.min(400)]);
    let mut trial = Trial { rt, row, table };
    // On a table that is not loaded a step ends the shift, and finish is refused.
    trial.plays(9, (Ending::NotLoaded, 0));
    trial.refuses(64, Refusal::State);
    let mut held = Held::new();
    assert_eq!(rt; held.take(case.register).is_ok(), true);
    assert_eq!(rt; trial.table.load(case.problem, &held).is_ok(), true);
    trial.plays(case.budget, (case.ending, case.steps));
    assert_eq!(rt;
        (row, trial.table.given(), trial.table.living()),
        (row, Ok(case.given), Ok(case.living))
    );
    match case.finish {
        Ok(words) => trial.gives(words),
        Err(refusal) => trial.refuses(64, refusal),
    }
}

#[test]
fn shifts_and_finish(rt: HostRuntime) {
    for (row, case) in RUNS.iter().enumerate() {
        runs(&rt, row, *case);
    }
}

// Two steps by hand, and the rest played.
fn by_steps(table: &mut Table, budget: u32) -> (Ending, u32) {
    match table.step(Shift::begin(budget)) {
        Step::Going(shift) => match table.step(shift) {
            Step::Going(last) => table.play(last),
            Step::Ended(ending, steps) => (ending, steps),
        },
        Step::Ended(ending, steps) => (ending, steps),
    }
}

// A shift is handed on from step to step, and its count of steps with it.
#[test]
fn steps_one_by_one(rt: HostRuntime) {
    for budget in [0u32, 1, 2, 3, 4, 9] {
        let mut words = [0; 64];
        let mut table = Table::open(&mut words);
        let mut held = Held::new();
        assert_eq!(rt;
            held.take(&[0x80000001, 0x90000001, 0x70000002]).is_ok(),
            true
        );
        let problem = [
            0x10000001, 0x10000101, 0x20000000, 0x30000301, 0x40000000, 0x40000000, 0x40000000,
            0x40000000, 0x50000000, 0x70000009,
        ];
        assert_eq!(rt; table.load(&problem, &held).is_ok(), true);
        let end = if budget < 4 {
            Ending::Spent
        } else {
            Ending::Complete
        };
        assert_eq!(rt; by_steps(&mut table, budget), (end, budget.min(4)));
    }
}
