// Loads of tables, accepted and refused.
use crate::OLD;
use crate::load_tables::{LOADS, Load, ROUND, SECOND_STRAYS, TWO_ROUND};
use registers::blank::Blank;
use registers::held::Held;
use registers::register::Register;
use registers::wheel::Wheel;
use std::process::Abort;
use table::table::Table;
use words::faults::{Fault, Refusal};

fn loads<R: Register>(words: &mut [u32], problem: &[u32], source: &R) -> Result<u32, Fault> {
    let mut table = Table::open(words);
    table.load(problem, source)?;
    table.capacity().map_err(|refusal| refusal.at(0))
}

// After a refused load every word is as it was.
fn loads_row(rt: &impl Abort, row: usize, case: Load) {
    let mut words = [OLD; 9000];
    let told = loads(&mut words[..case.2.min(9000)], case.0, &case.1);
    assert_eq!(rt; (row, told), (row, case.3));
    if case.3.is_err() {
        for word in &words {
            assert_eq!(rt; (row, *word), (row, OLD));
        }
    }
}

#[test]
fn loads_and_refusals(rt: HostRuntime) {
    for (row, case) in LOADS.iter().enumerate() {
        loads_row(&rt, row, *case);
    }
}

// Sources behind layers.
#[test]
fn layers_are_sources(rt: HostRuntime) {
    let mut words = [0; 45];
    assert_eq!(rt; loads(&mut words, &ROUND, &Wheel::new(6, &[2])), Ok(9));
    let mut held = Held::new();
    assert_eq!(rt; held.take(&SECOND_STRAYS).is_ok(), true);
    assert_eq!(rt; loads(&mut words, &TWO_ROUND, &held), Ok(9));
    assert_eq!(rt;
        loads(&mut words, &TWO_ROUND, &Blank::over(held)),
        Err(Refusal::Leads.at(1))
    );
    assert_eq!(rt;
        loads(&mut words, &ROUND, &Blank::over(Wheel::new(3, &[1]))),
        Err(Refusal::Leads.at(0))
    );
    assert_eq!(rt;
        loads(&mut words, &ROUND, &Blank::over(Wheel::new(1, &[1]))),
        Ok(13)
    );
}
