// Carries a register as `extend` does, and tells in text what was done.
#![tactic(auto)]

use crate::stop::Stop;
use crate::telling::{tell_register, tell_schema, tell_source, tell_words};
use extending::problem_size;
use machine::answers::Ending;
use problems::read_problem;
use registers::blank::Blank;
use registers::held::Held;
use registers::register::Register;
use std::io;
use streams::bytes::to_words;
use streams::input::{LONG, fill};
use streams::unblank::{BYTES, WORDS};
use table::table::Table;
use table::table::shift::Shift;
use words::faults::Refusal;

mod stop;
mod telling;

const WORK: usize = 12288;

const BUDGET: u32 = 100000;

// The schemas of a problem that is read, and its rules.
fn tell_problem(rt: &impl Print, problem: &[u32]) -> io::Result<()> {
    if let Ok(found) = read_problem(problem) {
        tell_schema(rt, "source", problem, found.source)?;
        tell_schema(rt, "target", problem, found.target)?;
        let rules = found.rules.len();
        println!(rt; "rules: {rules}")?;
    }
    Ok(())
}

// The numbers of a loaded table.
fn tell_numbers(rt: &impl Print, table: &Table) -> io::Result<()> {
    let given = table.given().unwrap_or(0);
    let living = table.living().unwrap_or(0);
    let dead = given.saturating_sub(living);
    println!(rt; "entries: {given} given, {living} living, {dead} dead")
}

// Nothing, where the table is complete.
fn completed(ending: Ending) -> Result<(), Refusal> {
    match ending {
        Ending::Complete => Ok(()),
        Ending::Full => Err(Refusal::Full),
        Ending::Spent => Err(Refusal::Incomplete),
        Ending::NotLoaded => Err(Refusal::State),
    }
}

// Plays a shift on a loaded table, and tells its end and the finished register.
fn tell_shift(rt: &impl Print, table: &mut Table, out: &mut [u32]) -> Result<(), Stop> {
    let capacity = table.capacity().unwrap_or(0);
    println!(rt; "capacity: {capacity} entries")?;
    let (ending, steps) = table.play(Shift::begin(BUDGET));
    println!(rt; "shift: {ending:?} after {steps} steps")?;
    tell_numbers(rt, table)?;
    completed(ending).map_err(|refusal| Stop::refused("the shift", refusal.at(0)))?;
    let count = table
        .finish(out)
        .map_err(|refusal| Stop::refused("finish", refusal.at(0)))?;
    let words = &out[..count.min(out.len())];
    tell_register(rt, words)?;
    tell_words(rt, words)?;
    Ok(())
}

// Loads a problem and a source, and goes on with the table.
fn tell_load<R: Register>(rt: &impl Print, problem: &[u32], source: &R) -> Result<(), Stop> {
    let mut work = [0; WORK];
    let mut table = Table::open(&mut work);
    table
        .load(problem, source)
        .map_err(|fault| Stop::refused("load", fault))?;
    tell_source(rt, source)?;
    tell_shift(rt, &mut table, &mut [0; WORDS])
}

// The job on the bytes of the input.
fn tell_job(rt: &impl Print, input: &[u8]) -> Result<(), Stop> {
    if input.len() > BYTES {
        return Err(Stop::refused("the input", Refusal::Limit.at(WORDS)));
    }
    let mut words = [0; WORDS];
    let size = to_words(input, &mut words);
    let words = &words[..size];
    let (problem, register) = words.split_at(problem_size(words).min(size));
    let mut held = Held::new();
    held.take(register)
        .map_err(|fault| Stop::refused("the register", fault))?;
    tell_problem(rt, problem)?;
    tell_load(rt, problem, &Blank::over(held))
}

fn main(rt: HostRuntime) -> io::Result<()> {
    let mut input = [0; LONG];
    let count = fill(&mut rt.stdin(), &mut input)?;
    match tell_job(&rt, &input[..count]) {
        Ok(()) => Ok(()),
        Err(Stop::Refused(what, fault)) => println!(rt; "{what} refused: {fault}"),
        Err(Stop::Unprinted(error)) => Err(error),
    }
}
