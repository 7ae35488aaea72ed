// Plays families of growing problems and prints entries, steps and time. Without an argument it only says how it is called.
#![tactic(auto)]

use crate::families::{carried, chain, torus};
use registers::register::Register;
use registers::wheel::Wheel;
use std::env;
use std::time::Instant;
use table::table::Table;
use table::table::shift::Shift;

mod families;

// Loads, plays a shift of at most 1,000,000 steps, and prints a line.
fn run<R: Register>(
    rt: &HostRuntime,
    name: &str,
    size: u32,
    problem: &[u32],
    source: &R,
    work: &mut [u32],
) -> anyhow::Result<()> {
    let mut table = Table::open(work);
    if table.load(problem, source).is_err() {
        println!(rt; "{name} {size}: not loaded")?;
        return Ok(());
    }
    let start = Instant::now(rt)?;
    let (ending, steps) = table.play(Shift::begin(1_000_000));
    let micros = start.elapsed(rt)?.as_micros();
    let given = table.given().unwrap_or(0);
    let living = table.living().unwrap_or(0);
    let nanos = micros.saturating_mul(1000) / u128::from(steps.max(1));
    println!(rt;
        "{name} {size}: {ending:?}, {given} given, {living} living, {steps} steps, {micros} us, {nanos} ns a step"
    )?;
    Ok(())
}

// A link without rules, until the table is full: room for so many entries of four words.
fn chains(rt: &HostRuntime, work: &mut [u32]) -> anyhow::Result<()> {
    let problem = chain(rt.alloc())?;
    for size in [250u32, 500, 1000, 2000] {
        let words = (size as usize * 4 + 6).min(work.len());
        run(
            rt,
            "chain",
            size,
            &problem,
            &Wheel::new(1, &[]),
            &mut work[..words],
        )?;
    }
    Ok(())
}

// Two links that turn back and go in either order: size times size entries.
fn tori(rt: &HostRuntime, work: &mut [u32]) -> anyhow::Result<()> {
    for size in [8u32, 16, 24, 32] {
        let problem = torus(rt.alloc(), size, size)?;
        run(rt, "torus", size, &problem, &Wheel::new(1, &[]), work)?;
    }
    Ok(())
}

// A wheel of so many records whose link becomes a link.
fn wheels(rt: &HostRuntime, work: &mut [u32]) -> anyhow::Result<()> {
    let problem = carried(rt.alloc())?;
    for size in [250u16, 500, 1000, 2000] {
        run(
            rt,
            "wheel",
            u32::from(size),
            &problem,
            &Wheel::new(size, &[1]),
            work,
        )?;
    }
    Ok(())
}

fn main(rt: HostRuntime) -> anyhow::Result<()> {
    let mut arguments = env::args(&rt)?;
    let _ = arguments.next();
    if arguments.next().is_none() {
        println!(rt; "bench run: plays chains, tori and wheels of growing size")?;
        return Ok(());
    }
    let mut work = vec![in rt.alloc(); 0u32; 100_000]?;
    chains(&rt, &mut work)?;
    tori(&rt, &mut work)?;
    wheels(&rt, &mut work)
}
