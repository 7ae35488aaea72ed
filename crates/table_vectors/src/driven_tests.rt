// Calls by hand on loaded tables, each answer compared.
use crate::driven_tables::{
    Call, Driven, QUAYS, ROOM_FOR_NONE, ROOM_FOR_ONE, ROOM_FOR_TWO, Row, SWEPT_ROOM, THRICE, TURNS,
    TWICE_AND_THRICE, TWO_TO_ONE, Told, WHEEL,
};
use machine::answers::LoadFault;
use registers::held::Held;
use std::process::Abort;
use table::table::Table;
use words::faults::Refusal;

// A match and no closure in the row: rows are constants, each a call with its answer.
fn told(table: &mut Table, call: Call, a: u32, b: u32) -> Result<Told, Refusal> {
    match call {
        Call::Land => table.land(a, b).map(Told::Number),
        Call::Define => table.define(a, b).map(Told::Number),
        Call::CheckRule => table.check_rule(a, b).map(Told::Checked),
        Call::CheckLink => table.check_source_link(a, b).map(Told::Checked),
        Call::Settle => table.settle().map(Told::Number),
        Call::Sweep => table.sweep().map(Told::Number),
        Call::Capacity => table.capacity().map(Told::Number),
        Call::Given => table.given().map(Told::Number),
        Call::Living => table.living().map(Told::Number),
        Call::Waiting => table.waiting().map(Told::Number),
        Call::Cell => table.cell(a, b).map(Told::Place),
        Call::Landing => table.landing(a, b).map(Told::Place),
    }
}

fn load(table: &mut Table, case: Driven) -> Result<(), LoadFault> {
    let mut held = Held::new();
    held.take(case.register)?;
    table.load(case.problem, &held)
}

// Each call refuses a table that is not loaded.
fn refuses_each(rt: &impl Abort, table: &mut Table, rows: &[Row]) {
    for (row, r) in rows.iter().enumerate() {
        assert_eq!(rt;
            (row, told(table, r.0, r.1, r.2)),
            (row, Err(Refusal::State))
        );
    }
}

fn tells_each(rt: &impl Abort, table: &mut Table, rows: &[Row]) {
    for (row, r) in rows.iter().enumerate() {
        assert_eq!(rt; (row, told(table, r.0, r.1, r.2)), (row, r.3));
    }
}

// The rows before the load, and after it, in their order; then another load is refused.
fn drives(rt: &impl Abort, case: Driven) {
    let mut words = [0; 128];
    let mut table = Table::open(&mut words[..case.work.min(128)]);
    refuses_each(rt, &mut table, case.rows);
    assert_eq!(rt; load(&mut table, case), Ok(()));
    tells_each(rt, &mut table, case.rows);
    assert_eq!(rt; load(&mut table, case), Err(LoadFault::Loaded));
}

#[test]
fn by_hand(rt: HostRuntime) {
    drives(&rt, THRICE);
    drives(&rt, TWICE_AND_THRICE);
    drives(&rt, WHEEL);
    drives(&rt, TWO_TO_ONE);
    drives(&rt, SWEPT_ROOM);
}

#[test]
fn little_room(rt: HostRuntime) {
    drives(&rt, ROOM_FOR_NONE);
    drives(&rt, ROOM_FOR_ONE);
    drives(&rt, ROOM_FOR_TWO);
}

#[test]
fn in_any_order(rt: HostRuntime) {
    drives(&rt, QUAYS);
    drives(&rt, TURNS);
}
