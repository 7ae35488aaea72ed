// Steps of a shift.
ghost use Rattle.std.specs.Prelude.{◌≡◌};
ghost use Rattle.machine.specs.Loaded.{Loaded};
ghost use Rattle.machine.specs.Progress.{step_call};
ghost use Rattle.machine.specs.Shift as machine;
ghost use Rattle.rows.specs.Layout.{Carries};
ghost use Rattle.rows.specs.View.{raw, view};
ghost use Rattle.searching.specs.Tasks.{op_of};
ghost use Rattle.table.specs.Steps.{shown_step, shown_plan, planned, plan_of, after};
ghost use Rattle.table.specs.Promises.{KeepsPromise};
ghost use Rattle.table.specs.Tabled.{view_of, origin_of};

use super::{Shift, Step};
use crate::table::Table;
use machine::answers::Ending;
use searching::{Task, next};

impl Shift {
    // A shift with that budget.
    pub fn begin(budget: u32) -> Shift
        ensures left { result.left ≡ budget }
        ensures done { result.done ≡ 0 }
    {
        Shift {
            left: budget,
            done: 0,
        }
    }
}

impl Table<'_> {
    // The task if there is a free number, else to sweep, if some are dead.
    fn with_room(&self, task: Task) -> Result<Task, Ending>
        ensures { (L : Loaded) → Carries L (raw self.now.rows).shape → shown_plan result ≡ planned (machine.with_room L (view self.now.rows) (op_of task)) }
    {
        if self.rows.given < self.rows.capacity {
            Ok(task)
        } else if (self.rows.living() as usize) < self.rows.given {
            Ok(Task::Sweep)
        } else {
            Err(Ending::Full)
        }
    }

    // What a step does with that budget left, or how it ends the shift.
    fn plan(&self, left: u32) -> Result<Task, Ending>
        ensures { shown_plan result ≡ plan_of left (view_of self.now) }
    {
        let Some(load) = &self.load else {
            return Err(Ending::NotLoaded);
        };
        let task = next(&self.rows, load).ok_or(Ending::Complete)?;
        if left == 0 {
            return Err(Ending::Spent);
        }
        match task {
            Task::Land(..) | Task::Define(..) => self.with_room(task),
            Task::Settle | Task::Link(..) | Task::Rule(..) | Task::Sweep => Ok(task),
        }
    }

    // Makes the call of the task. A match and no closure: six closures handed out as one value would need an allocation.
    fn carry_out(&mut self, task: Task)
        ensures after { view_of self.new ≡ after (op_of task) (view_of self.old) }
        ensures kept { origin_of self.new ≡ origin_of self.old }
        ensures promise { KeepsPromise self.new }
    {
        match task {
            Task::Settle => {
                let _ = self.settle();
            }
            Task::Link(i, q) => {
                let _ = self.check_source_link(i, q);
            }
            Task::Rule(e, i) => {
                let _ = self.check_rule(e, i);
            }
            Task::Land(k, q) => {
                let _ = self.land(k, q);
            }
            Task::Define(e, l) => {
                let _ = self.define(e, l);
            }
            Task::Sweep => {
                let _ = self.sweep();
            }
        }
    }

    // Does the next thing that there is to do, or ends the shift: nothing is left to do, the budget is spent, or the table is full.
    pub fn step(&mut self, shift: Shift) -> Step
        ensures after { (view_of self.new, shown_step result) ≡ step_call shift.left shift.done (view_of self.old) }
        ensures kept { origin_of self.new ≡ origin_of self.old }
        ensures promise { KeepsPromise self.new }
    {
        let Shift { left, done } = shift;
        match self.plan(left) {
            Err(ending) => Step::Ended(ending, done),
            Ok(task) => {
                self.carry_out(task);
                Step::Going(Shift {
                    left: left - 1,
                    done: done + 1,
                })
            }
        }
    }
}
