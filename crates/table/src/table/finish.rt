// Finishing a table.
ghost use Rattle.std.specs.Prelude.{◌≡◌};
ghost use Rattle.machine.specs.Progress.{finish_call};
ghost use Rattle.table.specs.Promises.{KeepsPromise, IsReadBack};
ghost use Rattle.table.specs.Tabled.{view_of, origin_of};

use crate::table::Table;
use finishing::finish;
use searching::next;
use words::faults::Refusal;

impl Table<'_> {
    // Writes the register file of a complete table, with its landings, to the front of the output; tells how many words.
    // A refusal changes nothing, what stands behind the words is kept, and the table is as it was.
    pub fn finish(&mut self, out: &mut [u32]) -> Result<usize, Refusal>
        ensures answer { (result, out.new) ≡ finish_call out.old (view_of self.old) }
        ensures same { view_of self.new ≡ view_of self.old }
        ensures kept { origin_of self.new ≡ origin_of self.old }
        ensures promise { KeepsPromise self.new }
        ensures back { IsReadBack self.old result out.new }
    {
        let Some(load) = &self.load else {
            return Err(Refusal::State);
        };
        if self.rows.waits > 0 {
            return Err(Refusal::Waiting);
        }
        if next(&self.rows, load).is_some() {
            return Err(Refusal::Incomplete);
        }
        finish(&mut self.rows, &load.found, out)
    }
}
