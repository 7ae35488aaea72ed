// The register file of a complete table, written into an output.
#![tactic(auto)]

ghost use Rattle.std.specs.Prelude.{◌≡◌, None};
ghost use Rattle.machine.specs.Loaded.{Loaded};
ghost use Rattle.machine.specs.State.{State};
ghost use Rattle.machine.specs.Finish.{finish_words, put_words};
ghost use Rattle.rows.specs.Layout.{Becomes};
ghost use Rattle.rows.specs.View.{raw, view};
ghost use Rattle.numbering.specs.Marked.{Countable};
ghost use Rattle.finishing.specs.Written.{Writes, Writing, Finishes, Finishing};

use numbering::{Numbering, number, restore};
use problems::Found;
use rows::Rows;
use words::faults::Refusal;

mod parts;
mod records;
mod sizes;

// A complete table whose numbering stands in its words, and what was found in its problem.
// That a link is one of the table's stays a condition: it is said of a number that a loop counts.
// It is no `Register`: the entries stand in the order of the sequence, so each call of `follow` would search them for those of one kind.
#[derive(Clone, Copy)]
struct Listing<'a> {
    rows: &'a Rows<'a>,
    found: &'a Found,
    numbering: &'a Numbering,
    ghost writing: { Writing (raw rows.now) found.now numbering.now.met numbering.now.counts },
}

impl Listing<'_> {
    // Writes the register file to the front of the output; tells how many words.
    // A refusal changes nothing, and what stands behind the words is kept.
    fn write(&self, out: &mut [u32]) -> Result<usize, Refusal>
        ensures { (L : Loaded) (s : State) →
            ∥ Writes L s (raw self.now.rows.now) self.now.found.now self.now.numbering.now.met self.now.numbering.now.counts ∥₁ →
            (result, out.new) ≡ put_words None (finish_words L s) out.old }
    {
        if self.size() > out.len() {
            return Err(Refusal::Memory);
        }
        Ok(self.put_file(out))
    }
}

// Finishes a complete table: its register file goes to the front of the output, or nothing where that is too short; tells how many words.
// The table is as it was.
pub fn finish(rows: &mut Rows, found: &Found, out: &mut [u32]) -> Result<usize, Refusal>
    requires countable { Countable (raw rows.old) }
    requires finishing { Finishing (raw rows.old) found.now }
    ensures answer { (L : Loaded) → Finishes L (raw rows.old) found.now → (result, out.new) ≡ put_words None (finish_words L (view rows.old)) out.old }
    ensures after { Becomes (raw rows.old) (λ s. s) (raw rows.new) }
{
    let numbering = number(rows);
    let listing = Listing {
        rows,
        found,
        numbering: &numbering,
    };
    let answer = listing.write(out);
    restore(rows, numbering.met);
    answer
}
