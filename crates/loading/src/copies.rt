// The copies of a problem and of a source, written part by part.
ghost use Rattle.std.specs.Prelude.{◌≡◌, ◌+◌, ◌≤◌, length};
ghost use Rattle.registers.specs.Splices.{spliced};
ghost use Rattle.registers.specs.Writing.{upto, lead};
ghost use Rattle.machine.specs.Loading.{sum};
ghost use Rattle.loading.specs.LoadedWords.{problem_in, leaving, lead_words};

use crate::offer::Offer;
use registers::register::Register;

// Copies the problem's words to the front.
pub(crate) fn put_words(out: &mut [u32], problem: &[u32])
    requires { length problem.now ≤ length out.old }
    ensures { out.new ≡ spliced 0 problem.now out.old }
{
    out[..problem.len()].copy_from_slice(problem);
}

// Empties n words.
pub(crate) fn clear(out: &mut [u32], at: usize, n: usize)
    requires { at + n ≤ length out.old }
    ensures { out.new ≡ spliced at (upto (λ i. 0) n) out.old }
{
    out[at..at + n].fill(0);
}

// Puts where a link leads from each of the first records.
fn put_link<R: Register>(out: &mut [u32], source: &R, link: u32)
    requires { length out.old ≤ 4294967296 }
    ensures { out.new ≡ upto (lead (R.meaning source.now) link) (length out.old) }
{
    for (r, word) in out.iter_mut().enumerate() {
        *word = source.follow(link, r as u32).unwrap_or(0);
    }
}

impl<R: Register> Offer<'_, '_, R> {
    // Puts where the source's links lead. A loop that carries the place: only how many records a link leaves tells where the next begins.
    pub(crate) fn put_links(&self, out: &mut [u32], at: usize)
        requires { at + sum (leaving (problem_in self.now.problem.now) (R.meaning self.now.source.now).count) self.now.schema.links ≤ length out.old }
        ensures { out.new ≡ spliced at (lead_words (problem_in self.now.problem.now) (R.meaning self.now.source.now) self.now.schema.links) out.old }
    {
        let mut next = at;
        for link in 0..self.schema.links as u32 {
            let n = self.leaving(link) as usize;
            put_link(&mut out[next..next + n], self.source, link);
            next += n;
        }
    }
}
