// The words of a register, written part by part.
// The output and a place in it are passed apart, not as one cursor: a contract here says what the whole output holds, by its place.
ghost use Rattle.std.specs.Prelude.{◌≡◌, ◌+◌, ◌<◌, ◌≤◌, [], ◌∷◌, ◌++◌, length, drop};
ghost use Rattle.words.specs.Tags.{tagged};
ghost use Rattle.registers.specs.Splices.{spliced};
ghost use Rattle.registers.specs.Parts.{file_words, row_words, count_words, record_words, links_words, LeadsFit, Writable};
ghost use Rattle.registers.specs.Writability.{writable_prop};

use crate::register::Register;
use crate::writing::each::put_each;
use words::tags::Tag;

// Puts one word.
pub fn put(out: &mut [u32], at: usize, tag: Tag, fields: u32)
    requires room { at < length out.old }
    requires small { fields < 268435456 }
    ensures { out.new ≡ spliced at (tagged tag fields ∷ []) out.old }
{
    out[at] = tag.number() * 268435456 + fields;
}

// Puts where each of the first n records leads.
fn put_records<R: Register>(register: &R, link: u32, n: u32, out: &mut [u32], at: usize)
    requires fit { LeadsFit (R.meaning register.now) link n }
    requires room { at + n ≤ length out.old }
    ensures { out.new ≡ spliced at (record_words (R.meaning register.now) link n) out.old }
{
    put_each(out, at, Tag::Record, n, |r| {
        register.follow(link, r).unwrap_or(0)
    });
}

// A register that passed the tests before a write.
#[derive(Drop)]
pub(crate) struct Tested<'a, R: Register> {
    pub(crate) register: &'a R,
    ghost writable: { Writable (R.meaning register.now) } by { writable_prop (R.meaning register.now) },
}

impl<'a, R: Register> Tested<'a, R> {
    // Puts the count of each kind behind the first word.
    fn put_counts(&self, out: &mut [u32])
        requires { (R.meaning self.now.register.now).kinds < length out.old }
        ensures { out.new ≡ spliced 1 (count_words (R.meaning self.now.register.now) (R.meaning self.now.register.now).kinds) out.old }
    {
        put_each(out, 1, Tag::Count, self.register.kinds(), |kind| {
            self.register.count(kind)
        });
    }

    // Puts a link and its records; tells the place behind them.
    fn put_link(&self, link: u32, out: &mut [u32], at: usize) -> usize
        requires known { link < (R.meaning self.now.register.now).links }
        requires room { at + length (row_words (R.meaning self.now.register.now) link) ≤ length out.old }
        ensures next { result ≡ at + length (row_words (R.meaning self.now.register.now) link) }
        ensures words { out.new ≡ spliced at (row_words (R.meaning self.now.register.now) link) out.old }
    {
        let Some((from, to)) = self.register.ends(link) else {
            // Only a broken link has no ends.
            return at;
        };
        let n = self.register.count(from);
        put(out, at, Tag::RegisterLink, from * 256 + to);
        put_records(self.register, link, n, out, at + 1);
        at + 1 + n as usize
    }

    // Puts the links; tells the place behind them.
    fn put_links(&self, out: &mut [u32], at: usize) -> usize
        requires { at + length (links_words (R.meaning self.now.register.now) (R.meaning self.now.register.now).links) ≤ length out.old }
        ensures next { result ≡ at + length (links_words (R.meaning self.now.register.now) (R.meaning self.now.register.now).links) }
        ensures words { out.new ≡ spliced at (links_words (R.meaning self.now.register.now) (R.meaning self.now.register.now).links) out.old }
    {
        let mut next = at;
        for link in 0..self.register.links() {
            next = self.put_link(link, out, next);
        }
        next
    }

    // Puts the whole file at the front; tells how many words.
    pub(crate) fn put_file(&self, out: &mut [u32]) -> usize
        requires { length (file_words (R.meaning self.now.register.now)) ≤ length out.old }
        ensures size { result ≡ length (file_words (R.meaning self.now.register.now)) }
        ensures words { out.new ≡ file_words (R.meaning self.now.register.now) ++ drop (length (file_words (R.meaning self.now.register.now))) out.old }
    {
        let kinds = self.register.kinds();
        put(out, 0, Tag::Register, kinds);
        self.put_counts(out);
        let next = self.put_links(out, 1 + kinds as usize);
        put(out, next, Tag::End, next as u32);
        next + 1
    }
}
