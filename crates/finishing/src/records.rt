// The record words of links and landings.
ghost use Rattle.std.specs.Prelude.{◌≡◌, ◌+◌, ◌<◌, ◌≤◌, length};
ghost use Rattle.registers.specs.Splices.{spliced};
ghost use Rattle.rows.specs.View.{raw, slot};
ghost use Rattle.finishing.specs.Records.{appended, number_in, Numbered, lead_word, Led};

use crate::Listing;
use numbering::MARK;
use registers::writing::parts::put;
use rows::{Rows, Slot};
use words::tags::Tag;

// The number of the entry that the slot `t` holds.
pub(crate) fn number_in(rows: &Rows, t: Slot) -> u32
    requires { Numbered (raw rows.now) (slot t) }
    ensures is { result ≡ number_in (raw rows.now) (slot t) }
    ensures fits { result < 65536 }
{
    match rows.held(t) {
        Some(w) => rows.read(w as usize, 1) - MARK,
        None => 0,
    }
}

// Puts the record word of the `i`-th entry at a link, if it has the kind `from`; tells the place behind it.
fn put_lead(rows: &Rows, from: u32, link: u32, i: usize, out: &mut [u32], at: usize) -> usize
    requires led { Led (raw rows.now) from link (i + 1) }
    requires i_in_bounds { at + length (lead_word (raw rows.now) from link i) ≤ length out.old }
    ensures next { result ≡ at + length (lead_word (raw rows.now) from link i) }
    ensures words { out.new ≡ spliced at (lead_word (raw rows.now) from link i) out.old }
{
    let e = rows.read(i, 2);
    if rows.kind(e) != from {
        return at;
    }
    let n = number_in(rows, Slot::Cell(e, link));
    put(out, at, Tag::Record, n);
    at + 1
}

impl Listing<'_> {
    // Puts the record words of a link that leaves the kind `from`.
    // A loop that carries the place: only the call that puts a record tells whether it took one.
    pub(crate) fn put_leads(&self, from: u32, link: u32, out: &mut [u32], at: usize)
        requires led { Led (raw self.now.rows.now) from link self.now.numbering.now.met }
        requires met_in_bounds { at + length (appended (lead_word (raw self.now.rows.now) from link) self.now.numbering.now.met) ≤ length out.old }
        ensures { out.new ≡ spliced at (appended (lead_word (raw self.now.rows.now) from link) self.now.numbering.now.met) out.old }
    {
        let mut next = at;
        for i in 0..self.numbering.met {
            next = put_lead(self.rows, from, link, i, out, next);
        }
    }
}
