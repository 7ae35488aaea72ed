// The register file of a numbered table, written part by part.
ghost use Rattle.std.specs.Prelude.{◌≡◌, ◌+◌, ◌<◌, ◌≤◌, ◌++◌, length, drop};
ghost use Rattle.registers.specs.Splices.{spliced};
ghost use Rattle.rows.specs.Layout.{count};
ghost use Rattle.rows.specs.View.{raw};
ghost use Rattle.finishing.specs.Records.{appended, landing_part};
ghost use Rattle.finishing.specs.Written.{link_part, file_words};
ghost use Rattle.finishing.specs.Listing.{Each};

use crate::Listing;
use crate::records::number_in;
use registers::writing::each::put_each;
use registers::writing::parts::put;
use rows::Slot;
use words::tags::Tag;

impl Listing<'_> {
    // Puts a link and its records; tells the place behind them.
    fn put_link(&self, l: u32, out: &mut [u32], at: usize) -> usize
        requires l_lt_links { l < self.now.rows.now.links }
        requires always { Each self.now (λ L s. at + length (link_part L s l) ≤ length out.old) }
        ensures next { Each self.now (λ L s. result ≡ at + length (link_part L s l)) }
        ensures words { Each self.now (λ L s. out.new ≡ spliced at (link_part L s l) out.old) }
    {
        let (from, to) = self.ends(l);
        put(out, at, Tag::RegisterLink, from * 256 + to);
        self.put_leads(from, l, out, at + 1);
        at + 1 + self.numbering.counts[from as usize] as usize
    }

    // Puts the links; tells the place behind them.
    // A loop that carries the place, as for the landings: only the call that puts a part tells where the next begins.
    fn put_links(&self, out: &mut [u32], at: usize) -> usize
        requires { Each self.now (λ L s. at + length (appended (link_part L s) self.now.rows.now.links) ≤ length out.old) }
        ensures next { Each self.now (λ L s. result ≡ at + length (appended (link_part L s) self.now.rows.now.links)) }
        ensures words { Each self.now (λ L s. out.new ≡ spliced at (appended (link_part L s) self.now.rows.now.links) out.old) }
    {
        let mut next = at;
        for l in 0..self.rows.links as u32 {
            next = self.put_link(l, out, next);
        }
        next
    }

    // Puts the landings of the source kind `k`; tells the place behind them.
    fn put_landing(&self, k: u32, out: &mut [u32], at: usize) -> usize
        requires k_lt_kinds { k < (raw self.now.rows.now).shape.kinds }
        requires k_in_bounds { at + 1 + count (raw self.now.rows.now).shape k ≤ length out.old }
        ensures next { result ≡ at + 1 + count (raw self.now.rows.now).shape k }
        ensures words { Each self.now (λ L s. out.new ≡ spliced at (landing_part (raw self.now.rows.now) (L.kind_map k) k) out.old) }
    {
        let rows = self.rows;
        let n = rows.source.kind(k).records;
        let to = rows.mapped(self.found, k);
        put(out, at, Tag::Landings, n * 65536 + k * 256 + to);
        put_each(out, at + 1, Tag::Record, n, |q| {
            number_in(rows, Slot::Landing(k, q))
        });
        at + 1 + n as usize
    }

    // Puts the landings; tells the place behind them.
    fn put_landings(&self, out: &mut [u32], at: usize) -> usize
        requires { at + (raw self.now.rows.now).shape.kinds + self.now.rows.now.records ≤ length out.old }
        ensures next { result ≡ at + (raw self.now.rows.now).shape.kinds + self.now.rows.now.records }
        ensures words { Each self.now (λ L s.
            out.new ≡ spliced at (appended (λ k. landing_part (raw self.now.rows.now) (L.kind_map k) k) (raw self.now.rows.now).shape.kinds) out.old) }
    {
        let mut next = at;
        for k in 0..self.found.source.kinds {
            next = self.put_landing(k, out, next);
        }
        next
    }

    // Puts the whole file at the front; tells how many words.
    pub(crate) fn put_file(&self, out: &mut [u32]) -> usize
        requires { Each self.now (λ L s. length (file_words L s) ≤ length out.old) }
        ensures size { Each self.now (λ L s. result ≡ length (file_words L s)) }
        ensures words { Each self.now (λ L s. out.new ≡ file_words L s ++ drop (length (file_words L s)) out.old) }
    {
        let kinds = self.found.target.kinds;
        put(out, 0, Tag::Register, kinds);
        let counts = &self.numbering.counts;
        put_each(out, 1, Tag::Count, kinds, |k| counts[k as usize]);
        let next = self.put_links(out, 1 + kinds as usize);
        let end = self.put_landings(out, next);
        put(out, end, Tag::End, end as u32);
        end + 1
    }
}
