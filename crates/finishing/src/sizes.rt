// How many words the register file of a numbered table takes.
ghost use Rattle.std.specs.Prelude.{◌≡◌, ◌<◌, ◌≤◌, length};
ghost use Rattle.finishing.specs.Records.{appended};
ghost use Rattle.finishing.specs.Written.{link_part, file_words};
ghost use Rattle.finishing.specs.Listing.{Each};

use crate::Listing;

impl Listing<'_> {
    // The ends of the target link `l`.
    pub(crate) fn ends(&self, l: u32) -> (u32, u32)
        requires { l < self.now.rows.now.links }
        ensures known { Each self.now (λ L s. (L.from l ≡ result.0) × (L.to l ≡ result.1)) }
        ensures small { (result.0 < 32) × (result.1 < 32) }
    {
        self.rows.link_ends(self.found, l)
    }

    // The words of a link.
    fn link_size(&self, l: u32) -> usize
        requires { l < self.now.rows.now.links }
        ensures words { Each self.now (λ L s. result ≡ length (link_part L s l)) }
        ensures fits { result ≤ 4294967296 }
    {
        let (from, _) = self.ends(l);
        1 + self.numbering.counts[from as usize] as usize
    }

    // Of all links.
    // A loop and no `sum`: the lemmas on a sum ask what each call returns at every number, and only a link that there is has a size.
    fn links_size(&self) -> usize
        ensures words { Each self.now (λ L s. result ≡ length (appended (link_part L s) self.now.rows.now.links)) }
        ensures fits { result ≤ 274877906944 }
    {
        let mut total = 0;
        for l in 0..self.rows.links as u32 {
            total += self.link_size(l);
        }
        total
    }

    // Of the file.
    pub(crate) fn size(&self) -> usize
        ensures { Each self.now (λ L s. result ≡ length (file_words L s)) }
    {
        let kinds = self.found.target.kinds as usize;
        let rows = self.rows;
        let landings = rows.source.len() + rows.records;
        kinds + self.links_size() + landings + 2
    }
}
