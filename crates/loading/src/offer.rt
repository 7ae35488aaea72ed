// What a load is offered, and what is tested of it before it is taken.
ghost use Rattle.std.specs.Prelude.{◌≡◌, ◌<◌, length, take, Some};
ghost use Rattle.registers.specs.Meaning.{Lawful};
ghost use Rattle.registers.specs.Writing.{some_below, lowest, upto};
ghost use Rattle.machine.specs.Loading.{source_link, other_ends, other_shape, link_strays};
ghost use Rattle.loading.specs.LoadedWords.{problem_in, Sourced, leaving};

use problems::Schema;
use registers::register::Register;
use registers::writing::checks::strays;
use std::array::from_fn;

// The words of an accepted problem with its source schema, and the source that is to fill it.
#[derive(Drop)]
pub(crate) struct Offer<'w, 's, R> {
    pub problem: &'w [u32],
    pub schema: Schema,
    pub source: &'s R,
    ghost sourced: { Sourced problem.now schema },
}

impl<R: Register> Offer<'_, '_, R> {
    // The ends of a source link.
    fn ends(&self, link: u32) -> Option<(u32, u32)>
        ensures { link < self.now.schema.links → result ≡ Some ((source_link (problem_in self.now.problem.now) link).from, (source_link (problem_in self.now.problem.now) link).to) }
    {
        self.schema.ends(self.problem, link)
    }

    // How many records a source link leaves.
    pub(crate) fn leaving(&self, link: u32) -> u32
        ensures { link < self.now.schema.links → result ≡ leaving (problem_in self.now.problem.now) (R.meaning self.now.source.now).count link }
    {
        self.ends(link)
            .map_or(0, |(from, _)| self.source.count(from))
    }

    // How many records each source kind has.
    pub(crate) fn counts(&self) -> [u32; 32]
        ensures { take self.now.schema.kinds result ≡ upto (R.meaning self.now.source.now).count self.now.schema.kinds }
    {
        from_fn(|kind| {
            if (kind as u32) < self.schema.kinds {
                self.source.count(kind as u32)
            } else {
                0
            }
        })
    }

    // How many records each source link leaves.
    pub(crate) fn leavings(&self) -> [u32; 64]
        ensures { take self.now.schema.links result ≡ upto (leaving (problem_in self.now.problem.now) (R.meaning self.now.source.now).count) self.now.schema.links }
    {
        from_fn(|link| self.leaving(link as u32))
    }

    // Whether the source's link has other ends than the schema's.
    fn other_ends(&self, link: u32) -> bool
        ensures { link < self.now.schema.links → result ≡ other_ends (source_link (problem_in self.now.problem.now) link) ((R.meaning self.now.source.now).ends link) }
    {
        self.source.ends(link) != self.ends(link)
    }

    // Whether some link of the source has other ends.
    fn some_other_ends(&self) -> bool
        ensures { result ≡ some_below (λ i. other_ends (source_link (problem_in self.now.problem.now) i) ((R.meaning self.now.source.now).ends i)) (length (problem_in self.now.problem.now).source_links) }
    {
        (0..self.schema.links as u32).any(|link| self.other_ends(link))
    }

    // Whether the source has other kinds, links or ends than the schema.
    pub(crate) fn other_shape(&self) -> bool
        ensures answer { result ≡ other_shape (problem_in self.now.problem.now) (R.meaning self.now.source.now) }
        ensures lawful { Lawful (R.meaning self.now.source.now) }
    {
        self.source.kinds() != self.schema.kinds
            || self.source.links() as usize != self.schema.links
            || self.some_other_ends()
    }

    // Whether a record that the link leaves does not lead to one where it ends.
    fn link_strays(&self, link: u32) -> bool
        ensures { link < self.now.schema.links → result ≡ link_strays (problem_in self.now.problem.now) (R.meaning self.now.source.now) link }
    {
        self.ends(link)
            .is_some_and(|(from, to)| strays(self.source, link, from, to))
    }

    // The lowest link that strays.
    pub(crate) fn lowest_stray(&self) -> Option<u32>
        ensures { result ≡ lowest (link_strays (problem_in self.now.problem.now) (R.meaning self.now.source.now)) (length (problem_in self.now.problem.now).source_links) }
    {
        (0..self.schema.links as u32).find(|link| self.link_strays(*link))
    }
}
