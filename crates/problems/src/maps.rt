// The kind maps and the link maps of a problem file.
ghost use Rattle.std.specs.Prelude.{◌≡◌, ◌-◌, ◌<◌, slice_index};
ghost use Rattle.words.specs.Items.{one_word, behind, outlined, ended};
ghost use Rattle.problems.specs.Problem.{path_size};
ghost use Rattle.problems.specs.Seen.{Mapped};
ghost use Rattle.problems.specs.Shown.{shown};

use crate::schemas::Links;
use crate::{LINKS, STEPS};
use bounded::Bounded;
use words::faults::{SchemaFault, WordFault};
use words::reading::{fields_at, word};
use words::tags::Tag;

// The links of both schemas, in the same words.
#[derive(Clone, Copy)]
pub(crate) struct Sides<'a> {
    pub(crate) source: Links<'a>,
    pub(crate) target: Links<'a>,
    ghost same: { target.words.now ≡ source.words.now },
}

impl Sides<'_> {
    ghost use Rattle.problems.specs.Held.{kind_mapped_in, kind_maps_in};

    // The kind map of a source kind; tells the place behind it.
    fn kind_map(&self, kind: u32, at: usize) -> Result<usize, SchemaFault>
        requires { kind < self.now.source.schema.kinds }
        ensures { result ≡ behind one_word at (kind_mapped_in self.now (self.now.source.schema.kinds - kind) at) }
    {
        let v = word(self.source.words, at, Tag::KindMap)?;
        if v / 256 != kind || v % 256 >= self.target.schema.kinds {
            return Err(SchemaFault::Unknown(at));
        }
        Ok(at + 1)
    }

    // The kind maps; tells the place behind them.
    pub(crate) fn kind_maps(&self, start: usize) -> Result<usize, SchemaFault>
        ensures { result ≡ ended one_word start (kind_maps_in self.now start) }
    {
        let n = self.source.schema.kinds;
        for kind in 0..n {
            let _ = self.kind_map(kind, start + kind as usize)?;
        }
        Ok(start + n as usize)
    }
}

// The schemas, and where the kind maps stand that were read.
#[derive(Clone, Copy)]
pub(crate) struct Maps<'a> {
    pub(crate) sides: Sides<'a>,
    pub(crate) place: usize,
    ghost read: { Mapped sides.source.schema.kinds sides.target.schema.kinds sides.source.words.now place },
}

impl Maps<'_> {
    ghost use Rattle.problems.specs.Held.{kinds_in, link_mapped_in, link_maps_in};

    // The target kind of a source kind.
    fn target_of(&self, kind: u32) -> u32
        requires { kind < self.now.sides.source.schema.kinds }
        ensures { result ≡ slice_index (kinds_in self.now) kind }
    {
        fields_at(self.sides.source.words, self.place + kind as usize) % 256
    }

    // The link map of a source link; tells the place behind it.
    fn link_map(&self, link: usize, at: usize) -> Result<usize, SchemaFault>
        requires { link < self.now.sides.source.schema.links }
        ensures { result ≡ behind path_size at (link_mapped_in self.now (self.now.sides.source.schema.links - link) at) }
    {
        let v = word(self.sides.source.words, at, Tag::LinkMap)?;
        let n = v % 256;
        if n > STEPS {
            return Err(WordFault::Limit(at).into());
        }
        let mapped = v / 256;
        if mapped as usize != link {
            return Err(SchemaFault::Unknown(at));
        }
        let (from, to) = self.sides.source.ends(mapped);
        let begin = self.target_of(from);
        let end = self.target_of(to);
        let last = self.sides.target.path(n, begin, at + 1)?;
        if last != end {
            return Err(SchemaFault::Unjoined(at + n as usize));
        }
        Ok(at + 1 + n as usize)
    }

    // Where the link maps stand, and the place behind the last.
    pub(crate) fn link_maps(
        &self,
        start: usize,
    ) -> Result<(Bounded<usize, LINKS>, usize), SchemaFault>
        ensures { shown result ≡ outlined path_size start (link_maps_in self.now start) }
    {
        let mut at = start;
        let mut places = Bounded::new(0);
        for link in 0..self.sides.source.schema.links {
            let next = self.link_map(link, at)?;
            places.push(at);
            at = next;
        }
        Ok((places, at))
    }
}
