// The schemas of a problem file, and the links of one that was read.
ghost use Rattle.std.specs.Prelude.{◌≡◌, ◌<◌, ◌≤◌, length, slice_index_or};
ghost use Rattle.words.specs.Items.{one_word, sized, behind};
ghost use Rattle.problems.specs.Problem.{no_link, schema as schema_of, link as link_of, links as links_of, whole_schema};
ghost use Rattle.problems.specs.Sides.{side_number};
ghost use Rattle.problems.specs.Seen.{ends_at, Linked, seen, stepped, reached};

use crate::{KINDS, LINKS, Schema};
use words::faults::{SchemaFault, WordFault};
use words::reading::{fields_at, starts, word};
use words::tags::Tag;

// The side of a problem that a schema is on; its word holds the number.
#[derive(Clone, Copy)]
pub(crate) enum Side {
    Source = 0,
    Target = 1,
}

// The kinds of the schema of a side.
fn schema_kinds(words: &[u32], side: Side, at: usize) -> Result<u32, SchemaFault>
    ensures { result ≡ schema_of (side_number side) words.now at }
{
    let v = word(words, at, Tag::Schema)?;
    if v / 256 != side as u32 {
        return Err(WordFault::Wrong(at).into());
    }
    if v % 256 == 0 || v % 256 > KINDS {
        return Err(WordFault::Limit(at).into());
    }
    Ok(v % 256)
}

// A link, where there is room for one; tells the place behind it.
fn link(words: &[u32], kinds: u32, room: usize, at: usize) -> Result<usize, SchemaFault>
    ensures { result ≡ behind one_word at (link_of kinds words.now room at) }
{
    let v = word(words, at, Tag::Link)?;
    if room == 0 {
        return Err(WordFault::Limit(at).into());
    }
    if v / 256 >= kinds || v % 256 >= kinds {
        return Err(SchemaFault::Unknown(at));
    }
    Ok(at + 1)
}

// How many links a schema has.
fn count_links(words: &[u32], kinds: u32, start: usize) -> Result<usize, SchemaFault>
    ensures { result ≡ sized (links_of kinds words.now start) }
{
    // A loop, since a chain that counts cannot refuse a link.
    let mut at = start;
    while starts(words, at, Tag::Link) {
        at = link(words, kinds, LINKS - (at - start), at)?;
    }
    Ok(at - start)
}

// A schema and its links.
pub(crate) fn schema_at(words: &[u32], side: Side, at: usize) -> Result<Schema, SchemaFault>
    ensures { result ≡ seen at (whole_schema (side_number side) words.now at) }
{
    let kinds = schema_kinds(words, side, at)?;
    let links = count_links(words, kinds, at + 1)?;
    Ok(Schema {
        kinds,
        links,
        place: at + 1,
    })
}

// The ends that the word of a link says.
pub(crate) fn ends_at(words: &[u32], at: usize) -> (u32, u32)
    ensures { result ≡ ends_at words.now at }
{
    let fields = fields_at(words, at);
    (fields / 256, fields % 256)
}

// The links of a schema that was read, in the words where they stand.
#[derive(Clone, Copy)]
pub(crate) struct Links<'a> {
    pub(crate) words: &'a [u32],
    pub(crate) schema: Schema,
    ghost read: { Linked schema.kinds words.now schema.place schema.links },
    ghost few: { schema.links ≤ 64 },
}

impl Links<'_> {
    ghost use Rattle.problems.specs.Problem.{path as path_of};
    ghost use Rattle.problems.specs.Held.{links_in};

    // The ends of a link.
    pub(crate) fn ends(&self, link: u32) -> (u32, u32)
        requires { link < self.now.schema.links }
        ensures from { result.0 ≡ (slice_index_or (links_in self.now) link no_link).from }
        ensures to { result.1 ≡ (slice_index_or (links_in self.now) link no_link).to }
        ensures from_known { result.0 < self.now.schema.kinds }
        ensures to_known { result.1 < self.now.schema.kinds }
    {
        ends_at(self.words, self.schema.place + link as usize)
    }

    // A step leaves the kind reached; tells the kind that it leads to.
    fn step(&self, kind: u32, at: usize) -> Result<u32, SchemaFault>
        ensures { result ≡ stepped (links_in self.now) self.now.words.now kind at }
    {
        let g = word(self.words, at, Tag::Step)?;
        if g as usize >= self.schema.links {
            return Err(SchemaFault::Unknown(at));
        }
        let (from, to) = self.ends(g);
        if from != kind {
            return Err(SchemaFault::Unjoined(at));
        }
        Ok(to)
    }

    // A path from a kind; tells the kind reached.
    pub(crate) fn path(&self, n: u32, kind: u32, at: usize) -> Result<u32, SchemaFault>
        requires { at ≤ length self.now.words.now }
        ensures { result ≡ reached (path_of (links_in self.now) self.now.words.now n kind at) }
    {
        let mut here = kind;
        for place in at..at + n as usize {
            here = self.step(here, place)?;
        }
        Ok(here)
    }
}
