// The reader of register files.
#![tactic(auto)]

ghost use Rattle.std.specs.Prelude.{◌≡◌, ◌+◌, ◌-◌, ◌<◌, ◌≤◌, length, slice_index};
ghost use Rattle.register_files.specs.Register.{count as count_of, counted as counted_of, link as link_of, landing as landing_of, span, counts_of, links_of, landings_of, read};
ghost use Rattle.words.specs.Items.{one_word, run, sized, behind, ended, outlined as outlined_of};
ghost use Rattle.register_files.specs.Outline.{Counted, counts_got, outline_of};
ghost use Rattle.register_files.specs.Layout.{ReadsLayouts};
ghost use Rattle.register_files.specs.Shown.{shown, told as told_of};

use bounded::Bounded;
use words::faults::{SchemaFault, WordFault};
use words::reading::{end, fields_at, starts, word};
use words::tags::Tag;

// How many kinds, links and landings words a register file may have.
const KINDS: u32 = 32;

pub const LINKS: usize = 64;

const LANDINGS: u32 = 32;

// One record word, which names one of that many records.
fn counted(words: &[u32], at: usize, size: u32) -> Result<u32, SchemaFault>
    ensures { result ≡ counted_of size words.now at }
{
    let v = word(words, at, Tag::Record)?;
    if v >= size {
        return Err(SchemaFault::Unknown(at));
    }
    Ok(v)
}

// A run of record words; tells the place behind them.
fn records(words: &[u32], at: usize, n: u32, size: u32) -> Result<usize, SchemaFault>
    requires { at ≤ length words.now }
    ensures { result ≡ ended one_word at (run (counted_of size words.now) n at) }
{
    let last = at + n as usize;
    for place in at..last {
        let _ = counted(words, place, size)?;
    }
    Ok(last)
}

// A run of counts behind the first word.
fn counts(words: &[u32], n: u32) -> Result<usize, SchemaFault>
    requires { 0 < length words.now }
    ensures { result ≡ ended one_word 1 (run (count_of words.now) n 1) }
{
    let last = 1 + n as usize;
    for place in 1..last {
        let _ = word(words, place, Tag::Count)?;
    }
    Ok(last)
}

// The kinds, with their counts behind them.
fn kinds(words: &[u32]) -> Result<u32, SchemaFault>
    ensures { result ≡ sized (counts_of words.now) }
{
    let n = word(words, 0, Tag::Register)?;
    if n > KINDS {
        return Err(WordFault::Limit(0).into());
    }
    let _ = counts(words, n)?;
    Ok(n)
}

// Words whose head was read: the kinds and their counts.
#[derive(Clone, Copy)]
struct Headed<'a> {
    words: &'a [u32],
    kinds: u32,
    ghost counted: { Counted words.now kinds },
}

impl<'a> Headed<'a> {
    // The count of a kind.
    fn count(&self, kind: u32) -> u32
        requires { kind < self.now.kinds }
        ensures { result ≡ slice_index (counts_got self.now.words.now) kind }
    {
        fields_at(self.words, 1 + kind as usize)
    }

    // A link and its records, where there is room for one; tells the place behind them.
    fn link(&self, room: usize, at: usize) -> Result<usize, SchemaFault>
        ensures { result ≡ behind span at (link_of (counts_got self.now.words.now) self.now.words.now room at) }
    {
        let v = word(self.words, at, Tag::RegisterLink)?;
        if room == 0 {
            return Err(WordFault::Limit(at).into());
        }
        if v / 256 >= self.kinds || v % 256 >= self.kinds {
            return Err(SchemaFault::Unknown(at));
        }
        let n = self.count(v / 256);
        let size = self.count(v % 256);
        records(self.words, at + 1, n, size)
    }

    // The landings of a source kind, where there is room for them; tells the place behind them.
    fn landing(&self, source: u32, at: usize) -> Result<usize, SchemaFault>
        ensures { result ≡ behind span at (landing_of (counts_got self.now.words.now) self.now.words.now (32 - source) at) }
    {
        let v = word(self.words, at, Tag::Landings)?;
        if source >= LANDINGS {
            return Err(WordFault::Limit(at).into());
        }
        if v / 256 % 256 != source || v % 256 >= self.kinds {
            return Err(SchemaFault::Unknown(at));
        }
        let size = self.count(v % 256);
        records(self.words, at + 1, v / 65536, size)
    }

    // Where the links stand, and the place behind the last.
    // The same loop as that of a problem's rules, and no function over a closure: the proof of each is about its own reader.
    fn links(&self) -> Result<(Bounded<usize, LINKS>, usize), SchemaFault>
        ensures { shown result ≡ outlined_of span (1 + self.now.kinds) (links_of (counts_got self.now.words.now) self.now.words.now) }
    {
        let mut at = 1 + self.kinds as usize;
        let mut places = Bounded::new(0);
        while starts(self.words, at, Tag::RegisterLink) {
            let next = self.link(LINKS - places.len(), at)?;
            places.push(at);
            at = next;
        }
        Ok((places, at))
    }

    fn landings(&self, start: usize) -> Result<usize, SchemaFault>
        ensures { result ≡ ended span start (landings_of (counts_got self.now.words.now) self.now.words.now start) }
    {
        // Counted by hand, since landings have many sizes: where they stand does not say how many there were.
        let mut at = start;
        let mut source = 0;
        while starts(self.words, at, Tag::Landings) {
            at = self.landing(source, at)?;
            source += 1;
        }
        Ok(at)
    }
}

// A register file that was read through: its kinds, and where each of its links stands.
#[derive(Clone, Copy)]
pub struct Outline {
    pub kinds: u32,
    pub links: Bounded<usize, LINKS>,
}

// Reads a register file through, or tells the first fault.
fn outlined(words: &[u32]) -> Result<Outline, SchemaFault>
    ensures { told_of result ≡ outline_of (read words.now) }
{
    let kinds = kinds(words)?;
    let read = Headed { words, kinds };
    let (links, next) = read.links()?;
    let last = read.landings(next)?;
    let _ = end(words, last)?;
    Ok(Outline { kinds, links })
}

// Reads a register file. It accepts exactly the words that are the layout of a well-formed file.
pub fn read_register(words: &[u32]) -> Result<Outline, SchemaFault>
    ensures told { told_of result ≡ outline_of (read words.now) }
    ensures laid { ReadsLayouts }
{
    outlined(words)
}
