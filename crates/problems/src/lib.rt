// The reader of problem files: two schemas, rules, kind maps and link maps.
#![tactic(auto)]

ghost use Rattle.std.specs.Prelude.{◌≡◌, Ok};
ghost use Rattle.bounded.specs.Listed.{listed};
ghost use Rattle.problems.specs.Problem.{behind_schemas, read as read_of};
ghost use Rattle.problems.specs.Seen.{ends_of};
ghost use Rattle.problems.specs.Held.{words_in, whole};
ghost use Rattle.problems.specs.Layout.{ReadsLayouts, ReadsOnce};
ghost use Rattle.problems.specs.Accepts.{Laid};
ghost use Rattle.problems.specs.Tokens.{shown_token, token_in, rule_token, map_token};
ghost use Rattle.problems.specs.Shown.{told as told_of, outline_from, outline_of};

mod maps;
mod rules;
mod schemas;

use crate::maps::{Maps, Sides};
use crate::schemas::{Links, Side, ends_at, schema_at};
use bounded::Bounded;
use words::faults::SchemaFault;
use words::reading::end;
use words::tokens::{Token, token_at};

// How many kinds and links a schema may have, rules a problem, and steps a path.
const KINDS: u32 = 32;

const LINKS: usize = 64;

const RULES: usize = 128;

const STEPS: u32 = 64;

// A schema that was read: its kinds, how many links it has, and the place of the first.
#[derive(Clone, Copy)]
pub struct Schema {
    pub kinds: u32,
    pub links: usize,
    pub place: usize,
}

impl Schema {
    // The ends of a link, as the word at its place says; none of a link that there is not.
    pub fn ends(self, words: &[u32], link: u32) -> Option<(u32, u32)>
        ensures { result ≡ ends_of self words.now link }
    {
        if link as usize >= self.links {
            return None;
        }
        Some(ends_at(words, self.place.saturating_add(link as usize)))
    }
}

// A problem file that was read through: its schemas, and where its rules and maps stand.
#[derive(Clone, Copy)]
pub struct Found {
    pub source: Schema,
    pub target: Schema,
    pub rules: Bounded<usize, RULES>,
    pub maps: usize,
    pub link_maps: Bounded<usize, LINKS>,
}

// What stands behind the schemas.
fn rest(sides: &Sides, start: usize) -> Result<Found, SchemaFault>
    ensures { told_of result ≡ outline_from sides.now.source.schema sides.now.target.schema start (behind_schemas (words_in sides.now) (whole sides.now.source) (whole sides.now.target) start) }
{
    let (rules, place) = sides.target.rules(start)?;
    let next = sides.kind_maps(place)?;
    let maps = Maps {
        sides: *sides,
        place,
    };
    let (link_maps, last) = maps.link_maps(next)?;
    end(sides.source.words, last)?;
    Ok(Found {
        source: sides.source.schema,
        target: sides.target.schema,
        rules,
        maps: place,
        link_maps,
    })
}

// The parts of a problem file, one after another.
fn read(words: &[u32]) -> Result<Found, SchemaFault>
    ensures { told_of result ≡ outline_of (read_of words.now) }
{
    let source = schema_at(words, Side::Source, 0)?;
    let target = schema_at(words, Side::Target, source.place + source.links)?;
    let sides = Sides {
        source: Links {
            words,
            schema: source,
        },
        target: Links {
            words,
            schema: target,
        },
    };
    rest(&sides, target.place + target.links)
}

// Reads a problem file through, and tells the first fault.
// It is accepted exactly if its words are the layout of a well-formed problem.
pub fn read_problem(words: &[u32]) -> Result<Found, SchemaFault>
    ensures told { told_of result ≡ outline_of (read_of words.now) }
    ensures laid { Laid words.now result }
    ensures layouts { ReadsLayouts }
    ensures once { ReadsOnce }
{
    read(words)
}

// The token at the i-th of the places, unless it is refused.
fn token_in<'a>(words: &'a [u32], places: &[usize], i: usize) -> Option<Token<'a>>
    ensures { shown_token result ≡ token_in words.now places.now i }
{
    let at = *places.get(i)?;
    token_at(words, at).ok()
}

// The token of the rule of that number: its first kind, its two paths, its place.
pub fn rule_at<'a>(words: &'a [u32], found: &Found, i: usize) -> Option<Token<'a>>
    ensures stands { shown_token result ≡ token_in words.now (listed found.now.rules) i }
    ensures known { told_of (Ok found.now) ≡ outline_of (read_of words.now) → shown_token result ≡ rule_token (read_of words.now) i }
{
    token_in(words, found.rules.as_slice(), i)
}

// The token of the link map of that source link: its path, its place.
pub fn link_map_at<'a>(words: &'a [u32], found: &Found, i: usize) -> Option<Token<'a>>
    ensures stands { shown_token result ≡ token_in words.now (listed found.now.link_maps) i }
    ensures known { told_of (Ok found.now) ≡ outline_of (read_of words.now) → shown_token result ≡ map_token (read_of words.now) i }
{
    token_in(words, found.link_maps.as_slice(), i)
}
