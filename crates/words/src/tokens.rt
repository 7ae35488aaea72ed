// A word as a token: its fields by name, and its path as a part of the words.
ghost use Rattle.std.specs.Prelude.{◌≡◌, ◌<◌, length};
ghost use Rattle.words.specs.Tokens.{told as told_of, token_of, token as read_token};

use crate::faults::WordFault;
use crate::reading::word;
use crate::tags::Tag;

// One token for each layout of a word. A path is the part of the words that holds its steps.
#[derive(Clone, Copy)]
pub enum Token<'a> {
    Schema {
        // The number, and no side: a token shows the word as it is, whatever its side says.
        side: u32,
        kinds: u32,
    },
    Link {
        from: u32,
        to: u32,
    },
    Rule {
        first: u32,
        left: &'a [u32],
        right: &'a [u32],
        place: usize,
    },
    Step(u32),
    KindMap {
        source: u32,
        target: u32,
    },
    LinkMap {
        link: u32,
        path: &'a [u32],
        place: usize,
    },
    End(u32),
    Register(u32),
    Count(u32),
    RegisterLink {
        from: u32,
        to: u32,
    },
    Record(u32),
    Landings {
        records: u32,
        source: u32,
        target: u32,
    },
    Fault {
        layer: u32,
        number: u32,
        place: u32,
    },
}

// That a word stands at `at` is a condition of the next three, and no type: the word was read before, so `token_at` has tested it.

// A rule and its two paths, if all their words are there.
fn rule_token<'a>(words: &'a [u32], at: usize, v: u32) -> Result<Token<'a>, WordFault>
    requires { at < length words.now }
    ensures { told_of result ≡ token_of Tag.Rule words.now at v }
{
    let n = (v / 256 % 256) as usize;
    let m = (v % 256) as usize;
    let missing = WordFault::Missing(words.len());
    let left = words[at + 1..].get(..n).ok_or(missing)?;
    let right = words[at + 1 + n..].get(..m).ok_or(missing)?;
    Ok(Token::Rule {
        first: v / 65536,
        left,
        right,
        place: at,
    })
}

// A link map and its path, if all its words are there.
fn map_token<'a>(words: &'a [u32], at: usize, v: u32) -> Result<Token<'a>, WordFault>
    requires { at < length words.now }
    ensures { told_of result ≡ token_of Tag.LinkMap words.now at v }
{
    let n = (v % 256) as usize;
    let missing = WordFault::Missing(words.len());
    let path = words[at + 1..].get(..n).ok_or(missing)?;
    Ok(Token::LinkMap {
        link: v / 256,
        path,
        place: at,
    })
}

// The token of a tag with those fields.
fn fields_token<'a>(words: &'a [u32], at: usize, tag: Tag, v: u32) -> Result<Token<'a>, WordFault>
    requires { at < length words.now }
    ensures { told_of result ≡ token_of tag words.now at v }
{
    match tag {
        Tag::Schema => Ok(Token::Schema {
            side: v / 256,
            kinds: v % 256,
        }),
        Tag::Link => Ok(Token::Link {
            from: v / 256,
            to: v % 256,
        }),
        Tag::Rule => rule_token(words, at, v),
        Tag::Step => Ok(Token::Step(v)),
        Tag::KindMap => Ok(Token::KindMap {
            source: v / 256,
            target: v % 256,
        }),
        Tag::LinkMap => map_token(words, at, v),
        Tag::End => Ok(Token::End(v)),
        Tag::Register => Ok(Token::Register(v)),
        Tag::Count => Ok(Token::Count(v)),
        Tag::RegisterLink => Ok(Token::RegisterLink {
            from: v / 256,
            to: v % 256,
        }),
        Tag::Record => Ok(Token::Record(v)),
        Tag::Landings => Ok(Token::Landings {
            records: v / 65536,
            source: v / 256 % 256,
            target: v % 256,
        }),
        Tag::Fault => Ok(Token::Fault {
            layer: v / 16777216,
            number: v / 65536 % 256,
            place: v % 65536,
        }),
    }
}

// The token whose word stands at a place.
pub fn token_at<'a>(words: &'a [u32], at: usize) -> Result<Token<'a>, WordFault>
    ensures { told_of result ≡ read_token words.now at }
{
    let first = words.get(at).ok_or(WordFault::Missing(at))?;
    let tag = Tag::try_from(first / 268435456).map_err(|_| WordFault::Wrong(at))?;
    let fields = word(words, at, tag)?;
    fields_token(words, at, tag, fields)
}
