// The tags of words on file.
ghost use Rattle.std.specs.Prelude.{◌≡◌, ◌++◌, Some, codes, decimal};
ghost use Rattle.words.specs.Tags.{number as number_of, size as size_of, tag_from};

use std::error::Error;
use std::fmt;

// What a word is; bits 31 to 28 hold its number.
#[derive(Clone, Copy, PartialEq, Eq, Debug)]
pub enum Tag {
    Schema = 1,
    Link = 2,
    Rule = 3,
    Step = 4,
    KindMap = 5,
    LinkMap = 6,
    End = 7,
    Register = 8,
    Count = 9,
    RegisterLink = 10,
    Record = 11,
    Landings = 12,
    Fault = 15,
}

impl Tag {
    // The number in bits 31 to 28.
    pub fn number(self) -> u32
        ensures { result ≡ number_of self }
    {
        self as u32
    }

    // The fields lie below this; a bit without a field is zero.
    pub fn size(self) -> u32
        ensures { result ≡ size_of self }
    {
        match self {
            Tag::Step | Tag::Register => 256,
            Tag::Rule => 16777216,
            Tag::End | Tag::Landings | Tag::Fault => 268435456,
            _ => 65536,
        }
    }
}

// A number that no tag has.
#[derive(Clone, Copy, PartialEq, Eq, Debug)]
pub struct UnknownTag(pub u32);

impl fmt::Display for UnknownTag {
    ghost output = { λ e. Some (codes "no tag has number " ++ decimal e.0) };

    fn fmt<W: fmt::Write>(&self, f: &mut fmt::Formatter<W>) -> fmt::Result {
        write!(f, "no tag has number {}", self.0)
    }
}

impl Error for UnknownTag {}

impl TryFrom<u32> for Tag {
    type Error = UnknownTag;

    ghost try_from_gives = { λ n r. r ≡ tag_from n };

    fn try_from(number: u32) -> Result<Tag, UnknownTag> {
        match number {
            1 => Ok(Tag::Schema),
            2 => Ok(Tag::Link),
            3 => Ok(Tag::Rule),
            4 => Ok(Tag::Step),
            5 => Ok(Tag::KindMap),
            6 => Ok(Tag::LinkMap),
            7 => Ok(Tag::End),
            8 => Ok(Tag::Register),
            9 => Ok(Tag::Count),
            10 => Ok(Tag::RegisterLink),
            11 => Ok(Tag::Record),
            12 => Ok(Tag::Landings),
            15 => Ok(Tag::Fault),
            _ => Err(UnknownTag(number)),
        }
    }
}
