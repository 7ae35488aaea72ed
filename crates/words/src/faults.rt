// Refusals: their numbers and layers, and the faults of the readers.
ghost use Rattle.std.specs.Prelude.{◌≡◌, Some};
ghost use Rattle.words.specs.declared.faults.SchemaFault.TheVariants.{Words};
ghost use Rattle.words.specs.Faults.{layer as layer_of, number as number_of, fault_word, word_fault, schema_fault, fault_of, reason, fault_text};

use crate::tags::Tag;
use std::error::Error;
use std::fmt;

// Why a call is refused. The whole table stands in docs/FORMAT.md.
#[derive(Clone, Copy, PartialEq, Eq, Debug)]
pub enum Refusal {
    State = 1,
    Missing = 2,
    Wrong = 3,
    Limit = 4,
    Unknown = 5,
    Unjoined = 6,
    Shape = 7,
    Large = 8,
    Leads = 9,
    Waiting = 10,
    NotLiving = 11,
    Filled = 12,
    Full = 13,
    NoneWaits = 14,
    Incomplete = 15,
    Memory = 16,
}

impl Refusal {
    pub fn number(self) -> u32
        ensures { result ≡ number_of self }
    {
        self as u32
    }

    pub fn layer(self) -> u32
        ensures { result ≡ layer_of self }
    {
        match self {
            Refusal::Missing | Refusal::Wrong | Refusal::Limit => 1,
            Refusal::Unknown | Refusal::Unjoined => 2,
            Refusal::Shape | Refusal::Large | Refusal::Leads => 3,
            _ => 4,
        }
    }

    // A refusal of what stands at that place.
    pub fn at(self, place: usize) -> Fault
        ensures { result ≡ fault_of self place }
    {
        Fault {
            refusal: self,
            place,
        }
    }
}

impl fmt::Display for Refusal {
    ghost output = { λ r. Some (reason r) };

    fn fmt<W: fmt::Write>(&self, f: &mut fmt::Formatter<W>) -> fmt::Result {
        f.write_str(match self {
            Refusal::State => "the table is loaded already, or not loaded",
            Refusal::Missing => "a word is missing",
            Refusal::Wrong => "a wrong tag, side, bit or end count, or a word after the end",
            Refusal::Limit => "a limit is passed",
            Refusal::Unknown => "an unknown or misordered number",
            Refusal::Unjoined => "a path does not join, or ends at a wrong kind",
            Refusal::Shape => "the register has another shape than the source schema",
            Refusal::Large => "the register has too many records",
            Refusal::Leads => "a link leads a record to nothing, or to an uncounted one",
            Refusal::Waiting => "an entry waits",
            Refusal::NotLiving => "an entry or a number that is not known",
            Refusal::Filled => "the place is filled already",
            Refusal::Full => "the table is full: work words for more entries are wanted",
            Refusal::NoneWaits => "nothing waits",
            Refusal::Incomplete => "the table is not complete: the budget is spent",
            Refusal::Memory => "there are too few words",
        })
    }
}

impl Error for Refusal {}

// A refusal and its place: a word's index in its file, a link, or 0.
#[derive(Clone, Copy, PartialEq, Eq, Debug)]
pub struct Fault {
    pub refusal: Refusal,
    pub place: usize,
}

impl Fault {
    // The fault as a word; a place above 65,535 is shown as that.
    pub fn word(self) -> u32
        ensures { result ≡ fault_word self }
    {
        let place = self.place.min(65535) as u32;
        Tag::Fault.number() * 268435456
            + self.refusal.layer() * 16777216
            + self.refusal.number() * 65536
            + place
    }
}

impl fmt::Display for Fault {
    ghost output = { λ f. Some (fault_text f) };

    fn fmt<W: fmt::Write>(&self, f: &mut fmt::Formatter<W>) -> fmt::Result {
        write!(
            f,
            "{} (number {}, layer {}, place {})",
            self.refusal,
            self.refusal.number(),
            self.refusal.layer(),
            self.place
        )
    }
}

impl Error for Fault {}

// One word at fault, with its index.
#[derive(Clone, Copy, PartialEq, Eq, Debug)]
pub enum WordFault {
    Missing(usize),
    Wrong(usize),
    Limit(usize),
}

// A fault of the words, or of what they say.
#[derive(Clone, Copy, PartialEq, Eq, Debug)]
pub enum SchemaFault {
    Words(WordFault),
    Unknown(usize),
    Unjoined(usize),
}

impl From<WordFault> for SchemaFault {
    ghost from_gives = { λ f r. r ≡ Words f };

    fn from(f: WordFault) -> SchemaFault {
        SchemaFault::Words(f)
    }
}

impl From<WordFault> for Fault {
    ghost from_gives = { λ f r. r ≡ word_fault f };

    fn from(f: WordFault) -> Fault {
        match f {
            WordFault::Missing(place) => Refusal::Missing.at(place),
            WordFault::Wrong(place) => Refusal::Wrong.at(place),
            WordFault::Limit(place) => Refusal::Limit.at(place),
        }
    }
}

impl From<SchemaFault> for Fault {
    ghost from_gives = { λ f r. r ≡ schema_fault f };

    fn from(f: SchemaFault) -> Fault {
        match f {
            SchemaFault::Words(w) => Fault::from(w),
            SchemaFault::Unknown(place) => Refusal::Unknown.at(place),
            SchemaFault::Unjoined(place) => Refusal::Unjoined.at(place),
        }
    }
}
