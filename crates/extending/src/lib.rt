// A problem and a register come in as bytes, and the register that the problem carries it to goes out.
#![tactic(auto)]

ghost use Rattle.std.specs.Prelude.{◌≡◌};
ghost use Rattle.extending.specs.Extend.{problem_size, PartedAt};

use words::tags::Tag;

// How many words the problem has: up to the first with the end tag, that one included, or all.
pub fn problem_size(words: &[u32]) -> usize
    ensures size { result ≡ problem_size words.now }
    ensures parted { PartedAt words.now result }
{
    words
        .iter()
        .position(|word| word / 268435456 == Tag::End.number())
        .map_or(words.len(), |at| at + 1)
}
