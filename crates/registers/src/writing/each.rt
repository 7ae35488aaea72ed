// Words of one tag, one behind another.
ghost use Rattle.std.specs.Prelude.{ℕ, ◌≡◌, ◌+◌, ◌<◌, ◌≤◌, map, length};
ghost use Rattle.words.specs.Tags.{tagged};
ghost use Rattle.registers.specs.Writing.{upto};
ghost use Rattle.registers.specs.Splices.{spliced};
ghost use Rattle.registers.specs.Parts.{Told};

use crate::writing::parts::put;
use words::tags::Tag;

// Puts `n` words of one tag; `fields` tells what each holds.
pub fn put_each<F: Fn(u32) -> u32>(out: &mut [u32], at: usize, tag: Tag, n: u32, fields: F)
    requires room { at + n ≤ length out.old }
    requires asked { (i : ℕ) → i < n → F.pre fields i }
    requires small { (i v : ℕ) → i < n → F.post fields i v → v < 268435456 }
    ensures { (f : ℕ → ℕ) → Told (F.post fields) n f → out.new ≡ spliced at (map (tagged tag) (upto f n)) out.old }
{
    // By the number: each word goes through `put`, which says what the whole output then holds.
    for i in 0..n {
        put(out, at + i as usize, tag, fields(i));
    }
}
