ghost use Rattle.std.specs.Prelude.{◌≡◌, ◌+◌, length};
ghost use Rattle.bounded.specs.Listed.{listed};
ghost use Rattle.words.specs.Items.{places as places_of};
ghost use Rattle.register_files.specs.Register.{span};
ghost use Rattle.registers.specs.Meaning.{Lawful, file, answers};
ghost use Rattle.registers.specs.Laws.{lawful_prop};

use register_files::Outline;

pub mod calls;

// A register file, held without copying.
#[derive(Clone, Copy)]
pub struct Held<'a> {
    words: &'a [u32],
    outline: Outline,
    ghost kinded: { outline.kinds ≡ length (file words.now).counts },
    ghost placed: { listed outline.links ≡ places_of span (1 + outline.kinds) (file words.now).links },
    ghost lawful: { Lawful (answers (file words.now)) } by { lawful_prop (answers (file words.now)) },
}
