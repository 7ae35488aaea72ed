// One word, read by its tag; and the end of a file.
ghost use Rattle.std.specs.Prelude.{◌≡◌, slice_index};
ghost use Rattle.words.specs.Words.{word as word_of, fields, starts as starts_of, end as end_of};

use crate::faults::WordFault;
use crate::tags::Tag;

// The fields of the word at a place, which has that tag and no bit without a field.
pub fn word(words: &[u32], at: usize, tag: Tag) -> Result<u32, WordFault>
    ensures { result ≡ word_of tag words.now at }
{
    let word = words.get(at).ok_or(WordFault::Missing(at))?;
    let value = word % 268435456;
    if word / 268435456 != tag.number() || value >= tag.size() {
        return Err(WordFault::Wrong(at));
    }
    Ok(value)
}

// The fields of the word at a place, 0 behind the last.
pub fn fields_at(words: &[u32], at: usize) -> u32
    ensures { result ≡ fields (slice_index words.now at) }
{
    words.get(at).map_or(0, |word| word % 268435456)
}

// Whether the word at a place has that tag.
pub fn starts(words: &[u32], at: usize, tag: Tag) -> bool
    ensures { result ≡ starts_of tag words.now at }
{
    words
        .get(at)
        .is_some_and(|word| word / 268435456 == tag.number())
}

// The end of a file, which counts the words before it; tells its place.
pub fn end(words: &[u32], at: usize) -> Result<usize, WordFault>
    ensures { result ≡ end_of words.now at }
{
    let n = word(words, at, Tag::End)?;
    if n as usize != at {
        return Err(WordFault::Wrong(at));
    }
    if words.len() != at + 1 {
        return Err(WordFault::Wrong(at + 1));
    }
    Ok(at)
}
