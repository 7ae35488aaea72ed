// A register file with blanks comes in as bytes, and goes out without them.
ghost use Rattle.std.specs.Prelude.{◌≡◌, ◌*◌, ◌≤◌, ◌++◌, length, take, drop, IfOk};
ghost use Rattle.streams.specs.Order.{bytes_of};
ghost use Rattle.streams.specs.Sending.{held as held_of, sent};
ghost use Rattle.streams.specs.Unblank.{answer, Rewritten, Unblanks};

use crate::bytes::{to_bytes, to_words};
use registers::blank::Blank;
use registers::held::Held;
use registers::writing::write;
use words::faults::{Fault, WordFault};

// The longest input and output, and as words.
pub const BYTES: usize = 32768;

pub const WORDS: usize = 8192;

// Reads the register through `words`, and writes it without its blanks to the front of `kept`; tells how many words.
// What else the work words hold afterwards is left open.
fn unblanked(
    input: &[u8],
    words: &mut [u32; WORDS],
    kept: &mut [u32; WORDS],
) -> Result<usize, Fault>
    ensures room { IfOk result (λ n. n ≤ 8192) }
    ensures answer { held_of result kept.new ≡ answer input.now }
    ensures files { IfOk result (λ n. Rewritten input.now (take n kept.new)) }
{
    if input.len() > BYTES {
        return Err(WordFault::Limit(WORDS).into());
    }
    let count = to_words(input, words);
    let mut held = Held::new();
    held.take(&words[..count])?;
    let count = write(&Blank::over(held), kept)?;
    Ok(count)
}

// The answer to the input at the front of the output; tells how many bytes.
pub fn unblank(
    input: &[u8],
    words: &mut [u32; WORDS],
    kept: &mut [u32; WORDS],
    output: &mut [u8; BYTES],
) -> usize
    ensures room { result ≤ 32768 }
    ensures count { result ≡ 4 * length (sent (answer input.now)) }
    ensures bytes { output.new ≡ bytes_of (sent (answer input.now)) ++ drop result output.old }
    ensures files { Unblanks input.now (take result output.new) }
{
    match unblanked(input, words, kept) {
        Ok(count) => to_bytes(&kept[..count], output),
        Err(fault) => to_bytes(&[fault.word()], output),
    }
}
