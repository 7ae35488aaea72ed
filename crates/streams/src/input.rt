// Reading an input to its end, or until a buffer is full.
ghost use Rattle.std.specs.Prelude.{◌<◌, ◌≤◌, length, take, IfOk};
ghost use Rattle.std.specs.Io.KnownBytes.{Consumes, IsAtEnd};

use std::io;
use std::io::Read;

// One byte more than is taken, so that a longer input is seen.
pub const LONG: usize = 32769;

// Reads until the buffer is full or the input ends; tells how many bytes. Each turn but the last reads at least one.
pub fn fill<R: Read>(from: &mut R, buffer: &mut [u8]) -> io::Result<usize>
    ensures room { IfOk result (λ n. n ≤ length buffer.old) }
    ensures bytes { IfOk result (λ n. Consumes (R.remaining from.old) (R.remaining from.new) (take n buffer.new)) }
    ensures end { IfOk result (λ n. n < length buffer.old → IsAtEnd (R.remaining from.new)) }
{
    let mut count = 0;
    for _ in 0..buffer.len() {
        let got = from.read(&mut buffer[count..])?;
        if got == 0 {
            break;
        }
        count += got;
    }
    Ok(count)
}
