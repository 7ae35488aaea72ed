// Words as bytes, four to a word, the most significant first.
ghost use Rattle.std.specs.Prelude.{◌≡◌, ◌+◌, ◌*◌, ◌/◌, ◌≤◌, min, ◌++◌, length, take, drop};
ghost use Rattle.streams.specs.Order.{bytes_of, word_at, words_of};

// The word at an index, of four bytes that are there.
fn word_at(bytes: &[u8], i: usize) -> u32
    requires { 4 * i + 4 ≤ length bytes.now }
    ensures { result ≡ word_at bytes.now i }
{
    let at = 4 * i;
    u32::from_be_bytes([bytes[at], bytes[at + 1], bytes[at + 2], bytes[at + 3]])
}

// Puts the first words of the bytes into all of `words`.
fn fill_words(bytes: &[u8], words: &mut [u32])
    requires { 4 * length words.old ≤ length bytes.now }
    ensures { words.new ≡ words_of bytes.now (length words.old) }
{
    for (i, word) in words.iter_mut().enumerate() {
        *word = word_at(bytes, i);
    }
}

// The whole words of the bytes, as many as there is room for; tells how many. A cut last word is left out.
pub fn to_words(bytes: &[u8], words: &mut [u32]) -> usize
    ensures count { result ≡ min (length bytes.now / 4) (length words.old) }
    ensures words { words.new ≡ words_of bytes.now result ++ drop result words.old }
{
    let n = (bytes.len() / 4).min(words.len());
    fill_words(bytes, &mut words[..n]);
    n
}

// As many whole words as there is room for, as bytes; tells how many bytes. They are read back as the words that they were.
pub fn to_bytes(words: &[u32], bytes: &mut [u8]) -> usize
    ensures count { result ≡ 4 * min (length words.now) (length bytes.old / 4) }
    ensures bytes { bytes.new ≡ bytes_of (take (result / 4) words.now) ++ drop result bytes.old }
    ensures back { words_of bytes.new (result / 4) ≡ take (result / 4) words.now }
{
    let front = &words[..words.len().min(bytes.len() / 4)];
    // By index: of what is written through `chunks_exact_mut`, a proof knows only the length.
    for (i, word) in front.iter().enumerate() {
        let at = 4 * i;
        bytes[at..at + 4].copy_from_slice(&word.to_be_bytes());
    }
    4 * front.len()
}
