//! Words.

ghost use Rattle.std.specs.Prelude.{◌≡◌, ◌-◌, ◌/◌, bytes_eq, length, slice_index};
ghost use Rattle.std.specs.List.{list_any};
ghost use Rattle.rust_cursor.specs.Words as spec;

/// Whether a word is one of these.
#[inline(always)]
pub fn is_among(word: &str, words: &[&str]) -> bool
    ensures { result ≡ list_any (λ other. bytes_eq word.now other.now) words.now }
{
    words.iter().any(|other| word == *other)
}

/// The first byte of a word, or 0.
#[inline(always)]
pub fn first_byte(word: &str) -> u8
    ensures { result ≡ slice_index word.now 0 }
{
    match word.as_bytes() {
        [first, ..] => *first,
        [] => 0,
    }
}

/// The byte in the middle of a word, or 0.
#[inline(always)]
pub fn middle_byte(word: &str) -> u8
    ensures { result ≡ slice_index word.now (length word.now / 2) }
{
    let bytes = word.as_bytes();
    let middle = bytes.len() / 2;
    if middle < bytes.len() {
        bytes[middle]
    } else {
        0
    }
}

/// The last byte of a word, or 0.
#[inline(always)]
pub fn last_byte(word: &str) -> u8
    ensures { result ≡ slice_index word.now (length word.now - 1) }
{
    match word.as_bytes() {
        [.., last] => *last,
        [] => 0,
    }
}

/// Whether a table has the length of a word for this byte: it holds a number for the last five bits of each, with a bit
/// for each length.
#[inline(always)]
pub fn has_length(lengths: &[u16; 32], byte: u8, word: &str) -> bool
    ensures { result ≡ spec.has_length lengths.now byte word.now }
{
    let len = word.len();
    len < 16 && lengths[(byte % 32) as usize] >> len & 1 == 1
}
