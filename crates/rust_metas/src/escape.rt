//! Escapes in string literals.

ghost use Rattle.std.specs.Prelude.{◌≡◌, ◌≤◌, ◌<◌, ◌^◌, ◌+◌, Some, IfSome, option_map, length};
ghost use Rattle.std.specs.Char.{digit_value};
ghost use Rattle.rust_metas.specs.Escapes as spec;

/// What stands behind a backslash: the character that it stands for, if for one, and how many bytes it is.
#[derive(Debug, Drop)]
pub(crate) struct Escape {
    pub character: Option<char>,
    pub len: usize,
}

/// A number in hexadecimal digits, and how many bytes it is with its brace.
#[derive(Drop)]
struct Digits {
    value: u32,
    len: usize,
}

/// The value of a digit or a letter, and 36 for any other byte.
fn digit(b: u8) -> u32
    ensures { result ≡ digit_value b }
{
    match b {
        b'0'..=b'9' => (b - b'0') as u32,
        b'A'..=b'Z' => (b - b'A') as u32 + 10,
        b'a'..=b'z' => (b - b'a') as u32 + 10,
        _ => 36,
    }
}

/// The character of an escape of one letter.
fn letter(b: u8) -> Option<char>
    ensures { result ≡ spec.escape_letter b }
{
    match b {
        b'n' => Some('\n'),
        b'r' => Some('\r'),
        b't' => Some('\t'),
        b'0' => Some('\0'),
        b'\\' | b'\'' | b'"' => Some(b as char),
        _ => None,
    }
}

/// `x` and two digits.
fn hex(z: &[u8]) -> Option<Escape>
    ensures { result ≡ spec.hex z.now }
{
    match z {
        [a, b, ..] => {
            let (high, low) = (digit(*a), digit(*b));
            if high >= 8 || low >= 16 {
                return None;
            }
            Some(Escape {
                character: Some((high * 16 + low) as u8 as char),
                len: 3,
            })
        }
        _ => None,
    }
}

/// The number in hexadecimal digits up to a brace.
fn number(mut z: &[u8]) -> Option<Digits>
    ensures value { option_map (λ n. (n.value, n.len)) result ≡ spec.number_from 0 0 z.entry.now }
    ensures within { IfSome result (λ n. n.len ≤ length z.entry.now) }
{
    let mut value = 0u32;
    let mut count = 0u32;
    let mut len = 0usize;
    'digits: while let [b, rest @ ..] = z {
        let digit = digit(*b);
        len += 1;
        z = rest;
        if digit < 16 {
            if count == 6 {
                return None;
            }
            value = value * 16 + digit;
            count += 1;
        } else if count == 0 {
            return None;
        } else if *b == b'}' {
            return Some(Digits { value, len });
        } else if *b != b'_' {
            return None;
        }
    }
    None
}

/// The escape of a number, if it is a character's.
#[tactic(auto, using(crate::proofs::Characters::scalar_is, crate::proofs::Characters::scalar_is_not))]
fn scalar(number: Digits) -> Option<Escape>
    requires { number.len < 2 ^ 63 }
    ensures { result ≡ spec.scalar_of (Some (number.value, number.len)) }
{
    let character = char::from_u32(number.value)?;
    Some(Escape {
        character: Some(character),
        len: number.len + 2,
    })
}

/// `u` and a number in braces.
fn unicode(z: &[u8]) -> Option<Escape>
    ensures { result ≡ spec.unicode z.now }
{
    match z {
        [b'{', rest @ ..] => match number(rest) {
            Some(number) => scalar(number),
            None => None,
        },
        _ => None,
    }
}

/// How many blank bytes come first.
fn blanks(mut z: &[u8]) -> usize
    ensures value { result ≡ spec.blanks z.entry.now }
    ensures within { result ≤ length z.entry.now }
{
    let mut count = 0;
    'bytes: while let [b, rest @ ..] = z {
        if !matches!(*b, b' ' | b'\t' | b'\n' | b'\r') {
            return count;
        }
        count += 1;
        z = rest;
    }
    count
}

/// Whether a line ends at this byte, before these.
fn is_feed(b: u8, z: &[u8]) -> bool
    ensures { result ≡ spec.is_feed b z.now }
{
    match z {
        [next, ..] => b == b'\n' || (b == b'\r' && *next == b'\n'),
        [] => b == b'\n',
    }
}

/// The escape behind a backslash, if it is one.
pub(crate) fn escape_at(z: &[u8]) -> Option<Escape>
    ensures { result ≡ spec.escape z.now }
{
    match z {
        [b'x', rest @ ..] => hex(rest),
        [b'u', rest @ ..] => unicode(rest),
        [b, rest @ ..] if is_feed(*b, rest) => Some(Escape {
            character: None,
            len: 1 + blanks(rest),
        }),
        [b, ..] => match letter(*b) {
            Some(character) => Some(Escape {
                character: Some(character),
                len: 1,
            }),
            None => None,
        },
        [] => None,
    }
}
