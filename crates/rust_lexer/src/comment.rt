//! Comments, behind their first two bytes.

ghost use Rattle.std.specs.Prelude.{◌≡◌, ◌≤◌, ◌<◌, ◌+◌, ◌^◌, length, false};
ghost use Rattle.rust_lexer.specs.Comment as spec;

use crate::bytes::byte;
use crate::kind::DocStyle;
use crate::quoted::Extent;

/// How a line comment documents something.
pub(crate) fn line_style(z: &[u8]) -> Option<DocStyle>
    ensures { result ≡ spec.line_style z.now }
{
    match (byte(z, 0), byte(z, 1)) {
        (b'!', _) => Some(DocStyle::Inner),
        (b'/', next) if next != b'/' => Some(DocStyle::Outer),
        _ => None,
    }
}

/// How a block comment documents something.
pub(crate) fn block_style(z: &[u8]) -> Option<DocStyle>
    ensures { result ≡ spec.block_style z.now }
{
    match (byte(z, 0), byte(z, 1)) {
        (b'!', _) => Some(DocStyle::Inner),
        (b'*', next) if next != b'*' && next != b'/' => Some(DocStyle::Outer),
        _ => None,
    }
}

/// Up to the `*/` that closes a block comment, from behind its `/*` and `start` bytes before.
pub(crate) fn block(start: usize, mut z: &[u8]) -> Extent
    requires { start + length z.now < 2 ^ 64 }
    ensures value { result ≡ spec.block false 0 start z.entry.now }
    ensures within { result.len ≤ start + length z.entry.now }
{
    let mut is_second = false;
    let mut depth = 0usize;
    let mut count = start;
    'bytes: while let [b, rest @ ..] = z {
        let next = byte(rest, 0);
        if is_second {
            is_second = false;
        } else if *b == b'*' && next == b'/' {
            if depth == 0 {
                return Extent {
                    len: count + 2,
                    is_closed: true,
                };
            }
            depth -= 1;
            is_second = true;
        } else if *b == b'/' && next == b'*' {
            depth += 1;
            is_second = true;
        }
        count += 1;
        z = rest;
    }
    Extent {
        len: count,
        is_closed: false,
    }
}
