//! Frontmatter, which a tool may read in front of a text.

ghost use Rattle.std.specs.Prelude.{◌≡◌, ◌≤◌, ◌<◌, ◌+◌, ◌^◌, length, IfSome};
ghost use Rattle.rust_lexer.specs.Frontmatter as spec;

use crate::bytes::{Class, run};

/// Up to the end of the first line that begins with so many dashes, from behind a line's end and `start` bytes before.
fn closing(dashes: usize, start: usize, mut z: &[u8]) -> Option<usize>
    requires { start + length z.now < 2 ^ 64 }
    ensures value { result ≡ spec.closing_dashes dashes start z.entry.now }
    ensures within { IfSome result (λ len. (start < len) × (len ≤ start + length z.entry.now)) }
{
    let mut count = start;
    while let [b, rest @ ..] = z {
        if *b == b'\n' && dashes <= run(Class::Dash, rest) {
            return Some(count + 1 + run(Class::Line, rest));
        }
        count += 1;
        z = rest;
    }
    None
}

/// Three dashes or more, up to the end of a line that begins with as many, behind `start` bytes.
fn fence(start: usize, z: &[u8]) -> Option<usize>
    requires { start + length z.now < 2 ^ 64 }
    ensures value { result ≡ spec.fence start z.now }
    ensures within { IfSome result (λ len. (start < len) × (len ≤ start + length z.now)) }
{
    let dashes = run(Class::Dash, z);
    if dashes < 3 {
        return None;
    }
    closing(dashes, start, z)
}

/// How many bytes of frontmatter stand in front, with the line ends before it, if it has its end.
pub(crate) fn frontmatter(mut z: &[u8]) -> Option<usize>
    ensures value { result ≡ spec.frontmatter 0 z.entry.now }
    ensures within { IfSome result (λ len. (0 < len) × (len ≤ length z.entry.now)) }
{
    let mut count = 0;
    while let [b, rest @ ..] = z {
        if *b != b'\n' && *b != b'\r' {
            return fence(count, z);
        }
        count += 1;
        z = rest;
    }
    None
}
