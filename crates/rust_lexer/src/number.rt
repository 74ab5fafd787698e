//! Numbers, by their first digit and the bytes behind it.

ghost use Rattle.std.specs.Prelude.{◌≡◌, ◌≤◌, ◌<◌, length};
ghost use Rattle.rust_lexer.specs.Number as spec;

use crate::bytes::{Class, byte, is_word_start, run};
use crate::kind::LiteralKind;

/// How many bytes belong to a number behind its first digit, and whether it is an integer or a float.
#[derive(Clone, Copy, Debug)]
pub(crate) struct Numeral {
    pub kind: LiteralKind,
    pub len: usize,
}

fn int(len: usize) -> Numeral
    ensures { result ≡ spec.int len }
{
    Numeral {
        kind: LiteralKind::Int,
        len,
    }
}

fn float(len: usize) -> Numeral
    ensures { result ≡ spec.float len }
{
    Numeral {
        kind: LiteralKind::Float,
        len,
    }
}

fn is_exponent(b: u8) -> bool
    ensures { result ≡ spec.is_exponent b }
{
    b == b'e' || b == b'E'
}

fn is_sign(b: u8) -> bool
    ensures { result ≡ spec.is_sign b }
{
    b == b'+' || b == b'-'
}

/// Behind the exponent that may stand behind so many bytes.
fn past_exponent(z: &[u8], len: usize) -> usize
    requires { len ≤ length z.now }
    ensures value { result ≡ spec.past_exponent z.now len }
    ensures within { result ≤ length z.now }
{
    if !is_exponent(byte(z, len)) {
        return len;
    }
    if is_sign(byte(z, len + 1)) {
        return len + 2 + run(Class::Decimal, &z[len + 2..]);
    }
    len + 1 + run(Class::Decimal, &z[len + 1..])
}

/// Whether a point behind so many bytes belongs to the number.
fn is_fraction(z: &[u8], len: usize) -> bool
    requires { len ≤ length z.now }
    ensures value { result ≡ spec.is_fraction z.now len }
{
    if byte(z, len) != b'.' {
        return false;
    }
    let behind = &z[len + 1..];
    byte(behind, 0) != b'.' && !is_word_start(behind)
}

/// Behind the fraction whose point stands behind so many bytes.
fn past_fraction(z: &[u8], len: usize) -> usize
    requires { len < length z.now }
    ensures value { result ≡ spec.past_fraction z.now len }
    ensures within { result ≤ length z.now }
{
    let behind = &z[len + 1..];
    if byte(behind, 0).is_ascii_digit() {
        past_exponent(z, len + 1 + run(Class::Decimal, behind))
    } else {
        len + 1
    }
}

/// The number with so many bytes of digits, a fraction and an exponent.
#[tactic(auto, unfolding(crate::specs::Number::past_digits))]
fn past_digits(z: &[u8], len: usize) -> Numeral
    requires { len ≤ length z.now }
    ensures value { result ≡ spec.past_digits z.now len }
    ensures within { result.len ≤ length z.now }
{
    if is_fraction(z, len) {
        float(past_fraction(z, len))
    } else if is_exponent(byte(z, len)) {
        float(past_exponent(z, len))
    } else {
        int(len)
    }
}

/// A number behind the letter of its base.
fn based_number(digits: Class, z: &[u8]) -> Numeral
    requires { 0 < length z.now }
    ensures value { result ≡ spec.based_number digits z.now }
    ensures within { result.len ≤ length z.now }
{
    let behind = &z[1..];
    let len = run(digits, behind);
    if run(Class::Low, behind) == len {
        int(len + 1)
    } else {
        past_digits(z, len + 1)
    }
}

/// The number that begins with this digit, before these bytes.
pub(crate) fn number(first: u8, z: &[u8]) -> Numeral
    ensures value { result ≡ spec.number first z.now }
    ensures within { result.len ≤ length z.now }
{
    match (first, byte(z, 0)) {
        (b'0', b'x') => based_number(Class::Hexadecimal, z),
        (b'0', b'b' | b'o') => based_number(Class::Decimal, z),
        _ => past_digits(z, run(Class::Decimal, z)),
    }
}
