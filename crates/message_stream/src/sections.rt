//! What a header says.
ghost use Rattle.std.specs.Prelude.{◌≡◌, ◌≤◌, ◌^◌, ◌↔◌, ℕ, List, map, codes, IfNone, IfSome, IsTrue};
ghost use Rattle.httparse.specs.Borrowed.{header_parts};
ghost use Rattle.message_stream.specs.Inner.{HasNothingBehind, IsState};
ghost use Rattle.message_stream.specs.Headers.{HasNoLength, IsLengthName, IsLengthValue, IsNumberOf};

use httparse::{EMPTY_HEADER, Header, Status, parse_headers};

/// The longest header in bytes: 8 KiB.
pub(crate) const MOST_HEADER: usize = 8_192;

/// The most fields of a header.
pub(crate) const MOST_FIELDS: usize = 32;

// What the bytes of a header so far are.
#[derive(Drop)]
pub(crate) enum HeaderState {
    // A header may begin so.
    More,
    // They are one, and say how many bytes the body has.
    Length(usize),
    // They are one, and say no length.
    NoLength,
    // No header begins so.
    Wrong,
}

fn number(value: &[u8]) -> Option<usize>
    ensures number { IfSome result (IsNumberOf value.now) }
    ensures none { IfNone result ((n : ℕ) → IsNumberOf value.now n → 2 ^ 64 ≤ n) }
{
    match str::from_utf8(value) {
        Ok(text) => match text.parse::<usize>() {
            Ok(number) => Some(number),
            Err(_) => None,
        },
        Err(_) => None,
    }
}

fn says_length(name: &str) -> bool
    ensures { IsTrue result ↔ IsLengthName name.now }
{
    name.eq_ignore_ascii_case("content-length")
}

// The length that the first field of that name says.
fn length_in(fields: &[Header<'_>]) -> Option<usize>
    ensures length { IfSome result (λ n. (value : List ℕ)
        × IsLengthValue (map header_parts fields.now) value × IsNumberOf value n) }
    ensures none { IfNone result (HasNoLength (map header_parts fields.now)) }
{
    let mut left = fields;
    while let [field, rest @ ..] = left {
        if says_length(field.name) {
            return number(field.value);
        }
        left = rest;
    }
    None
}

pub(crate) fn state_of(header: &[u8]) -> HeaderState
    requires { HasNothingBehind header.now }
    ensures { IsState header.now result }
{
    let mut room = [EMPTY_HEADER; MOST_FIELDS];
    match parse_headers(header, &mut room) {
        Ok(Status::Complete((_end, fields))) => match length_in(fields) {
            Some(length) => HeaderState::Length(length),
            None => HeaderState::NoLength,
        },
        Ok(Status::Partial) => HeaderState::More,
        Err(_) => HeaderState::Wrong,
    }
}
