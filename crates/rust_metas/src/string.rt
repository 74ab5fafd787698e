//! The strings of literals.

ghost use Rattle.std.specs.Prelude.{◌≡◌, ◌≤◌, ◌++◌, IfOk, IfSome, OnOk, option_map, length, drop, string_bytes};
ghost use Rattle.rust_metas.specs.Strings as spec;

use crate::escape::escape_at;
use std::alloc::{AllocError, Global};

/// Bytes as a text, if they are UTF-8.
pub(crate) fn text_from(bytes: Vec<u8>) -> Option<String>
    ensures { option_map string_bytes result ≡ spec.as_text bytes.items }
{
    match String::from_utf8(bytes) {
        Ok(text) => Some(text),
        Err(_) => None,
    }
}

/// Takes in a byte, but for a carriage return before a line feed.
fn push_byte(out: &mut Vec<u8>, b: u8, z: &[u8]) -> Result<(), AllocError>
    ensures { OnOk result (out.new.items ≡ out.old.items ++ spec.kept_byte b z.now) }
{
    match z {
        [b'\n', ..] if b == b'\r' => Ok(()),
        _ => Ok(out.push(b)?),
    }
}

/// Takes in what a byte stands for with those behind it, and tells how many of these it is.
#[tactic(auto, unfolding(crate::specs::Strings::escaped_character))]
fn push_character(out: &mut Vec<u8>, b: u8, z: &[u8]) -> Result<Option<usize>, AllocError>
    ensures { IfOk result (λ len. spec.bytes_and_left out.old.items (spec.escaped_character b z.now)
        ≡ spec.with_place out.new.items len) }
{
    if b != b'\\' {
        push_byte(out, b, z)?;
        return Ok(Some(0));
    }
    let Some(escape) = escape_at(z) else {
        return Ok(None);
    };
    if let Some(character) = escape.character {
        let mut encoded = [0; 4];
        out.extend_from_slice(character.encode_utf8(&mut encoded).as_bytes())?;
        return Ok(Some(escape.len));
    }
    Ok(Some(escape.len))
}

/// These bytes, if just so many stand behind a quote.
fn bytes_if_ended(bytes: Vec<u8>, count: usize, z: &[u8]) -> Option<Vec<u8>>
    ensures { option_map (λ v. v.items) result ≡ spec.prepend bytes.items (spec.ended_string count z.now) }
{
    if z.len() == count {
        return Some(bytes);
    }
    None
}

/// What the bytes of a string behind its quote stand for.
#[tactic(auto, using(crate::proofs::Strings::unescaped_end, crate::proofs::Strings::unescaped_none))]
pub(crate) fn unescaped_bytes(alloc: Global, mut z: &[u8]) -> Result<Option<Vec<u8>>, AllocError>
    ensures { IfOk result (λ v. option_map (λ v. v.items) v ≡ spec.unescaped_bytes 0 z.entry.now) }
{
    let mut out = Vec::new(alloc);
    'bytes: while let [b, ..] = z {
        let rest = bytes_behind(z, 1);
        if *b == b'"' {
            return Ok(bytes_if_ended(out, 0, rest));
        }
        let Some(len) = push_character(&mut out, *b, rest)? else {
            return Ok(None);
        };
        z = bytes_behind(rest, len);
    }
    Ok(None)
}

/// How many `#` come first.
fn hashes(mut z: &[u8]) -> usize
    ensures value { result ≡ spec.hashes z.entry.now }
    ensures within { result ≤ length z.entry.now }
{
    let mut count = 0;
    'bytes: while let [b, rest @ ..] = z {
        if *b != b'#' {
            return count;
        }
        count += 1;
        z = rest;
    }
    count
}

/// Whether a raw string ends at this byte, before these.
fn is_end(count: usize, b: u8, z: &[u8]) -> bool
    ensures { result ≡ spec.is_end count b z.now }
{
    b == b'"' && hashes(z) >= count
}

/// The bytes up to a quote with so many `#` behind it.
fn raw_from(alloc: Global, count: usize, mut z: &[u8]) -> Result<Option<Vec<u8>>, AllocError>
    ensures { IfOk result (λ v. option_map (λ v. v.items) v ≡ spec.raw_from count z.entry.now) }
{
    let mut out = Vec::new(alloc);
    'bytes: while let [b, rest @ ..] = z {
        if is_end(count, *b, rest) {
            return Ok(bytes_if_ended(out, count, rest));
        }
        push_byte(&mut out, *b, rest)?;
        z = rest;
    }
    Ok(None)
}

/// The bytes behind so many.
pub(crate) fn bytes_behind(z: &[u8], count: usize) -> &[u8]
    ensures { result.now ≡ drop count z.now }
{
    if count <= z.len() { &z[count..] } else { &[] }
}

/// The bytes of a raw string behind its `r`.
pub(crate) fn raw_string_bytes(alloc: Global, z: &[u8]) -> Result<Option<Vec<u8>>, AllocError>
    ensures { IfOk result (λ v. option_map (λ v. v.items) v ≡ spec.raw_string_bytes z.now) }
{
    let count = hashes(z);
    raw_from(alloc, count, bytes_behind(bytes_behind(z, count), 1))
}

/// A byte as it is written in a string literal.
fn push_written(out: &mut Vec<u8>, b: u8) -> Result<(), AllocError>
    ensures { OnOk result (out.new.items ≡ out.old.items ++ spec.written_byte b) }
{
    match b {
        b'"' => out.extend_from_slice(b"\\\""),
        b'\\' => out.extend_from_slice(b"\\\\"),
        b'\n' => out.extend_from_slice(b"\\n"),
        b'\r' => out.extend_from_slice(b"\\r"),
        b'\t' => out.extend_from_slice(b"\\t"),
        b'\0' => out.extend_from_slice(b"\\0"),
        _ => Ok(out.push(b)?),
    }
}

/// A text as a string literal.
pub(crate) fn quoted_text(alloc: Global, text: &[u8]) -> Result<Vec<u8>, AllocError>
    ensures { IfOk result (λ v. v.items ≡ spec.quoted_text text.now) }
{
    let mut out = Vec::with_capacity(alloc, text.len().saturating_add(2))?;
    out.extend_from_slice(b"\"")?;
    for b in text {
        push_written(&mut out, *b)?;
    }
    out.extend_from_slice(b"\"")?;
    Ok(out)
}
