//! Edits written into a text.

ghost use Rattle.std.specs.Prelude.{◌≡◌, ◌<◌, ◌+◌, ◌^◌, ◌++◌, [], ◌∷◌, IfOk, OnOk, IsCharBoundary, length};
ghost use Rattle.std.specs.Prelude.{string_bytes};
ghost use Rattle.rust_mended.specs.Steps.{EditsFit};
ghost use Rattle.rust_mended.specs.Texts as spec;

use crate::bracket::Bracket;
use crate::edit::{Edit, EditKind};
use std::alloc::{AllocError, Global};

/// The closer of a bracket.
fn closer(bracket: Bracket) -> char
    ensures value { result ≡ spec.close_byte bracket }
    ensures ascii { result < 128 }
{
    match bracket {
        Bracket::Brace => '}',
        Bracket::Round => ')',
        Bracket::Square => ']',
    }
}

/// What an edit writes.
fn sign(kind: EditKind) -> char
    ensures value { result ≡ spec.sign kind }
    ensures ascii { result < 128 }
{
    match kind {
        EditKind::Put(bracket) | EditKind::Turn(bracket) => closer(bracket),
        EditKind::Leave => ' ',
    }
}

/// The place behind what an edit replaces.
fn past_edit(edit: Edit) -> usize
    requires { spec.past_edit edit < 2 ^ 64 }
    ensures { result ≡ spec.past_edit edit }
{
    match edit.kind {
        EditKind::Put(_) => edit.at,
        EditKind::Leave | EditKind::Turn(_) => edit.at + 1,
    }
}

/// Adds what an edit writes, and its place, if a closer is put.
fn push(edit: Edit, text: &mut String, puts: &mut Vec<usize>) -> Result<(), AllocError>
    ensures text { OnOk result (string_bytes text.new ≡ string_bytes text.old ++ spec.sign edit.kind ∷ []) }
    ensures puts { OnOk result (puts.new.items
        ≡ puts.old.items ++ spec.put_by edit.kind (length (string_bytes text.old)) 0 (λ n. [])) }
{
    if let EditKind::Put(_) = edit.kind {
        puts.push(text.as_str().len())?;
    }
    text.push(sign(edit.kind))?;
    Ok(())
}

/// A text with these edits, and the places of the closers that were put.
pub(crate) fn with_edits(
    alloc: Global,
    text: &str,
    edits: &[Edit],
) -> Result<(String, Vec<usize>), AllocError>
    requires { EditsFit (IsCharBoundary text.now) 0 edits.now }
    ensures text { IfOk result (λ r. string_bytes r.0 ≡ spec.with_edits text.now 0 edits.now) }
    ensures puts { IfOk result (λ r. r.1.items ≡ spec.puts_from 0 edits.now) }
{
    let mut replaced = String::new(alloc);
    let mut puts = Vec::new(alloc);
    let mut at = 0;
    let mut rest = edits;
    'edits: while let Some((edit, behind)) = rest.split_first() {
        replaced.push_str(&text[at..edit.at])?;
        push(*edit, &mut replaced, &mut puts)?;
        at = past_edit(*edit);
        rest = behind;
    }
    replaced.push_str(&text[at..])?;
    Ok((replaced, puts))
}
