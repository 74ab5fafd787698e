//! The parts of a text about an edit.

ghost use Rattle.std.specs.Prelude.{◌≡◌, ◌↔◌, ◌++◌, ◌∷◌, IfNone, IfSome, IsCharBoundary, IsSome, length};
ghost use Rattle.rust_edits.specs.Inner as spec;

use rust_items::TextRange;

/// The parts of a text in which braces stand, and in them a range.
#[derive(Clone, Copy)]
pub(crate) struct Parts<'t> {
    /// What stands before the `{`.
    pub(crate) before: &'t str,
    /// What stands between the `{` and the range.
    pub(crate) front: &'t str,
    /// What stands in the range.
    pub(crate) replaced: &'t str,
    /// What stands between the range and the `}`.
    pub(crate) back: &'t str,
    /// What stands behind the `}`.
    pub(crate) behind: &'t str,
}

/// So many bytes of a text, and those behind them, if that cuts no character.
fn cut(text: &str, len: usize) -> Option<(&str, &str)>
    ensures whole { IfSome result (λ p. text.now ≡ p.0.now ++ p.1.now) }
    ensures len { IfSome result (λ p. length p.0.now ≡ len) }
    ensures told { IsSome result ↔ IsCharBoundary text.now len }
{
    text.split_at_checked(len)
}

/// What stands behind a byte, if a text begins with it.
fn behind_byte(text: &str, byte: u8) -> Option<&str>
    ensures whole { IfSome result (λ rest. text.now ≡ byte ∷ rest.now) }
    ensures none { IfNone result (spec.LacksByte text.now byte) }
{
    match text.as_bytes() {
        [first, ..] if *first == byte => {
            let (_first, rest) = text.split_at_checked(1)?;
            Some(rest)
        }
        _ => None,
    }
}

/// The parts of a text about a range in these braces.
pub(crate) fn parts_of(text: &str, body: TextRange, range: TextRange) -> Option<Parts<'_>>
    ensures parts { IfSome result (λ p. spec.AreCut text.now body range p) }
    ensures none { IfNone result (spec.IsUncut text.now body range) }
{
    let (before, rest) = cut(text, body.start)?;
    let rest = behind_byte(rest, b'{')?;
    let (front, rest) = cut(rest, range.start.checked_sub(body.start)?.checked_sub(1)?)?;
    let (replaced, rest) = cut(rest, range.end.checked_sub(range.start)?)?;
    let (back, rest) = cut(rest, body.end.checked_sub(range.end)?.checked_sub(1)?)?;
    let behind = behind_byte(rest, b'}')?;
    Some(Parts {
        before,
        front,
        replaced,
        back,
        behind,
    })
}
