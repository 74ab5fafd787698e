//! Parts of a text.

ghost use Rattle.std.specs.Prelude.{◌≡◌, option_map};
ghost use Rattle.rust_items.specs.MemberLists as spec;

use rust_paths::TextRange;

/// Whether no character is cut at a place.
#[tactic(auto, using(crate::proofs::MemberCuts::boundary_tells))]
fn is_boundary(text: &str, at: usize) -> bool
    ensures { result ≡ spec.is_boundary text.now at }
{
    text.is_char_boundary(at)
}

/// What stands in a range of a text, if that cuts no character.
#[tactic(auto, using(crate::proofs::MemberCuts::boundary_is))]
pub fn cut_out(text: &str, range: TextRange) -> Option<&str>
    ensures { option_map (λ part. part.now) result ≡ spec.cut_out text.now range }
{
    if range.start > range.end {
        return None;
    }
    if !is_boundary(text, range.start) {
        return None;
    }
    if !is_boundary(text, range.end) {
        return None;
    }
    Some(&text[range.start..range.end])
}
