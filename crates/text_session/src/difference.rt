//! What differs in two texts.
ghost use Rattle.std.specs.Prelude.{◌≡◌, ◌++◌, IfSome};
ghost use Rattle.text_session.specs.Texts.{spliced_text};

use rust_items::TextRange;

// How many bytes two texts begin with in common.
fn common_start(old: &[u8], new: &[u8]) -> usize {
    old.iter()
        .zip(new)
        .take_while(|(left, right)| left == right)
        .count()
}

// How many bytes they end with in common.
fn common_end(old: &[u8], new: &[u8]) -> usize {
    old.iter()
        .rev()
        .zip(new.iter().rev())
        .take_while(|(left, right)| left == right)
        .count()
}

// What stands behind this in a text, if the text begins with it.
fn behind_front<'t>(text: &'t str, front: &str) -> Option<&'t str>
    ensures { IfSome result (λ rest. text.now ≡ front.now ++ rest.now) }
{
    let (start, rest) = text.split_at_checked(front.len())?;
    if start == front { Some(rest) } else { None }
}

// What stands before this in a text, if the text ends with it.
fn before_back<'t>(text: &'t str, back: &str) -> Option<&'t str>
    ensures { IfSome result (λ rest. text.now ≡ rest.now ++ back.now) }
{
    let (rest, end) = text.split_at_checked(text.len().checked_sub(back.len())?)?;
    if end == back { Some(rest) } else { None }
}

/// A range of a text, and what replaces it in another: all but what both begin with, and then what both end with.
#[tactic(auto, using(crate::proofs::SplicedTexts::spliced_by))]
pub(crate) fn difference<'t>(old: &str, new: &'t str) -> Option<(TextRange, &'t str)>
    ensures { IfSome result (λ d. new.now ≡ spliced_text old.now d.0 d.1.now) }
{
    let start = old.floor_char_boundary(common_start(old.as_bytes(), new.as_bytes()));
    let (front, rest) = old.split_at_checked(start)?;
    let left = behind_front(new, front)?;
    let shared = common_end(rest.as_bytes(), left.as_bytes());
    let len = rest.ceil_char_boundary(rest.len().saturating_sub(shared));
    let (_replaced, back) = rest.split_at_checked(len)?;
    let typed = before_back(left, back)?;
    let end = start.checked_add(len)?;
    Some((TextRange { start, end }, typed))
}
