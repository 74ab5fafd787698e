//! Texts.

ghost use Rattle.std.specs.Prelude.{◌≡◌};
ghost use Rattle.rust_leaves.specs.Texts as spec;

use rust_cursor::Cursor;
use rust_paths::behind_hash;

/// An identifier without `r#`.
#[tactic(auto, unfolding(crate::specs::Texts::bare_name))]
pub(crate) fn without_hash(text: &str) -> &str
    ensures { result.now ≡ spec.bare_name text.now }
{
    match behind_hash(text) {
        Some(word) => word,
        None => text,
    }
}

/// The text of the last token up to a place.
#[tactic(auto, unfolding(crate::specs::Texts::last_text), using(crate::proofs::Steps::last_turns))]
pub(crate) fn last_text<'t>(cursor: &Cursor<'t>, end: usize) -> &'t str
    ensures { result.now ≡ spec.last_text end cursor.now }
{
    let mut ahead = cursor.look_ahead();
    let mut last = "";
    let most = Cursor::most_turns();
    for _turn in 0..most {
        if ahead.last_end() == end {
            break;
        }
        last = ahead.text();
        ahead.bump();
    }
    last
}
