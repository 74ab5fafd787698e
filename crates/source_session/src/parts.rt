//! Parts of texts.
ghost use Rattle.std.specs.Prelude.{◌≡◌, ◌<◌, IfOk, map};
ghost use Rattle.source_session.specs.Parts as spec;

use std::alloc::{AllocError, Global};

/// What stands between the characters of a text that are this one.
///
/// # Errors
///
/// Only if memory runs out.
pub(crate) fn parts(alloc: Global, text: &str, mark: char) -> Result<Vec<&str>, AllocError>
    requires { mark < 128 }
    ensures { IfOk result (λ parts. map (λ p. p.now) parts.items ≡ spec.parts_between mark text.now) }
{
    let mut parts = Vec::new(alloc);
    for part in text.split(mark) {
        parts.push(part)?;
    }
    Ok(parts)
}

/// The part at a place, empty where there is none.
pub(crate) fn part_at<'t>(parts: &[&'t str], at: usize) -> &'t str
    ensures { result.now ≡ spec.part_at (map (λ p. p.now) parts.now) at }
{
    match parts.get(at) {
        Some(part) => *part,
        None => "",
    }
}
