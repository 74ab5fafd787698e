//! Visibilities, read from their forms.
ghost use Rattle.std.specs.Prelude.{◌≡◌, OnOk, codes};
ghost use Rattle.serde_json.specs.View.{view};
ghost use Rattle.hir_input_json.specs.Forms.{maybe_at};
ghost use Rattle.hir_input_json.specs.Held.{IsLeftWithout, object_held};
ghost use Rattle.hir_input_json.specs.Paths.{vis_form as visibility_form, visibility_word};
ghost use Rattle.hir_input_json.specs.Reads.{Reads};

use crate::fault::{Fault, ReadIn};
use crate::member::{Members, maybe_of, members_of, required_at, take_member};
use crate::path::path_of;
use hir_input::ast::Visibility;
use serde_json::Value;
use std::alloc::Global;

// A visibility by its word.
fn visibility_by(alloc: Global, word: &str) -> Result<Visibility, Fault>
    ensures { Reads (λ visibility. visibility) result (visibility_word word.now) }
{
    match word {
        "pub" => Ok(Visibility::Pub),
        "crate" => Ok(Visibility::PubCrate),
        "super" => Ok(Visibility::PubSuper),
        "self" => Ok(Visibility::PubSelf),
        _ => Err(Fault::here(alloc)),
    }
}

pub(crate) fn visibility_of(alloc: Global, value: Value) -> Result<Visibility, Fault>
    ensures { Reads (λ visibility. visibility) result (visibility_form (view value)) }
{
    if let Some(word) = value.as_str() {
        return visibility_by(alloc, word);
    }
    let mut members = members_of(alloc, value)?;
    let path = required_at(alloc, &mut members, "in")?;
    let path = path_of(alloc, path).in_member(alloc, "in")?;
    Ok(Visibility::InPath(path))
}

// Takes a visibility out.
pub(crate) fn visibility_at(
    alloc: Global,
    members: &mut Members,
) -> Result<Option<Visibility>, Fault>
    ensures reads { Reads (λ visibility. visibility) result
        (maybe_at (codes "vis") visibility_form (object_held members.old)) }
    ensures left { OnOk result (IsLeftWithout (codes "vis") members.old members.new) }
{
    maybe_of!(alloc, members, "vis", visibility_of)
}
