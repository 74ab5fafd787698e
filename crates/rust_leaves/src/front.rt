//! What stands before an item's own parts.

ghost use Rattle.std.specs.Prelude.{map};
ghost use Rattle.hir_input.specs.Attr.{meta_view};
ghost use Rattle.rust_cursor.specs.Reader.{Gives};
ghost use Rattle.rust_leaves.specs.Clipped.{clipped_front, with_value};
ghost use Rattle.rust_leaves.specs.Fronts as spec;
ghost use Rattle.rust_leaves.specs.Views.{front_view};

use crate::head::{Head, take_head};
use crate::modifiers::pass_modifiers;
use crate::wanted::Wanted;
use hir_input::Meta;
use hir_input::ast::Visibility;
use rust_cursor::Cursor;
use rust_metas::{kept_outer_attributes, outer_attributes};
use rust_paths::visibility;
use std::alloc::{AllocError, Global};

/// What stands before an item's own parts.
#[derive(Drop)]
pub struct Front {
    /// The byte place where the item begins, with its attributes.
    pub start: usize,
    pub attrs: Vec<Meta>,
    pub visibility: Option<Visibility>,
    pub head: Head,
}

/// Takes a visibility, modifiers and the words that begin an item, as far as they come, behind the item's attributes.
///
/// # Errors
///
/// Only if memory runs out. The cursor may then stand anywhere.
#[tactic(auto, unfolding(crate::specs::Fronts::front_behind, crate::specs::Heads::front_words))]
pub fn front_behind(
    alloc: Global,
    cursor: &mut Cursor<'_>,
    start: usize,
    attrs: Vec<Meta>,
) -> Result<Front, AllocError>
    ensures { Gives front_view
        (spec.front_behind start (map meta_view attrs.items) cursor.old) result cursor.new }
{
    let visibility = visibility(alloc, cursor)?;
    pass_modifiers(cursor);
    let head = take_head(cursor);
    Ok(Front {
        start,
        attrs,
        visibility,
        head,
    })
}

/// Takes attributes, a visibility, modifiers and the words that begin an item, as far as they come.
///
/// # Errors
///
/// Only if memory runs out. The cursor may then stand anywhere.
#[tactic(auto, unfolding(crate::specs::Fronts::front))]
pub fn take_front(alloc: Global, cursor: &mut Cursor<'_>) -> Result<Front, AllocError>
    ensures { Gives front_view (spec.front cursor.old) result cursor.new }
{
    let start = cursor.at();
    let attrs = outer_attributes(alloc, cursor)?;
    front_behind(alloc, cursor, start, attrs)
}

/// Takes the same with those of its metas alone that are wanted.
///
/// # Errors
///
/// Only if memory runs out. The cursor may then stand anywhere.
#[tactic(auto, using(crate::proofs::ClippedLeaves::front_clipped))]
pub fn wanted_front(
    alloc: Global,
    cursor: &mut Cursor<'_>,
    wanted: Wanted,
) -> Result<Front, AllocError>
    ensures { Gives front_view
        (with_value (clipped_front wanted) (spec.front cursor.old)) result cursor.new }
{
    let start = cursor.at();
    let attrs = kept_outer_attributes(alloc, cursor, wanted.metas)?;
    front_behind(alloc, cursor, start, attrs)
}
