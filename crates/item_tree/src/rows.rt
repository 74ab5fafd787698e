//! The table of a tree as it grows: rows in columns, and the arena of visibilities.
ghost use Rattle.std.specs.Prelude.{◌≡◌, ◌+◌, ◌<◌, ◌-◌, ◌^◌, IfOk, IfErr, [], ◌∷◌, length, option_map};
ghost use Rattle.item_tree_attrs.specs.Collected.{collection_of};
ghost use Rattle.item_tree.specs.Column.{plain_place, stored_at};
ghost use Rattle.item_tree.specs.Stored.{column_in};
ghost use Rattle.item_tree.specs.Size.{IsPassed};
ghost use Rattle.item_tree.specs.Inner.Growth.{IsWithinLimits, Keeps, Meets, Puts, sizes_meeting};

use crate::fault::LowerError;
use crate::items::ModItem;
use crate::visibility::{
    PRIVATE_EXPLICIT, PRIVATE_IMPLICIT, PUB_CRATE, PUBLIC, RawVisibility, RawVisibilityId,
    VisibilityExplicitness,
};
use crate::visibility_set::VisibilitySet;
use hir_input::AstIdKind;
use item_tree_attrs::AttrsOrCfg;
use std::alloc::{AllocError, Global};

/// The place of attributes that are enabled and empty, which are not kept.
pub(crate) const NO_ATTRS: u32 = u32::MAX;

/// The hash and the number of a row's `FileAstId`, whose kind is the row's tag.
#[derive(Clone, Copy, Debug, PartialEq, Eq)]
pub(crate) struct AstKey {
    pub(crate) hash: u16,
    pub(crate) number: u32,
}

/// The rows of a tree in columns of equal length, the attributes that their places tell, and the visibilities of
/// modules in order of first use.
#[derive(Debug, Drop)]
pub(crate) struct Rows {
    pub(crate) tags: Vec<AstIdKind>,
    pub(crate) keys: Vec<AstKey>,
    pub(crate) items: Vec<ModItem>,
    pub(crate) places: Vec<u32>,
    pub(crate) column: Vec<AttrsOrCfg>,
    pub(crate) arena: VisibilitySet,
}

// The columns that tell the items, and those that tell their attributes and visibilities.
type Items<'a> = (&'a [AstIdKind], &'a [AstKey], &'a [ModItem]);

type Others<'a> = (&'a [u32], &'a [AttrsOrCfg], &'a [RawVisibility]);

impl Rows {
    pub(crate) fn new(alloc: Global) -> Rows
        ensures tags { result.tags.items ≡ [] }
        ensures keys { result.keys.items ≡ [] }
        ensures items { result.items.items ≡ [] }
        ensures places { result.places.items ≡ [] }
        ensures column { result.column.items ≡ [] }
        ensures arena { result.arena ≡ [] }
    {
        Rows {
            tags: Vec::new(alloc),
            keys: Vec::new(alloc),
            items: Vec::new(alloc),
            places: Vec::new(alloc),
            column: Vec::new(alloc),
            arena: VisibilitySet::new(),
        }
    }

    // The id of a visibility, which the arena keeps once.
    pub(crate) fn alloc_visibility(
        &mut self,
        alloc: Global,
        visibility: RawVisibility,
    ) -> Result<RawVisibilityId, LowerError>
        requires { IsWithinLimits self.old }
        ensures met { IfOk result (λ id. Meets self.old self.new visibility id) }
        ensures fault { IfErr result (IsPassed (sizes_meeting self.old (visibility ∷ []))) }
    {
        match visibility {
            RawVisibility::Public => Ok(RawVisibilityId::from_number(PUBLIC)),
            RawVisibility::PubSelf(VisibilityExplicitness::Implicit) => {
                Ok(RawVisibilityId::from_number(PRIVATE_IMPLICIT))
            }
            RawVisibility::PubSelf(VisibilityExplicitness::Explicit) => {
                Ok(RawVisibilityId::from_number(PRIVATE_EXPLICIT))
            }
            RawVisibility::PubCrate => Ok(RawVisibilityId::from_number(PUB_CRATE)),
            RawVisibility::Module(_, _) => {
                let place = self.arena.insert(alloc, visibility)?;
                if place >= PUB_CRATE as usize {
                    return Err(LowerError::TooManyVisibilities);
                }
                Ok(RawVisibilityId::from_number(place as u32))
            }
        }
    }

    // Gives back the room that no row takes.
    pub(crate) fn shrink_to_fit(&mut self)
        ensures { Keeps self.old self.new }
    {
        self.tags.shrink_to_fit();
        self.keys.shrink_to_fit();
        self.items.shrink_to_fit();
        self.places.shrink_to_fit();
        self.column.shrink_to_fit();
        self.arena.shrink_to_fit();
    }

    // Lends the columns, the visibilities in their order.
    pub(crate) fn columns(&self) -> (Items<'_>, Others<'_>)
        ensures tags { result.0.0.now ≡ self.now.tags.items }
        ensures keys { result.0.1.now ≡ self.now.keys.items }
        ensures items { result.0.2.now ≡ self.now.items.items }
        ensures places { result.1.0.now ≡ self.now.places.items }
        ensures column { result.1.1.now ≡ self.now.column.items }
        ensures arena { result.1.2.now ≡ self.now.arena }
    {
        (
            (&self.tags, &self.keys, &self.items),
            (&self.places, &self.column, self.arena.as_slice()),
        )
    }

    // Lends the attributes of a place, if it is one.
    pub(crate) fn attrs_at(&self, place: u32) -> Option<&AttrsOrCfg>
        ensures { option_map (λ attrs. collection_of attrs.now) result
            ≡ stored_at (column_in self.now) (plain_place place) }
    {
        if place == NO_ATTRS {
            None
        } else {
            self.column.get(place as usize)
        }
    }
}

// The place of attributes, which are put at the end of the column unless they are enabled and empty.
pub(crate) fn push_attrs(column: &mut Vec<AttrsOrCfg>, attrs: AttrsOrCfg) -> Result<u32, AllocError>
    requires { length column.old.items < 2 ^ 32 - 1 }
    ensures { IfOk result (λ place. Puts column.old column.new (collection_of attrs) place) }
{
    if attrs.is_empty() {
        return Ok(NO_ATTRS);
    }
    let place = column.len() as u32;
    column.push(attrs)?;
    Ok(place)
}
