//! What outlines tell of: items, members and imports.
ghost use Rattle.std.specs.Prelude.{◌≡◌, ◌∷◌, [], IfOk, map};
ghost use Rattle.item_tree.specs.Shown.{IsContained};
ghost use Rattle.tree_walk.specs.Listed.{listed_import};
ghost use Rattle.tree_walk.specs.Views.{row_view, subject_view};
ghost use Rattle.source_rows.specs.ListedViews.{listed_view};
ghost use Rattle.source_listing.specs.Entries as spec;
ghost use Rattle.source_listing.specs.Inner.{entry_view, kind_view};
ghost use Rattle.source_listing.specs.Outlines as outlines;
ghost use Rattle.source_listing.specs.Views.{shown_item_view};

use hir_input::{FileAstId, Name};
use item_tree::{ItemTree, ModItemId, RawVisibility, Use, UseTreeKind};
use rust_items::MemberKind;
use source_rows::{ListedMember, Spot, item_word, member_word};
use std::alloc::{AllocError, Global};
use tree_walk::{
    Listed, Row, Subject, is_enabled, list_imports, name_at, subject_at, visibility_at,
};

/// An item of a tree, and whether no cfg disables it, nor an item that it stands in, nor the file.
#[derive(Clone, Copy)]
pub struct Item<'tree> {
    pub id: FileAstId,
    pub name: Option<&'tree Name>,
    /// What it is told by if it has no name.
    pub subject: Subject<'tree>,
    pub visibility: Option<&'tree RawVisibility>,
    pub is_active: bool,
}

/// What an entry is.
#[derive(Clone, Copy)]
pub(crate) enum EntryKind<'own, 'tree> {
    /// An item, with the header of an impl, and what it is told by if it has no name.
    Item(FileAstId, &'own str, Subject<'tree>),
    /// A member of an item.
    Member(MemberKind),
    /// An import of a use.
    Import(&'own Listed),
}

/// What an outline tells of, where it stands, and whether no cfg disables it, nor what it stands in.
#[derive(Clone, Copy)]
pub(crate) struct Entry<'own, 'tree> {
    pub(crate) kind: EntryKind<'own, 'tree>,
    pub(crate) name: Option<&'tree Name>,
    pub(crate) visibility: Option<&'tree RawVisibility>,
    pub(crate) is_active: bool,
    pub(crate) spot: Option<Spot>,
}

/// The word of a kind.
pub(crate) fn entry_word(kind: EntryKind<'_, '_>) -> &'static str
    ensures { result.now ≡ spec.entry_word (kind_view kind.entry) }
{
    match kind {
        EntryKind::Item(id, _, _) => item_word(id.kind),
        EntryKind::Member(kind) => member_word(kind),
        EntryKind::Import(_) => "use",
    }
}

/// The item of an id that the tree has. `is_active` tells whether no cfg disables what it stands in.
pub fn item_of(tree: &ItemTree, id: ModItemId, is_active: bool) -> Item<'_>
    requires { IsContained tree.now id }
    ensures { shown_item_view result ∷ [] ≡ spec.item_at tree.now is_active id }
{
    Item {
        id: id.ast_id(tree),
        name: name_at(tree, id),
        subject: subject_at(tree, id),
        visibility: visibility_at(tree, id),
        is_active: is_active && is_enabled(tree, id),
    }
}

/// The item of a row.
pub(crate) fn item_of_row<'tree>(row: &Row<'tree>) -> Item<'tree>
    ensures { shown_item_view result ≡ spec.item_in_row (row_view row.now) }
{
    Item {
        id: row.id,
        name: row.name,
        subject: row.subject,
        visibility: row.visibility,
        is_active: row.is_active,
    }
}

/// An item with this header, which stands there.
pub(crate) fn item_entry<'own, 'tree>(
    header: &'own str,
    spot: Option<Spot>,
    item: &Item<'tree>,
) -> Entry<'own, 'tree>
    ensures { entry_view result ≡ spec.item_entry header.now spot (shown_item_view item.now) }
{
    Entry {
        kind: EntryKind::Item(item.id, header, item.subject),
        name: item.name,
        visibility: item.visibility,
        is_active: item.is_active,
        spot,
    }
}

/// A member, which stands there.
pub(crate) fn member_entry(spot: Spot, member: &ListedMember) -> Entry<'_, '_>
    ensures { entry_view result ≡ spec.member_entry spot (listed_view member.now) }
{
    Entry {
        kind: EntryKind::Member(member.kind),
        name: Some(&member.name),
        visibility: Some(&member.visibility),
        is_active: member.is_active,
        spot: Some(spot),
    }
}

/// An import of the use of a row, which stands there.
pub(crate) fn import_entry<'own, 'tree>(
    spot: Option<Spot>,
    row: &Row<'tree>,
    import: &'own Listed,
) -> Entry<'own, 'tree>
    ensures { entry_view result ≡ spec.import_entry spot (row_view row.now) (listed_import import.now) }
{
    Entry {
        kind: EntryKind::Import(import),
        name: None,
        visibility: row.visibility,
        is_active: row.is_active,
        spot,
    }
}

/// The imports of a use that has a list.
fn listed_of(alloc: Global, item: &Use) -> Result<Vec<Listed>, AllocError>
    ensures { IfOk result (λ v. map listed_import v.items ≡ outlines.opened_tree item.now.tree) }
{
    match item.use_tree().kind() {
        UseTreeKind::Prefixed { .. } => list_imports(alloc, item),
        _ => Ok(Vec::new(alloc)),
    }
}

/// The imports that an outline tells of an item, which is a use that has a list.
pub(crate) fn opened_imports(alloc: Global, subject: Subject<'_>) -> Result<Vec<Listed>, AllocError>
    ensures { IfOk result (λ v. map listed_import v.items ≡ outlines.opened_imports (subject_view subject.entry)) }
{
    match subject {
        Subject::Use(item) => listed_of(alloc, item),
        _ => Ok(Vec::new(alloc)),
    }
}
