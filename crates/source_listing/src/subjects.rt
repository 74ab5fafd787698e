//! Items without names as text.
ghost use Rattle.std.specs.Prelude.{◌≡◌, ◌++◌, OnOk, string_bytes};
ghost use Rattle.tree_walk.specs.Views.{subject_view};
ghost use Rattle.item_tree.specs.Tree.{tree_of};
ghost use Rattle.item_tree.specs.UseText.{shown_prefix};
ghost use Rattle.source_listing.specs.Lines as spec;

use crate::import_texts::push_rename;
use hir_input::{Edition, ModPath};
use item_tree::{UseTree, UseTreeKind};
use std::alloc::AllocError;
use tree_walk::Subject;

/// What stands in front of a star or of a list, and then this.
fn push_under(
    edition: &Edition,
    prefix: &Option<ModPath>,
    names: &str,
    out: &mut String,
) -> Result<(), AllocError>
    ensures { let text = shown_prefix edition.now.reserved.items prefix.now ++ names.now in
        OnOk result (string_bytes out.new ≡ string_bytes out.old ++ text) }
{
    match prefix {
        None => out.push_str(names),
        Some(path) => {
            let path = path.display(edition);
            write!(out, "{path}::{names}")
        }
    }
}

/// A use tree in short: the trees of a list are left out.
pub(crate) fn push_short_tree(
    edition: &Edition,
    tree: &UseTree,
    out: &mut String,
) -> Result<(), AllocError>
    ensures { let text = spec.short_tree edition.now.reserved.items (tree_of tree.now) in
        OnOk result (string_bytes out.new ≡ string_bytes out.old ++ text) }
{
    match tree.kind() {
        UseTreeKind::Single { path, alias } => {
            let path = path.display(edition);
            write!(out, "{path}")?;
            push_rename(edition, alias, out)
        }
        UseTreeKind::Glob { path } => push_under(edition, path, "*", out),
        UseTreeKind::Prefixed { prefix, .. } => push_under(edition, prefix, "{..}", out),
    }
}

/// What an item is told by if it has no name, behind a blank.
pub(crate) fn push_subject(
    edition: &Edition,
    subject: Subject<'_>,
    out: &mut String,
) -> Result<(), AllocError>
    ensures { let text = spec.subject_text edition.now.reserved.items
        (subject_view subject.entry) in
        OnOk result (string_bytes out.new ≡ string_bytes out.old ++ text) }
{
    match subject {
        Subject::Nothing => Ok(()),
        Subject::Use(item) => {
            out.push_str(" ")?;
            push_short_tree(edition, item.use_tree(), out)
        }
        Subject::Call(path) => {
            let path = path.display(edition);
            write!(out, " {path}!")
        }
    }
}
