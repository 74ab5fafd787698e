//! The texts of shows: pages and imports, and the lines of what changed.
ghost use Rattle.std.specs.Prelude.{◌≡◌, ◌++◌, IfOk, OnErr, OnOk, string_bytes, flat_map};
ghost use Rattle.item_tree_db.specs.State.{IsKnown};
ghost use Rattle.item_tree_request.specs.Outputs.{AreChanges, IsAdded, table_change_line, printed_show, IsPrinted};

use crate::imports::imports_text;
use crate::request::show::{Show, ShowKind, TreeShow};
use crate::show_writer::ShowWriter;
use hir_input::{Crate, Edition};
use item_tree_db::{ChangedSince, Place, Sources};
use std::alloc::{AllocError, Global};

#[tactic(auto, unfolding(crate::specs::Outputs::table_change_line))]
fn write_change(
    place: Place,
    krate: Crate,
    changed: u64,
    text: &mut String,
) -> Result<(), AllocError>
    ensures { OnOk result (string_bytes text.new ≡ string_bytes text.old
        ++ table_change_line (place, krate, changed)) }
{
    let krate = krate.0;
    match place {
        Place::File(file) => {
            let file = file.0;
            writeln!(text, "crate {krate} file {file} change {changed}")
        }
        Place::Block(block) => {
            let block = block.0;
            writeln!(text, "crate {krate} block {block} change {changed}")
        }
    }
}

/// Adds the line on a place and a crate, with a change number.
///
/// # Errors
///
/// Only if memory runs out. Then the text stays as it was.
pub fn push_change(
    alloc: Global,
    place: Place,
    krate: Crate,
    changed: u64,
    text: &mut String,
) -> Result<(), AllocError>
    ensures line { OnOk result (string_bytes text.new ≡ string_bytes text.old
        ++ table_change_line (place, krate, changed)) }
    ensures same { OnErr result (string_bytes text.new ≡ string_bytes text.old) }
{
    let mut line = String::new(alloc);
    write_change(place, krate, changed, &mut line)?;
    text.push_str(&line)
}

#[tactic(auto, unfolding(crate::specs::Outputs::page_text, crate::specs::Outputs::imports_text))]
fn tree_text(
    alloc: Global,
    sources: &Sources,
    edition: &Edition,
    show: TreeShow,
) -> Result<String, AllocError>
    requires { IsKnown sources.now show.krate }
    ensures { IfOk result (λ text. string_bytes text
        ≡ printed_show edition.now.reserved.items sources.now show) }
{
    let tree = sources.tree(show.place, show.krate);
    match show.kind {
        ShowKind::Page => tree.pretty_print(alloc, edition),
        ShowKind::Tree => {
            let changed = sources.changed(show.place, show.krate);
            let mut text = String::new(alloc);
            write_change(show.place, show.krate, changed, &mut text)?;
            text.push_str(&tree.pretty_print(alloc, edition)?)?;
            Ok(text)
        }
        ShowKind::Imports => imports_text(alloc, tree, edition),
    }
}

// A line for each change.
fn change_lines(alloc: Global, changes: ChangedSince<'_>) -> Result<String, AllocError>
    ensures { IfOk result (λ text. string_bytes text ≡ flat_map table_change_line changes.entry) }
{
    let mut text = String::new(alloc);
    for (place, krate, changed) in changes {
        write_change(place, krate, changed, &mut text)?;
    }
    Ok(text)
}

/// Adds the lines of what changed since a number.
///
/// # Errors
///
/// Only if memory runs out. Then the text stays as it was.
pub fn push_changes(
    alloc: Global,
    sources: &Sources,
    since: u64,
    text: &mut String,
) -> Result<(), AllocError>
    ensures lines { OnOk result (IsAdded (AreChanges sources.now since) (string_bytes text.old)
        (string_bytes text.new)) }
    ensures same { OnErr result (string_bytes text.new ≡ string_bytes text.old) }
{
    let places = sources.changed_places(alloc, since)?;
    let lines = change_lines(alloc, sources.changed_among(since, &places))?;
    text.push_str(&lines)
}

fn push_tree(
    alloc: Global,
    sources: &Sources,
    edition: &Edition,
    show: TreeShow,
    text: &mut String,
) -> Result<(), AllocError>
    requires { IsKnown sources.now show.krate }
    ensures added { OnOk result (string_bytes text.new ≡ string_bytes text.old
        ++ printed_show edition.now.reserved.items sources.now show) }
    ensures same { OnErr result (string_bytes text.new ≡ string_bytes text.old) }
{
    let shown = tree_text(alloc, sources, edition, show)?;
    text.push_str(&shown)
}

/// The page of a tree, or the imports of its uses.
#[derive(Debug)]
pub struct Pages;

impl ShowWriter for Pages {
    ghost is_text = { IsPrinted };

    fn push_show(
        &self,
        alloc: Global,
        sources: &Sources,
        edition: &Edition,
        show: Show,
        text: &mut String,
    ) -> Result<(), AllocError> {
        match show {
            Show::OfTree(show) => push_tree(alloc, sources, edition, show, text),
            Show::Changed { since } => push_changes(alloc, sources, since, text),
        }
    }

    #[tactic(auto, using(crate::proofs::Outputs::printed_fixed))]
    fn are_fixed() {}
}
