//! An example of the crates as a library: what the uses of a text import, and which edits of a file change its tree.
#![tactic(auto)]

use hir_input::{CfgOptions, Crate, Edition, EditionYear, HirFileId};
use item_tree::{CrateData, ModItemKind, lower_syntax};
use item_tree_db::{Edit, Place, Sources};
use rust_items::read_source_file;
use std::alloc::Global;
use tree_walk::list_imports;

/// A crate whose root is file 0, in which no cfg is set.
fn plain_crate(alloc: Global) -> CrateData {
    CrateData {
        root: HirFileId(0),
        cfg: CfgOptions::new(Vec::new(alloc)),
        attrs: Vec::new(alloc),
    }
}

/// Prints the imports of each use at the top of a Rust text.
#[tactic(auto, using(item_tree::proofs::Walking::ids_contained))]
fn print_imports(rt: &HostRuntime, text: &str, edition: &Edition) -> anyhow::Result<()> {
    let alloc = rt.alloc();
    let file = read_source_file(alloc, text, edition.year)?;
    let tree = lower_syntax(alloc, &file.syntax, true, &plain_crate(alloc), &[])?;
    for id in tree.top_level_items() {
        if let ModItemKind::Use(_, item) = tree.index(*id) {
            for import in &list_imports(alloc, item)? {
                let path = import.path.display(edition);
                println!(rt; "{path}")?;
            }
        }
    }
    Ok(())
}

/// Sets a file of the table to a Rust text, and says whether its tree in crate 0 changed.
fn set_file(
    alloc: Global,
    sources: &mut Sources,
    file: HirFileId,
    text: &str,
) -> anyhow::Result<bool> {
    let before = sources.number();
    let syntax = read_source_file(alloc, text, EditionYear::E2024)?.syntax;
    sources.edit(Edit::SetFile { file, syntax })?;
    for (place, krate, _number) in sources.changed_since(before) {
        if place == Place::File(file) && krate == Crate(0) {
            return Ok(true);
        }
    }
    Ok(false)
}

fn main(rt: HostRuntime) -> anyhow::Result<()> {
    let alloc = rt.alloc();
    let edition = Edition {
        year: EditionYear::E2024,
        reserved: Vec::new(alloc),
    };
    print_imports(&rt, "use std::{fmt, io::{self, Write as W}};", &edition)?;

    let crates = vec![in alloc; plain_crate(alloc)]?;
    let mut sources = Sources::new(alloc, crates, Vec::new(alloc), 0);
    for text in ["fn f() { 1 }", "fn f() { 2 }", "pub fn f() {}"] {
        let is_changed = set_file(alloc, &mut sources, HirFileId(0), text)?;
        println!(rt; "{text}: {is_changed}")?;
    }
    Ok(())
}
