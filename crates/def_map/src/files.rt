//! What the files of a crate add to its table.
ghost use Rattle.std.specs.Prelude.{◌≡◌, [], ◌∷◌, IfOk, OnOk, count_by, flat_map, map, nat_lt, option_copied};
ghost use Rattle.std.specs.Prelude.{slice_get, sum_by};
ghost use Rattle.std.specs.List.{enumerate_from};
ghost use Rattle.item_tree.specs.Walk.{of_id};
ghost use Rattle.item_tree_attrs.specs.Key.{has_key};
ghost use Rattle.def_map.specs.Inner.Walking.{AddsRows};
ghost use Rattle.def_map.specs.Tables as spec;
ghost use Rattle.def_map.specs.Tables.{macro_veil, veil};
ghost use Rattle.def_map.specs.Views.{crate_row_view, sources_view};
ghost use Rattle.def_map.specs.declared.kinds.Visibility.TheVariants.{Public};

use crate::attributes::{is_keyed, marks_of};
use crate::ctx::Ctx;
use crate::kinds::{Namespace, Visibility};
use crate::push::{Place, Row};
use crate::rows::{DeclaredName, Meaning};
use crate::walk::{attrs_in, false_cfg_in, push_disabled, push_items, push_marked};
use hir_input::{Attr, Name};
use item_tree::{ItemTree, ModItemId};
use module_tree::{ModuleData, ModuleOrigin};
use std::alloc::{AllocError, Global};
use tree_walk::preorder;

/// Adds what the items of a file add, which is this module.
#[tactic(auto, using(item_tree::proofs::Walking::ids_contained))]
fn push_tree<'t>(
    ctx: &Ctx<'_, '_>,
    tree: &'t ItemTree,
    at: u32,
    rows: &mut Vec<Row<'t>>,
) -> Result<(), AllocError>
    ensures { OnOk result (AddsRows rows.old.items rows.new.items
        (spec.tree_rows ctx.now.parents.now (sources_view ctx.now.sources) at tree.now)) }
{
    let lent = tree.top_level_attrs();
    if let Some(cfg) = false_cfg_in(lent) {
        return push_disabled(ctx, at, cfg, rows);
    }
    let marks = marks_of(attrs_in(lent));
    push_marked(at, &marks, rows)?;
    let place = Place {
        at,
        is_certain: !marks.is_foreign,
    };
    push_items(ctx, tree, tree.top_level_items(), place, rows)
}

/// How many attributes have this name.
fn keyed_count(attrs: &[Attr], key: &str) -> usize
    ensures { result ≡ count_by (has_key key.now) attrs.now }
{
    attrs.iter().filter(|attr| is_keyed(attr, key)).count()
}

/// How many attributes of an item are `macro_export`.
#[tactic(auto, using(crate::proofs::Exports::exports_lent))]
fn id_exports(tree: &ItemTree, id: ModItemId) -> usize
    ensures { result ≡ of_id tree.now 0 spec.node_exports id }
{
    keyed_count(attrs_in(tree.attrs(id)), "macro_export")
}

/// Whether a word stands more often than items have it as an attribute.
fn is_more(tree: &ItemTree, ids: &[ModItemId], words: u32) -> bool
    ensures { result ≡ nat_lt (sum_by (of_id tree.now 0 spec.node_exports) ids.now) words }
{
    let mut left = words as usize;
    for id in ids {
        let count = id_exports(tree, *id);
        if left <= count {
            return false;
        }
        left -= count;
    }
    0 < left
}

/// Whether a text has the word `macro_export` more often than its tree, or it is not known how often.
#[tactic(auto, using(crate::proofs::Exports::exports_by_ids))]
fn hides_exports(alloc: Global, tree: &ItemTree, words: Option<&u32>) -> Result<bool, AllocError>
    ensures { IfOk result (λ hides. hides ≡ spec.hides_exports tree.now (option_copied words.entry)) }
{
    let Some(words) = words else {
        return Ok(true);
    };
    let ids = preorder(alloc, tree)?;
    Ok(is_more(tree, &ids, *words))
}

/// The tree of a file, if it has one.
#[tactic(auto, using(crate::proofs::LentItems::tree_lent))]
fn tree_of<'t>(ctx: &Ctx<'_, 't>, file: u32) -> Option<&'t ItemTree>
    ensures { option_copied result ≡ slice_get (sources_view ctx.now.sources).trees file }
{
    ctx.sources.trees.get(file as usize).copied()
}

/// How often the word `macro_export` stands in a file.
fn words_of<'t>(ctx: &Ctx<'_, 't>, file: u32) -> Option<&'t u32>
    ensures { option_copied result ≡ slice_get ctx.now.sources.export_words.now file }
{
    ctx.sources.export_words.get(file as usize)
}

/// Adds what a missing file hides.
fn push_missing(at: u32, rows: &mut Vec<Row<'_>>) -> Result<(), AllocError>
    ensures { OnOk result (AddsRows rows.old.items rows.new.items (veil at Public ∷ macro_veil ∷ [])) }
{
    rows.push(Row::Veil(at, Visibility::Public))?;
    rows.push(Row::MacroVeil)?;
    Ok(())
}

/// Adds what the bodies of a file hide.
fn push_hidden(
    alloc: Global,
    tree: &ItemTree,
    words: Option<&u32>,
    rows: &mut Vec<Row<'_>>,
) -> Result<(), AllocError>
    ensures { OnOk result (AddsRows rows.old.items rows.new.items
        (spec.hidden_rows tree.now (option_copied words.entry))) }
{
    if hides_exports(alloc, tree, words)? {
        rows.push(Row::MacroVeil)?;
    }
    Ok(())
}

/// Adds what a file adds, which is this module.
fn push_file<'t>(
    ctx: &Ctx<'_, 't>,
    at: u32,
    file: u32,
    rows: &mut Vec<Row<'t>>,
) -> Result<(), AllocError>
    ensures { let s = sources_view ctx.now.sources in
        OnOk result (AddsRows rows.old.items rows.new.items
        (spec.file_rows ctx.now.parents.now s at (slice_get s.export_words file) (slice_get s.trees file))) }
{
    let Some(tree) = tree_of(ctx, file) else {
        return push_missing(at, rows);
    };
    push_hidden(ctx.alloc, tree, words_of(ctx, file), rows)?;
    push_tree(ctx, tree, at, rows)
}

/// Adds what a module adds.
fn push_module<'t>(
    ctx: &Ctx<'_, 't>,
    at: u32,
    module_data: &ModuleData,
    rows: &mut Vec<Row<'t>>,
) -> Result<(), AllocError>
    ensures { OnOk result (AddsRows rows.old.items rows.new.items
        (spec.module_rows ctx.now.parents.now (sources_view ctx.now.sources) (at, module_data.now))) }
{
    match module_data.origin {
        ModuleOrigin::CrateRoot | ModuleOrigin::File { .. } => {
            push_file(ctx, at, module_data.file, rows)
        }
        ModuleOrigin::Inline { .. } => Ok(()),
    }
}

/// Adds crates that the root has by its edition.
fn push_root_crates<'t>(names: &'t [Name], rows: &mut Vec<Row<'t>>) -> Result<(), AllocError>
    ensures { OnOk result (AddsRows rows.old.items rows.new.items (map spec.root_crate names.now)) }
{
    for name in names {
        rows.push(Row::Declares(DeclaredName {
            parent: 0,
            namespace: Namespace::Types,
            name,
            meaning: Meaning::Unseen,
            visibility: Visibility::Module(0),
            is_sure: false,
        }))?;
    }
    Ok(())
}

fn push_expanded(allows_expanded: bool, rows: &mut Vec<Row<'_>>) -> Result<(), AllocError>
    ensures { OnOk result (AddsRows rows.old.items rows.new.items (spec.expanded_rows allows_expanded)) }
{
    if allows_expanded {
        rows.push(Row::MacroVeil)?;
    }
    Ok(())
}

/// What all places of a crate add.
pub(crate) fn rows_with<'t>(ctx: &Ctx<'_, 't>) -> Result<Vec<Row<'t>>, AllocError>
    ensures { IfOk result (λ rows. map crate_row_view rows.items
        ≡ spec.rows_with ctx.now.parents.now (sources_view ctx.now.sources)) }
{
    let mut rows = Vec::new(ctx.alloc);
    push_root_crates(ctx.sources.manifest.root_crates(), &mut rows)?;
    push_expanded(ctx.sources.allows_expanded, &mut rows)?;
    push_modules(ctx, &mut rows)?;
    Ok(rows)
}

/// Adds what each module adds.
fn push_modules<'t>(ctx: &Ctx<'_, 't>, rows: &mut Vec<Row<'t>>) -> Result<(), AllocError>
    ensures { let s = sources_view ctx.now.sources in
        OnOk result (AddsRows rows.old.items rows.new.items
        (flat_map (spec.module_rows ctx.now.parents.now s) (enumerate_from 0 s.modules))) }
{
    let modules = ctx.sources.modules;
    for at in 0..modules.len() {
        push_module(ctx, at as u32, &modules[at], rows)?;
    }
    Ok(())
}
