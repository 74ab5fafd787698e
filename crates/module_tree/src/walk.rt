//! The walk of a crate's trees.
ghost use Rattle.std.specs.Prelude.{◌≡◌, ◌<◌, ◌≤◌, length, IfOk, IsErrOf, fold, option_copied};
ghost use Rattle.item_tree.specs.{Shown.IsContained, Walk.AreContained};
ghost use Rattle.module_tree.specs.Inner.{dir_view, entered_in, id_modules_in, mod_item_view, mod_path_at};
ghost use Rattle.module_tree.specs.Inner.{place_view, AddsAll};
ghost use Rattle.module_tree.specs.Modules as spec;
ghost use Rattle.module_tree.specs.Modules.{crate_modules, most_modules, nothing_found, with_found};
ghost use Rattle.module_tree.specs.declared.data.ModuleTreeError.TheVariants.{TooManyModules};
ghost use Rattle.module_tree.specs.Views.{files_of, modules_view};

use crate::data::{ModuleChoice, ModuleTree, ModuleTreeError, UnresolvedReason};
use crate::known::{KnownFiles, known_tree};
use crate::mod_dir::{ModDir, ModItem, candidates};
use crate::place::{
    Place, push_inline, push_outline, push_unresolved, push_wanted, root_found, root_place,
};
use crate::resolve::{Resolved, resolve};
use item_tree::{ItemTree, ModItemId, ModItemKind, ModKind};
use item_tree_attrs::{AttrsOrCfg, AttrsOwned};
use std::alloc::Global;
use tree_walk::{is_enabled, is_file_enabled};

/// How deep files may stand in the root file.
const DEPTH_LIMIT: u32 = 128;

/// What the walk has at hand everywhere: the allocator, what is known, and which items are followed.
#[derive(Clone, Copy)]
pub(crate) struct Ctx<'a> {
    pub(crate) alloc: Global,
    pub(crate) known: KnownFiles<'a>,
    pub(crate) choice: ModuleChoice,
}

/// The string of the first attribute `path` that has one.
fn path_in(attrs: &AttrsOwned) -> Option<&str>
    ensures { option_copied result ≡ spec.path_attr attrs.now }
{
    let (path, _span) = attrs.as_ref().by_key("path").string_value_with_span()?;
    Some(path)
}

/// That of an item.
#[tactic(auto, using(crate::proofs::ModItems::path_lent))]
fn path_of(tree: &ItemTree, id: ModItemId) -> Option<&str>
    ensures { option_copied result ≡ mod_path_at tree.now id }
{
    match tree.attrs(id) {
        Some(AttrsOrCfg::Enabled { attrs }) => path_in(attrs),
        Some(AttrsOrCfg::CfgDisabled(disabled)) => path_in(&disabled.1),
        None => None,
    }
}

/// Whether what a cfg disables, or none does, is followed.
fn is_followed(choice: ModuleChoice, is_enabled: bool) -> bool
    ensures { result ≡ spec.is_followed choice is_enabled }
{
    match choice {
        ModuleChoice::Enabled => is_enabled,
        ModuleChoice::All => true,
    }
}

/// Adds what is found in items.
#[cycle(walk)]
fn push_items<'a>(
    ctx: &Ctx<'a>,
    tree: &'a ItemTree,
    ids: &[ModItemId],
    place: &Place<'a>,
    depth: u32,
    found: &mut ModuleTree,
) -> Result<(), ModuleTreeError>
    requires contained { AreContained tree.now ids.now }
    requires few { length (modules_view found.old).modules ≤ most_modules }
    ensures { let add = id_modules_in ctx.now depth place.now tree.now in
        AddsAll (modules_view found.new) (fold add (modules_view found.old) ids.now) result }
{
    for id in ids {
        push_item(ctx, tree, *id, place, depth, found)?;
    }
    Ok(())
}

/// Adds what is found in an item: nothing, unless it is a `mod` that is followed.
#[cycle(walk)]
#[tactic(auto, using(crate::proofs::ModItems::mod_adds))]
fn push_item<'a>(
    ctx: &Ctx<'a>,
    tree: &'a ItemTree,
    id: ModItemId,
    place: &Place<'a>,
    depth: u32,
    found: &mut ModuleTree,
) -> Result<(), ModuleTreeError>
    requires contained { IsContained tree.now id }
    requires few { length (modules_view found.old).modules ≤ most_modules }
    ensures { let add = id_modules_in ctx.now depth place.now tree.now in
        AddsAll (modules_view found.new) (add (modules_view found.old) id) result }
{
    let ModItemKind::Mod(ast_id, module) = tree.index(id) else {
        return Ok(());
    };
    if !is_followed(ctx.choice, is_enabled(tree, id)) {
        return Ok(());
    }
    let item = ModItem {
        name: &module.name,
        id: ast_id,
        path: path_of(tree, id),
    };
    match &module.kind {
        ModKind::Inline { items } => {
            let inside = push_inline(ctx.alloc, place, &item, found)?;
            push_items(ctx, tree, items, &inside, depth, found)
        }
        ModKind::Outline => push_mod(ctx, &item, place, depth, found),
    }
}

/// Adds what is found of a `mod` whose items are in a file.
#[cycle(walk)]
fn push_mod<'a>(
    ctx: &Ctx<'a>,
    item: &ModItem<'a>,
    place: &Place<'a>,
    depth: u32,
    found: &mut ModuleTree,
) -> Result<(), ModuleTreeError>
    requires few { length (modules_view found.old).modules ≤ most_modules }
    ensures { let p = place_view place.now in
        let m = mod_item_view item.now in
        let meant = spec.resolution (files_of ctx.now.known) p m in
        let f = spec.outline_module (entered_in ctx.now depth) p m meant nothing_found in
        AddsAll (modules_view found.new) (with_found place.now.module_id f (modules_view found.old)) result }
{
    let candidates = candidates(ctx.alloc, &place.dir, item)?;
    match resolve(
        ctx.alloc,
        &ctx.known,
        candidates.as_slice(),
        place.files.as_slice(),
    )? {
        Resolved::Wants(paths) => {
            push_wanted(paths, found)?;
            Ok(())
        }
        Resolved::Fails(reason) => {
            push_unresolved(ctx.alloc, place, item, reason, found)?;
            Ok(())
        }
        Resolved::Finds(file, dir) => push_file(ctx, item, file, dir, place, depth, found),
    }
}

/// Adds the module that a file is, and what is found in its items, if it is followed.
#[cycle(walk)]
#[tactic(auto, using(crate::proofs::ModItems::file_enters))]
fn push_file<'a>(
    ctx: &Ctx<'a>,
    item: &ModItem<'a>,
    file: u32,
    dir: ModDir<'a>,
    place: &Place<'a>,
    depth: u32,
    found: &mut ModuleTree,
) -> Result<(), ModuleTreeError>
    requires few { length (modules_view found.old).modules ≤ most_modules }
    ensures { let m = mod_item_view item.now in
        let f = entered_in ctx.now depth (place_view place.now) m file (dir_view dir.entry) nothing_found in
        AddsAll (modules_view found.new) (with_found place.now.module_id f (modules_view found.old)) result }
{
    if depth == 0 {
        push_unresolved(ctx.alloc, place, item, UnresolvedReason::TooDeep, found)?;
        return Ok(());
    }
    let Some(tree) = known_tree(&ctx.known, file) else {
        let _inside = push_outline(ctx.alloc, place, item, file, dir, found)?;
        return Ok(());
    };
    if !is_followed(ctx.choice, is_file_enabled(tree)) {
        return Ok(());
    }
    let inside = push_outline(ctx.alloc, place, item, file, dir, found)?;
    let ids = tree.top_level_items();
    push_items(ctx, tree, ids, &inside, depth - 1, found)
}

/// The modules of a crate, by the number and the path of its root file, as far as its files are known.
///
/// A `mod` is looked for at two paths, `a.rs` and `a/mod.rs`, or at that of its first `#[path]` with a string. Paths
/// are normalized: `.` and a second slash mean nothing, `..` takes a name away. Above the top of an absolute path is
/// that top; above the folder from which other paths are seen is `..`. As long as nothing is known of one of its paths,
/// a `mod` has no module, and such paths are wanted. Unless all are followed, a `mod` that a cfg disables is left out,
/// and so is one whose file a cfg disables as a whole. A file may be more than one module. An inner `#![path]` of a
/// file means nothing.
///
/// # Errors
///
/// `TooManyModules` only if the crate has more than `MOST_MODULES`, and else only if memory runs out.
#[tactic(auto, using(item_tree::proofs::Walking::ids_contained, crate::proofs::ModItems::disabled_root, crate::proofs::ModItems::missing_root))]
pub fn module_tree(
    alloc: Global,
    root: u32,
    path: &str,
    known: &KnownFiles<'_>,
    choice: ModuleChoice,
) -> Result<ModuleTree, ModuleTreeError>
    ensures found { let all = crate_modules choice (files_of known.now) root path.now in
        IfOk result (λ tree. modules_view tree ≡ all) }
    ensures few { IfOk result (λ tree. length tree.modules.items ≤ most_modules) }
    ensures many { let all = crate_modules choice (files_of known.now) root path.now in
        IsErrOf result TooManyModules → most_modules < length all.modules }
{
    let mut found = root_found(alloc, root)?;
    let Some(tree) = known_tree(known, root) else {
        return Ok(found);
    };
    if !is_followed(choice, is_file_enabled(tree)) {
        return Ok(found);
    }
    let known = *known;
    let ctx = Ctx {
        alloc,
        known,
        choice,
    };
    let place = root_place(alloc, root, path)?;
    let ids = tree.top_level_items();
    push_items(&ctx, tree, ids, &place, DEPTH_LIMIT, &mut found)?;
    Ok(found)
}
