//! The imports of a tree, as text.
ghost use Rattle.std.specs.Prelude.{◌≡◌, ◌++◌, false, IfOk, OnOk, option_copied, string_bytes, flat_map};
ghost use Rattle.item_tree.specs.Calls.{import};
ghost use Rattle.item_tree.specs.Shown.{IsContained};
ghost use Rattle.item_tree.specs.Walk.{AreContained, of_id};
ghost use Rattle.item_tree_request.specs.ImportLines.{import_kind_word, import_line, use_lines, import_lines};
ghost use Rattle.item_tree_request.specs.Inner.ImportsByIds.{import_lines_at};

use hir_input::{Edition, FileAstId, ModPath};
use item_tree::{
    ImportAlias, ImportKind, ItemTree, ModItemId, ModItemKind, ModKind, Use, UseTreeIdx,
};
use std::alloc::{AllocError, Global};

fn kind_word(kind: ImportKind) -> &'static str
    ensures { result.now ≡ import_kind_word kind }
{
    match kind {
        ImportKind::Plain => "plain",
        ImportKind::Glob => "glob",
        ImportKind::TypeOnly => "type",
    }
}

#[tactic(auto, unfolding(crate::specs::ImportLines::import_line))]
fn push_import(
    text: &mut String,
    edition: &Edition,
    index: UseTreeIdx,
    path: &ModPath,
    kind: ImportKind,
    alias: Option<&ImportAlias>,
) -> Result<(), AllocError>
    ensures { let line = import_line edition.now.reserved.items
        (import index path.now kind (option_copied alias.entry)) in
        OnOk result (string_bytes text.new ≡ string_bytes text.old ++ line) }
{
    let number = index.0;
    let path = path.display(edition);
    let word = kind_word(kind);
    match alias {
        None => writeln!(text, "{number} {path} {word}"),
        Some(alias) => {
            let alias = alias.display(edition);
            writeln!(text, "{number} {path} {word} as {alias}")
        }
    }
}

// The line of a use's id, and those of its imports.
#[tactic(auto, unfolding(crate::specs::ImportLines::use_lines))]
fn lines_of_use(
    alloc: Global,
    edition: &Edition,
    ast_id: FileAstId,
    item: &Use,
) -> Result<String, AllocError>
    ensures { IfOk result (λ text. string_bytes text
        ≡ use_lines edition.now.reserved.items ast_id item.now.tree) }
{
    let mut text = String::new(alloc);
    writeln!(text, "{ast_id}")?;
    let mut is_refused = false;
    let mut visit = |index: UseTreeIdx, path: ModPath, kind: ImportKind, alias: Option<ImportAlias>|
        ensures { is_refused.exit ≡ false
            → (is_refused.entry ≡ false)
            × (string_bytes text.exit ≡ string_bytes text.entry
            ++ import_line edition.entry.now.reserved.items (import index path kind alias)) }
    {
        if !is_refused {
            is_refused = push_import(
                &mut text,
                edition,
                index,
                &path,
                kind,
                alias.as_ref(),
            ).is_err();
        }
    };
    item.expand(alloc, &mut visit)?;
    if is_refused {
        return Err(AllocError);
    }
    Ok(text)
}

// The lines of the uses among items and in their modules.
#[cycle(imports)]
fn push_all(
    alloc: Global,
    tree: &ItemTree,
    edition: &Edition,
    ids: &[ModItemId],
    text: &mut String,
) -> Result<(), AllocError>
    requires { AreContained tree.now ids.now }
    ensures { let lines = flat_map (import_lines_at edition.now.reserved.items tree.now) ids.now in
        OnOk result (string_bytes text.new ≡ string_bytes text.old ++ lines) }
{
    for id in ids {
        push_one(alloc, tree, edition, *id, text)?;
    }
    Ok(())
}

// Those of one item.
#[cycle(imports)]
#[tactic(auto, using(crate::proofs::ImportLists::lines_of_items))]
fn push_one(
    alloc: Global,
    tree: &ItemTree,
    edition: &Edition,
    id: ModItemId,
    text: &mut String,
) -> Result<(), AllocError>
    requires { IsContained tree.now id }
    ensures { OnOk result (string_bytes text.new ≡ string_bytes text.old
        ++ import_lines_at edition.now.reserved.items tree.now id) }
{
    match tree.index(id) {
        ModItemKind::Use(ast_id, item) => {
            let lines = lines_of_use(alloc, edition, ast_id, item)?;
            text.push_str(&lines)?;
            Ok(())
        }
        ModItemKind::Mod(_, module) => match &module.kind {
            ModKind::Inline { items } => push_all(alloc, tree, edition, items, text),
            ModKind::Outline => Ok(()),
        },
        _ => Ok(()),
    }
}

// The lines of each use of a tree, also in its modules, in order.
#[tactic(auto, using(item_tree::proofs::Walking::ids_contained, crate::proofs::ImportLists::top_lines))]
pub(crate) fn imports_text(
    alloc: Global,
    tree: &ItemTree,
    edition: &Edition,
) -> Result<String, AllocError>
    ensures { let lines = import_lines edition.now.reserved.items tree.now.forest in
        IfOk result (λ text. string_bytes text ≡ lines) }
{
    let mut text = String::new(alloc);
    push_all(alloc, tree, edition, tree.top_level_items(), &mut text)?;
    Ok(text)
}
