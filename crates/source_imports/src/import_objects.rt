//! Imports as JSON values.
ghost use Rattle.std.specs.Prelude.{◌≡◌, ◌++◌, IfOk, OnOk, map, option_map, flat_map};
ghost use Rattle.serde_json.specs.Data.{no_members};
ghost use Rattle.serde_json.specs.View.{members_view, view};
ghost use Rattle.tree_walk.specs.DeclarationView.{declaration_view};
ghost use Rattle.tree_walk.specs.Listed.{listed_import};
ghost use Rattle.item_tree.specs.Shown.{IsContained};
ghost use Rattle.source_imports.specs.ImportObjects as spec;
ghost use Rattle.source_listing.specs.Views.{placed_trees_view};
ghost use Rattle.source_rows.specs.Places.{AreDistinct};
ghost use Rattle.source_listing.specs.Uses.{file_places, tree_spots_in};

use hir_input::Edition;
use hir_input_json::member::Members;
use item_tree::{ImportAlias, ImportKind, ItemTree};
use line_index::Units;
use rust_items::ItemPlace;
use serde_json::{Map, Value, put};
use source_listing::{PlaceFinder, UseTrees, column_value, line_value, put_text};
use source_rows::Spot;
use std::alloc::{AllocError, Global};
use tree_walk::{Declaration, Declares, Listed, collect};

/// The word of a kind of import.
fn import_word(kind: ImportKind) -> &'static str
    ensures { result.now ≡ spec.import_word kind }
{
    match kind {
        ImportKind::Plain => "plain",
        ImportKind::Glob => "glob",
        ImportKind::TypeOnly => "type",
    }
}

fn alias_value(
    alloc: Global,
    edition: &Edition,
    alias: &Option<ImportAlias>,
) -> Result<Value, AllocError>
    ensures { let form = spec.alias_form edition.now.reserved.items alias.now in
        IfOk result (λ value. view value ≡ form) }
{
    match alias {
        None => Ok(Value::Null),
        Some(alias) => Ok(Value::String(alias.display(edition).to_string(alloc)?)),
    }
}

/// Gives an object the members of an import whose use tree stands there.
pub(crate) fn put_import(
    alloc: Global,
    edition: &Edition,
    spot: Option<Spot>,
    import: &Listed,
    members: &mut Members,
) -> Result<(), AllocError>
    requires { members_view members.old.entries ≡ no_members }
    ensures { let form = spec.import_members edition.now.reserved.items spot
        (listed_import import.now) in
        OnOk result (members_view members.new.entries ≡ form) }
{
    let path = import.path.display(edition);
    let path = path.to_string(alloc)?;
    put(members, alloc, "path", Value::String(path))?;
    put(members, alloc, "line", line_value(spot))?;
    put_text(alloc, "kind", import_word(import.kind), members)?;
    put(members, alloc, "column", column_value(spot))?;
    let alias = alias_value(alloc, edition, &import.alias)?;
    put(members, alloc, "alias", alias)
}

/// The object of an import whose use tree stands there.
fn import_value(
    alloc: Global,
    edition: &Edition,
    spot: Option<Spot>,
    import: &Listed,
) -> Result<Value, AllocError>
    ensures { let form = spec.import_form edition.now.reserved.items spot
        (listed_import import.now) in
        IfOk result (λ value. view value ≡ form) }
{
    let mut members = Map::new(alloc);
    put_import(alloc, edition, spot, import, &mut members)?;
    Ok(Value::Object(members))
}

/// Adds the objects of the imports of a use, whose use trees are these.
fn push_imports(
    alloc: Global,
    edition: &Edition,
    units: Units,
    finder: &mut PlaceFinder<'_>,
    trees: Option<UseTrees<'_>>,
    imports: &[Listed],
    out: &mut Vec<Value>,
) -> Result<(), AllocError>
    ensures objects { let spots = tree_spots_in units finder.old.text
        (option_map placed_trees_view trees.entry) in
        let objects = flat_map (spec.import_object edition.now.reserved.items spots) (map listed_import imports.now) in
        OnOk result (map view out.new.items ≡ map view out.old.items ++ objects) }
    ensures same { finder.new ≡ finder.old }
{
    for import in imports {
        let spot = finder.tree_spot(units, trees, import.index);
        out.push(import_value(alloc, edition, spot, import)?)?;
    }
    Ok(())
}

/// Adds the objects of the imports of an item, if that is a use.
fn push_declaration(
    alloc: Global,
    edition: &Edition,
    units: Units,
    finder: &mut PlaceFinder<'_>,
    tree: &ItemTree,
    declaration: &Declaration<'_>,
    out: &mut Vec<Value>,
) -> Result<(), AllocError>
    requires { IsContained tree.now declaration.now.id }
    ensures objects { let objects = spec.seen_objects units
        finder.old.text edition.now.reserved.items finder.old.places in
        let seen = objects (declaration_view tree.now declaration.now) in
        OnOk result (map view out.new.items ≡ map view out.old.items ++ seen) }
    ensures same { finder.new ≡ finder.old }
{
    match &declaration.declares {
        Declares::Name(_) => Ok(()),
        Declares::Imports(imports) => {
            let trees = finder.trees_of(declaration.id.ast_id(tree));
            push_imports(alloc, edition, units, finder, trees, imports, out)
        }
    }
}

/// The imports of a file as values, in the order in which they are written, each an object with the `line` and the
/// `column` of its own use tree, by columns of these units, its `path`, the word of its `kind` (`plain`; `glob` for all
/// names of the path; `type` for a name in the type namespace alone, by `self` in a list), and what it is renamed to as
/// its `alias`, which is null where it is not. What a cfg disables is not left out.
///
/// The places, and those of the use trees, are what the reader gave with the syntax of the tree.
///
/// # Errors
///
/// Only if memory runs out.
pub fn import_items(
    alloc: Global,
    text: &str,
    places: &[ItemPlace],
    use_trees: &[usize],
    tree: &ItemTree,
    edition: &Edition,
    units: Units,
) -> Result<Vec<Value>, AllocError>
    requires { AreDistinct places.now }
    ensures { let objects = spec.import_objects units text.now edition.now.reserved.items
        (file_places places.now use_trees.now) in
        IfOk result (λ items. map view items.items ≡ objects tree.now.forest) }
{
    let mut finder = PlaceFinder::new(text, places, use_trees);
    let mut out = Vec::new(alloc);
    let collected = collect(alloc, tree)?;
    for declaration in &collected.declarations {
        push_declaration(
            alloc,
            edition,
            units,
            &mut finder,
            tree,
            declaration,
            &mut out,
        )?;
    }
    Ok(out)
}
