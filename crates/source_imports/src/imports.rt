//! Lists of imports.
ghost use Rattle.std.specs.Prelude.{◌≡◌, ◌++◌, ◌∷◌, [], Some, IfOk, OnOk, map, option_copied, option_map};
ghost use Rattle.std.specs.Prelude.{string_bytes, flat_map};
ghost use Rattle.tree_walk.specs.DeclarationView.{declaration_view, declared_by};
ghost use Rattle.tree_walk.specs.Listed.{listed_import};
ghost use Rattle.item_tree.specs.Shown.{IsContained};
ghost use Rattle.list_forms.specs.declared.lines.Form.TheVariants.{Json};
ghost use Rattle.serde_json.specs.Data.{no_members};
ghost use Rattle.serde_json.specs.View.{members_view, view};
ghost use Rattle.source_imports.specs.ImportLines as spec;
ghost use Rattle.source_listing.specs.ImportTexts.{import_text};
ghost use Rattle.source_imports.specs.Imports.{of_declared};
ghost use Rattle.source_listing.specs.Paths.{bare_segment};
ghost use Rattle.source_listing.specs.Views.{placed_trees_view, source_view};
ghost use Rattle.source_rows.specs.Places.{AreDistinct};
ghost use Rattle.source_imports.specs.Removals.{import_removal, removals};
ghost use Rattle.source_listing.specs.Uses.{import_spot, file_places, tree_spots};
ghost use Rattle.source_imports.specs.Views.{import_choice_view};
ghost use Rattle.hir_input.specs.Cfg.{cfg_view};

use crate::import_cfgs::ImportChoice;
use crate::import_objects::put_import;
use crate::removals::removal_of;
use hir_input::{CfgExpr, Edition, FileAstId};
use item_tree::{ItemTree, RawVisibility};
use line_index::Units;
use list_forms::{BOLD, FAINT, Form, USUAL, push_color, value_line};
use rust_items::ItemPlace;
use rust_paths::TextRange;
use serde_json::{Map, Value, put};
use source_listing::{
    PlaceFinder, UseTrees, bytes_value, joined_scope, push_import_text, push_scope, push_spot,
    put_text, range_value, visibility_value,
};
use source_rows::{Source, Spot};
use std::alloc::{AllocError, Global};
use tree_walk::{Declaration, Declares, Listed, collect};

/// What the imports of a use have in common.
#[derive(Clone, Copy)]
struct Around<'a> {
    form: Form,
    source: Source<'a>,
    /// The modules around it, with two colons before each.
    scope: &'a str,
    visibility: Option<&'a RawVisibility>,
    cfgs: &'a [CfgExpr],
}

#[tactic(auto, unfolding(list_forms::specs::Colors::colored_text))]
fn push_line(
    edition: &Edition,
    is_colored: bool,
    path: &str,
    spot: Option<Spot>,
    import: &Listed,
    out: &mut String,
) -> Result<(), AllocError>
    ensures { let line = spec.placed_import_line edition.now.reserved.items is_colored path.now spot
        (listed_import import.now) in
        OnOk result (string_bytes out.new ≡ string_bytes out.old ++ line) }
{
    push_color(is_colored, FAINT, out)?;
    push_spot(path, spot, out)?;
    push_color(is_colored, USUAL, out)?;
    push_color(is_colored, BOLD, out)?;
    push_import_text(edition, import, out)?;
    push_color(is_colored, USUAL, out)?;
    out.push_str("\n")
}

/// The texts of cfgs.
fn cfgs_value(alloc: Global, cfgs: &[CfgExpr]) -> Result<Value, AllocError>
    ensures { IfOk result (λ value. view value ≡ spec.cfgs_form (map cfg_view cfgs.now)) }
{
    let mut texts = Vec::new(alloc);
    for cfg in cfgs {
        texts.push(Value::String(cfg.to_string(alloc)?))?;
    }
    Ok(Value::Array(texts))
}

fn file_import_object(
    alloc: Global,
    edition: &Edition,
    around: Around<'_>,
    spot: Option<Spot>,
    removal: Option<TextRange>,
    import: &Listed,
) -> Result<Value, AllocError>
    ensures { let a = around.entry in
        let object = spec.file_import_object edition.now.reserved.items a.source.path.now a.scope.now in
        let object = object (option_copied a.visibility) (map cfg_view a.cfgs.now) in
        IfOk result (λ value. view value ≡ object spot removal (listed_import import.now)) }
{
    let mut members = Map::new(alloc);
    put_import(alloc, edition, spot, import, &mut members)?;
    put(&mut members, alloc, "cfg", cfgs_value(alloc, around.cfgs)?)?;
    put_text(alloc, "file", around.source.path, &mut members)?;
    put_text(alloc, "module", joined_scope(around.scope), &mut members)?;
    put(&mut members, alloc, "range", range_value(alloc, spot)?)?;
    put(&mut members, alloc, "removal", bytes_value(alloc, removal)?)?;
    let visibility = visibility_value(alloc, edition, around.visibility)?;
    put(&mut members, alloc, "visibility", visibility)?;
    Ok(Value::Object(members))
}

fn push_object(
    alloc: Global,
    edition: &Edition,
    around: Around<'_>,
    spot: Option<Spot>,
    removal: Option<TextRange>,
    import: &Listed,
    out: &mut String,
) -> Result<(), AllocError>
    ensures { let a = around.entry in
        let told = spec.import_told edition.now.reserved.items Json a.source.path.now a.scope.now in
        let told = told (option_copied a.visibility) (map cfg_view a.cfgs.now) in
        let line = told spot removal (listed_import import.now) in
        OnOk result (string_bytes out.new ≡ string_bytes out.old ++ line) }
{
    let object = file_import_object(alloc, edition, around, spot, removal, import)?;
    let line = value_line(alloc, &object)?;
    out.push_str(&line)
}

fn push_import(
    alloc: Global,
    edition: &Edition,
    around: Around<'_>,
    trees: Option<UseTrees<'_>>,
    spot: Option<Spot>,
    import: &Listed,
    out: &mut String,
) -> Result<(), AllocError>
    ensures { let a = around.entry in
        let removed = removals a.source.text.now (option_map placed_trees_view trees.entry) in
        let import = listed_import import.now in
        let told = spec.import_told edition.now.reserved.items a.form a.source.path.now a.scope.now in
        let told = told (option_copied a.visibility) (map cfg_view a.cfgs.now) in
        let line = told spot (removed import.index) import in
        OnOk result (string_bytes out.new ≡ string_bytes out.old ++ line) }
{
    match around.form {
        Form::Line { is_colored } => {
            push_line(edition, is_colored, around.source.path, spot, import, out)
        }
        Form::Json => {
            let removal = removal_of(around.source.text, trees, import.index);
            push_object(alloc, edition, around, spot, removal, import, out)
        }
    }
}

/// The imports of a use, whose use trees are these.
fn push_imports(
    alloc: Global,
    edition: &Edition,
    around: Around<'_>,
    finder: &mut PlaceFinder<'_>,
    trees: Option<UseTrees<'_>>,
    imports: &[Listed],
    out: &mut String,
) -> Result<(), AllocError>
    ensures text { let a = around.entry in
        let trees = option_map placed_trees_view trees.entry in
        let line = spec.numbered_import edition.now.reserved.items a.form a.source.path.now a.scope.now in
        let line = line (option_copied a.visibility) (map cfg_view a.cfgs.now) in
        let line = line (removals a.source.text.now trees) (tree_spots finder.old.text trees) in
        OnOk result (string_bytes out.new ≡ string_bytes out.old ++ flat_map line (map listed_import imports.now)) }
    ensures same { finder.new ≡ finder.old }
{
    for import in imports {
        let spot = finder.tree_spot(Units::Characters, trees, import.index);
        push_import(alloc, edition, around, trees, spot, import, out)?;
    }
    Ok(())
}

/// The modules around a declaration, with two colons before each.
#[tactic(auto, using(source_listing::proofs::PushedTexts::segments_of))]
fn scope_of(alloc: Global, declaration: &Declaration<'_>) -> Result<String, AllocError>
    ensures { let names = map (λ n. n.now) declaration.now.path.value.items in
        IfOk result (λ scope. string_bytes scope ≡ flat_map bare_segment names) }
{
    let mut scope = String::new(alloc);
    push_scope(declaration.path.as_slice(), &mut scope)?;
    Ok(scope)
}

/// The imports of a declaration of an item under these cfgs, if that is a use.
fn push_under(
    alloc: Global,
    edition: &Edition,
    form: Form,
    source: Source<'_>,
    finder: &mut PlaceFinder<'_>,
    id: FileAstId,
    cfgs: &[CfgExpr],
    declaration: &Declaration<'_>,
    out: &mut String,
) -> Result<(), AllocError>
    ensures text { let d = declaration.now in
        let told = spec.numbered_import edition.now.reserved.items form source.entry.path.now in
        let told = told (flat_map bare_segment (map (λ n. n.now) d.path.value.items)) (option_copied d.visibility) in
        let told = told (map cfg_view cfgs.now) (import_removal source.entry.text.now finder.old.places id) in
        let lines = of_declared told (import_spot finder.old.text finder.old.places id) in
        OnOk result (string_bytes out.new ≡ string_bytes out.old ++ lines (declared_by d.declares)) }
    ensures same { finder.new ≡ finder.old }
{
    match &declaration.declares {
        Declares::Name(_) => Ok(()),
        Declares::Imports(imports) => {
            let scope = scope_of(alloc, declaration)?;
            let around = Around {
                form,
                source,
                scope: &scope,
                visibility: declaration.visibility,
                cfgs,
            };
            let trees = finder.trees_of(id);
            push_imports(alloc, edition, around, finder, trees, imports, out)
        }
    }
}

/// The listed imports of an item, if that is a use.
fn push_declaration(
    alloc: Global,
    edition: &Edition,
    form: Form,
    choice: ImportChoice<'_>,
    source: Source<'_>,
    finder: &mut PlaceFinder<'_>,
    tree: &ItemTree,
    declaration: &Declaration<'_>,
    out: &mut String,
) -> Result<(), AllocError>
    requires text { finder.old.text ≡ source.text.now }
    requires contained { IsContained tree.now declaration.now.id }
    ensures text { let lines = spec.seen_lines edition.now.reserved.items form (import_choice_view choice.entry)
        (source_view source.entry) finder.old.places in
        OnOk result (string_bytes out.new ≡ string_bytes out.old ++ lines (declaration_view tree.now declaration.now)) }
    ensures same { finder.new ≡ finder.old }
{
    let id = declaration.id.ast_id(tree);
    let cfgs = choice.cfgs(id);
    if !choice.lists(cfgs) {
        return Ok(());
    }
    push_under(
        alloc,
        edition,
        form,
        source,
        finder,
        id,
        cfgs,
        declaration,
        out,
    )
}

/// The listed imports of a file, in the order in which they are written. Each is a line: file, line and column of its
/// own use tree, and the import as a use of it alone would be written. Or it is a JSON object on a line: what
/// `import_items` has, the texts of the cfgs under which its use stands as `cfg`, the `file`, the names of the modules
/// around it as `module`, with two colons between each two, the `visibility` of its use, the bytes of that, with its
/// attributes, as `range`, and as `removal` those that must go for the import to go.
///
/// The places, and those of the use trees, are what the reader gave with the syntax of the tree.
///
/// # Errors
///
/// Only if memory runs out.
pub fn import_lines(
    alloc: Global,
    source: Source<'_>,
    places: &[ItemPlace],
    use_trees: &[usize],
    tree: &ItemTree,
    edition: &Edition,
    form: Form,
    choice: ImportChoice<'_>,
) -> Result<String, AllocError>
    requires { AreDistinct places.now }
    ensures { let all = file_places places.now use_trees.now in
        let lines = spec.import_lines edition.now.reserved.items form (import_choice_view choice.entry) in
        let lines = lines (source_view source.entry) all in
        IfOk result (λ text. string_bytes text ≡ lines tree.now.forest) }
{
    let mut finder = PlaceFinder::new(source.text, places, use_trees);
    let mut out = String::new(alloc);
    let collected = collect(alloc, tree)?;
    for declaration in &collected.declarations {
        push_declaration(
            alloc,
            edition,
            form,
            choice,
            source,
            &mut finder,
            tree,
            declaration,
            &mut out,
        )?;
    }
    Ok(out)
}
