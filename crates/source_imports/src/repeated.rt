//! Imports that repeat an earlier one of their module, under cfgs that may be true together.
ghost use Rattle.std.specs.Prelude.{◌≡◌, ◌++◌, [], Some, map, IfOk, OnOk, option_map, flat_map};
ghost use Rattle.tree_walk.specs.Listed.{listed_import};
ghost use Rattle.item_tree.specs.Shown.{IsContained};
ghost use Rattle.item_tree.specs.Walk.{AreContained};
ghost use Rattle.source_listing.specs.ImportTexts.{import_text};
ghost use Rattle.source_imports.specs.Inner.{PutsFirst, first_in, key, named_key_view};
ghost use Rattle.source_imports.specs.Inner.{named_at, listed_named_view, own_named_at};
ghost use Rattle.source_listing.specs.Views.{placed_trees_view};
ghost use Rattle.source_rows.specs.Places.{AreDistinct};
ghost use Rattle.source_imports.specs.Repeated as spec;
ghost use Rattle.source_listing.specs.Uses.{file_places, tree_spots};
ghost use Rattle.source_imports.specs.Inner.{alike_by};
ghost use Rattle.source_imports.specs.Views.{import_choice_view, repeated_import_view};

use crate::import_cfgs::ImportChoice;
use crate::import_exclusion::exclude_each_other;
use hir_input::{Edition, FileAstId};
use item_tree::{ItemTree, ModItemId, ModItemKind};
use line_index::Units;
use rust_items::ItemPlace;
use source_listing::{PlaceFinder, UseTrees, push_import_text};
use source_rows::Spot;
use std::alloc::{AllocError, Global};
use std::collections::HashMap;
use tree_walk::{Listed, children, list_imports};

/// An import that repeats an earlier one of its module.
#[derive(Drop)]
pub struct RepeatedImport {
    /// Where its own use tree stands.
    pub spot: Option<Spot>,
    /// How a use of it alone would be written.
    pub text: String,
    /// Where the first that is alike stands.
    pub first: Option<Spot>,
}

/// An import: the item that its use stands in, the use, its place, and how a use of it alone would be written.
#[derive(Drop)]
pub(crate) struct Named {
    around: Option<FileAstId>,
    at: FileAstId,
    spot: Option<Spot>,
    text: String,
}

fn named_import(
    alloc: Global,
    edition: &Edition,
    around: Option<FileAstId>,
    at: FileAstId,
    spot: Option<Spot>,
    import: &Listed,
) -> Result<Named, AllocError>
    ensures { let text = import_text edition.now.reserved.items import.now.kind import.now.path
        import.now.alias in
        IfOk result (λ n. listed_named_view n ≡ record { around = around; at = at; spot = spot; text = text }) }
{
    let mut text = String::new(alloc);
    push_import_text(edition, import, &mut text)?;
    Ok(Named {
        around,
        at,
        spot,
        text,
    })
}

/// The imports of a use, whose use trees are these.
fn push_listed(
    alloc: Global,
    edition: &Edition,
    around: Option<FileAstId>,
    at: FileAstId,
    finder: &mut PlaceFinder<'_>,
    trees: Option<UseTrees<'_>>,
    imports: &[Listed],
    found: &mut Vec<Named>,
) -> Result<(), AllocError>
    ensures named { let spots = tree_spots finder.old.text
        (option_map placed_trees_view trees.entry) in
        let own = map (spec.named_import edition.now.reserved.items around at spots) (map listed_import imports.now) in
        OnOk result (map listed_named_view found.new.items ≡ map listed_named_view found.old.items ++ own) }
    ensures same { finder.new ≡ finder.old }
{
    for import in imports {
        let spot = finder.tree_spot(Units::Characters, trees, import.index);
        found.push(named_import(alloc, edition, around, at, spot, import)?)?;
    }
    Ok(())
}

/// The listed imports of an item, if that is a use.
fn push_own(
    alloc: Global,
    edition: &Edition,
    choice: ImportChoice<'_>,
    finder: &mut PlaceFinder<'_>,
    tree: &ItemTree,
    around: Option<FileAstId>,
    id: ModItemId,
    found: &mut Vec<Named>,
) -> Result<(), AllocError>
    requires contained { IsContained tree.now id }
    ensures named { let own = own_named_at finder.old.text
        finder.old.places edition.now.reserved.items (import_choice_view choice.entry) tree.now around id in
        OnOk result (map listed_named_view found.new.items ≡ map listed_named_view found.old.items ++ own) }
    ensures same { finder.new ≡ finder.old }
{
    match tree.index(id) {
        ModItemKind::Use(_, item) => {
            let at = id.ast_id(tree);
            if !choice.lists(choice.cfgs(at)) {
                return Ok(());
            }
            let imports = list_imports(alloc, item)?;
            let trees = finder.trees_of(at);
            push_listed(alloc, edition, around, at, finder, trees, &imports, found)
        }
        _ => Ok(()),
    }
}

/// The imports of items, and of all that stand in them.
#[cycle(push)]
fn push_all(
    alloc: Global,
    edition: &Edition,
    choice: ImportChoice<'_>,
    finder: &mut PlaceFinder<'_>,
    tree: &ItemTree,
    around: Option<FileAstId>,
    ids: &[ModItemId],
    found: &mut Vec<Named>,
) -> Result<(), AllocError>
    requires contained { AreContained tree.now ids.now }
    ensures named { let all = flat_map
        (named_at finder.old.text
        finder.old.places edition.now.reserved.items (import_choice_view choice.entry) tree.now around) ids.now in
        OnOk result (map listed_named_view found.new.items ≡ map listed_named_view found.old.items ++ all) }
    ensures same { finder.new ≡ finder.old }
{
    for id in ids {
        push_one(alloc, edition, choice, finder, tree, around, *id, found)?;
    }
    Ok(())
}

/// The imports of an item, and of all that stand in it.
#[cycle(push)]
fn push_one(
    alloc: Global,
    edition: &Edition,
    choice: ImportChoice<'_>,
    finder: &mut PlaceFinder<'_>,
    tree: &ItemTree,
    around: Option<FileAstId>,
    id: ModItemId,
    found: &mut Vec<Named>,
) -> Result<(), AllocError>
    requires contained { IsContained tree.now id }
    ensures named { let all = named_at finder.old.text
        finder.old.places edition.now.reserved.items (import_choice_view choice.entry) tree.now around id in
        OnOk result (map listed_named_view found.new.items ≡ map listed_named_view found.old.items ++ all) }
    ensures same { finder.new ≡ finder.old }
{
    push_own(alloc, edition, choice, finder, tree, around, id, found)?;
    let inside = Some(id.ast_id(tree));
    push_all(
        alloc,
        edition,
        choice,
        finder,
        tree,
        inside,
        children(tree, id),
        found,
    )
}

/// What imports that are alike have in common: the item around them, and how they would be written.
#[derive(Clone, Copy, PartialEq, Eq, Hash)]
pub(crate) struct Key<'n> {
    around: Option<(u8, u16, u32)>,
    text: &'n str,
}

fn key_of(import: &Named) -> Key<'_>
    ensures { named_key_view result ≡ key (listed_named_view import.now) }
{
    Key {
        around: match import.around {
            Some(id) => Some((id.kind as u8, id.hash, id.number)),
            None => None,
        },
        text: &import.text,
    }
}

/// The first import of each key.
type Firsts<'n> = HashMap<Key<'n>, &'n Named>;

impl ImportChoice<'_> {
    /// Whether two imports stand under cfgs that are seen never to be true together.
    fn are_excluded(self, import: &Named, earlier: &Named) -> bool
        ensures { let choice = import_choice_view self.entry in
            result ≡ spec.are_excluded choice (listed_named_view import.now) (listed_named_view earlier.now) }
    {
        exclude_each_other(self.cfgs(import.at), self.cfgs(earlier.at))
    }

    /// Whether an import is written like another in its module, and not excluded by its cfgs.
    #[tactic(auto, using(crate::proofs::Firsts::alike_by_keys))]
    fn are_alike(self, import: &Named, earlier: &Named) -> bool
        ensures { let choice = import_choice_view self.entry in
            result ≡ spec.is_alike choice (listed_named_view import.now) (listed_named_view earlier.now) }
    {
        key_of(earlier) == key_of(import) && !self.are_excluded(import, earlier)
    }

    /// The first of these that is alike.
    fn first_alike<'n>(self, import: &Named, before: &[&'n Named]) -> Option<&'n Named>
        ensures { let choice = import_choice_view self.entry in
            let all = map (λ b. listed_named_view b.now) before.now in
            let first = spec.first_alike choice (listed_named_view import.now) all in
            option_map (λ b. listed_named_view b.now) result ≡ first }
    {
        for earlier in before {
            if self.are_alike(import, earlier) {
                return Some(*earlier);
            }
        }
        None
    }

    /// What is alike, by the first of its key and those before.
    fn alike_by<'n>(
        self,
        import: &Named,
        first: &'n Named,
        before: &[&'n Named],
    ) -> Option<&'n Named>
        ensures { let choice = import_choice_view self.entry in
            let all = map (λ b. listed_named_view b.now) before.now in
            let first = Some (listed_named_view first.entry.now) in
            let alike = alike_by choice (listed_named_view import.now) first all in
            option_map (λ b. listed_named_view b.now) result ≡ alike }
    {
        if self.are_excluded(import, first) {
            return self.first_alike(import, before);
        }
        Some(first)
    }
}

/// Adds an import that repeats one, if there is one that is alike.
fn push_if_any(
    alloc: Global,
    import: &Named,
    alike: Option<&Named>,
    found: &mut Vec<RepeatedImport>,
) -> Result<(), AllocError>
    ensures { let alike = option_map (λ b. listed_named_view b.now) alike.entry in
        let own = spec.repeat_if_any (listed_named_view import.now) alike in
        OnOk result (map repeated_import_view found.new.items ≡ map repeated_import_view found.old.items ++ own) }
{
    let Some(first) = alike else {
        return Ok(());
    };
    found.push(RepeatedImport {
        spot: import.spot,
        text: String::from_str(alloc, &import.text)?,
        first: first.spot,
    })?;
    Ok(())
}

/// Adds an import if one of those before it is alike. If none is of its key, it is the first.
fn push_if_repeated<'n>(
    alloc: Global,
    choice: ImportChoice<'_>,
    key: Key<'n>,
    import: &'n Named,
    before: &[&'n Named],
    firsts: &mut Firsts<'n>,
    found: &mut Vec<RepeatedImport>,
) -> Result<(), AllocError>
    ensures repeated { let import = listed_named_view import.now in
        let all = map (λ b. listed_named_view b.now) before.now in
        let choice = import_choice_view choice.entry in
        let alike = alike_by choice import (first_in firsts.old key.entry) all in
        let own = spec.repeat_if_any import alike in
        OnOk result (map repeated_import_view found.new.items ≡ map repeated_import_view found.old.items ++ own) }
    ensures first { OnOk result
        (PutsFirst firsts.old firsts.new key.entry (listed_named_view import.now)) }
{
    match firsts.get(&key).copied() {
        Some(first) => {
            let alike = choice.alike_by(import, first, before);
            push_if_any(alloc, import, alike, found)
        }
        None => {
            firsts.insert(key, import)?;
            Ok(())
        }
    }
}

/// Those of these that repeat an earlier one.
fn repeats_of(
    alloc: Global,
    choice: ImportChoice<'_>,
    imports: &[Named],
) -> Result<Vec<RepeatedImport>, AllocError>
    ensures { let repeats = spec.repeats (import_choice_view choice.entry) [] (map listed_named_view imports.now) in
        IfOk result (λ found. map repeated_import_view found.items ≡ repeats) }
{
    let mut found = Vec::new(alloc);
    let mut firsts = HashMap::new(alloc);
    let mut before = Vec::new(alloc);
    for import in imports {
        let key = key_of(import);
        push_if_repeated(alloc, choice, key, import, &before, &mut firsts, &mut found)?;
        before.push(import)?;
    }
    Ok(found)
}

/// The listed imports that repeat an earlier one of the same module, in the order in which they are written. Two
/// modules are the same only if they are one item, whatever their names. Imports under cfgs that are seen never to be
/// true together do not repeat each other.
///
/// The places, and those of the use trees, are what the reader gave with the syntax of the tree.
///
/// # Errors
///
/// Only if memory runs out.
#[tactic(auto, using(item_tree::proofs::Walking::ids_contained, crate::proofs::Repeats::ids_named))]
pub fn repeated_imports(
    alloc: Global,
    text: &str,
    places: &[ItemPlace],
    use_trees: &[usize],
    tree: &ItemTree,
    edition: &Edition,
    choice: ImportChoice<'_>,
) -> Result<Vec<RepeatedImport>, AllocError>
    requires { AreDistinct places.now }
    ensures { let all = file_places places.now use_trees.now in
        let repeats = spec.repeated_imports text.now edition.now.reserved.items
        (import_choice_view choice.entry) all tree.now.forest in
        IfOk result (λ found. map repeated_import_view found.items ≡ repeats) }
{
    let mut finder = PlaceFinder::new(text, places, use_trees);
    let ids = tree.top_level_items();
    let mut found = Vec::new(alloc);
    push_all(
        alloc,
        edition,
        choice,
        &mut finder,
        tree,
        None,
        ids,
        &mut found,
    )?;
    repeats_of(alloc, choice, &found)
}
