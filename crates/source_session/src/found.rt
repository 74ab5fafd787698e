//! The objects of what is found.
ghost use Rattle.std.specs.Prelude.{ℕ, List, None, ◌≡◌, ◌++◌, true, All, IfOk, IfSome, OnOk, map, option_copied};
ghost use Rattle.std.specs.Prelude.{string_bytes, flat_map};
ghost use Rattle.serde_json.specs.{Data.string, View.view};
ghost use Rattle.hir_input.specs.Id.{shown_id};
ghost use Rattle.item_tree.specs.Shown.{IsContained};
ghost use Rattle.item_tree_db.specs.State.{IsKnown};
ghost use Rattle.decl_index.specs.Entries.{IsDeclared};
ghost use Rattle.source_rows.specs.Places.{AreDistinct, place_of};
ghost use Rattle.source_rows.specs.Finders.{IsFinderOf, IsSameFinder};
ghost use Rattle.source_session.specs.Finders.{IsFinder, FindsIn, KnowsScopes, ast_in, found_with};
ghost use Rattle.source_session.specs.Found as spec;
ghost use Rattle.source_session.specs.{Inner.found_one, Sought.is_at, Sought.path_within};
ghost use Rattle.text_session.specs.SourceTexts.{text_bytes, text_places};

use crate::scopes::Scopes;
use crate::sought::SoughtItem;
use decl_index::Entry;
use hir_input::{BlockId, Crate, FileAstId, HirFileId, Name};
use item_tree::{ItemTree, ModItemId};
use item_tree_db::Place;
use line_index::{Position, Units};
use rust_items::ItemPlace;
use serde_json::{Value, json};
use source_listing::push_segment;
use source_rows::{Finder, stands_at};
use std::alloc::{AllocError, Global};
use std::collections::BTreeSet;
use text_session::{Session, SourceText};

// ---- paths of items

// What is around the items of a tree, if that is not known.
fn scopes_of<'a>(
    alloc: Global,
    tree: &'a ItemTree,
    known: Option<Scopes<'a>>,
) -> Result<Scopes<'a>, AllocError>
    requires { IfSome known (KnowsScopes tree.now) }
    ensures { IfOk result (KnowsScopes tree.now) }
{
    match known {
        Some(scopes) => Ok(scopes),
        None => Scopes::new(alloc, tree),
    }
}

// The path of the item of an id, which has this name.
fn path_of<'a>(
    alloc: Global,
    tree: &'a ItemTree,
    scopes: &mut Option<Scopes<'a>>,
    id: ModItemId,
    name: &Name,
) -> Result<String, AllocError>
    requires { IfSome scopes.old (KnowsScopes tree.now) }
    ensures path { IfOk result (λ path. string_bytes path ≡ path_within tree.now id name.now) }
    ensures scopes { IfSome scopes.new (KnowsScopes tree.now) }
{
    let mut known = scopes_of(alloc, tree, scopes.take())?;
    let mut path = String::new(alloc);
    known.push_scope(id, &mut path)?;
    push_segment(name.text(), &mut path)?;
    *scopes = Some(known);
    Ok(path)
}

// Whether an item has the path that is looked for. What is around the items of its tree is read only where the name
// alone does not tell.
#[tactic(auto, using(crate::proofs::Paths::name_tells))]
fn is_found<'a>(
    alloc: Global,
    sought: &SoughtItem,
    entry: &Entry,
    tree: &'a ItemTree,
    scopes: &mut Option<Scopes<'a>>,
) -> Result<bool, AllocError>
    requires { IfSome scopes.old (KnowsScopes tree.now) }
    ensures found { IfOk result
        (λ found. found ≡ is_at sought.now.path
        (path_within tree.now entry.now.id entry.now.name)) }
    ensures scopes { IfSome scopes.new (KnowsScopes tree.now) }
{
    let mut own = String::new(alloc);
    push_segment(entry.name.text(), &mut own)?;
    if sought.is_end(&own) {
        return Ok(true);
    }
    let path = path_of(alloc, tree, scopes, entry.id, &entry.name)?;
    Ok(sought.is_at(&path))
}

// ---- their objects

fn placed_value(
    alloc: Global,
    file: HirFileId,
    krate: Crate,
    id: String,
    at: Position,
    place: ItemPlace,
) -> Result<Value, AllocError>
    ensures { IfOk result (λ value. view value
        ≡ spec.placed_form file krate (string (string_bytes id)) at place) }
{
    let (file, krate) = (file.0, krate.0);
    let (column, line) = (at.column, at.line);
    let (start, end) = (place.range.start, place.range.end);
    json!(in alloc; {"column": column, "crate": krate, "file": file, "id": id, "line": line, "range": [start, end]})
}

fn placeless_value(
    alloc: Global,
    file: HirFileId,
    krate: Crate,
    id: String,
) -> Result<Value, AllocError>
    ensures { (text : List ℕ)
        → (units : Units)
        → IfOk result (λ value. view value
        ≡ spec.in_file units file krate (string (string_bytes id)) text None) }
{
    let (file, krate) = (file.0, krate.0);
    json!(in alloc; {"crate": krate, "file": file, "id": id})
}

fn in_file(
    alloc: Global,
    file: HirFileId,
    krate: Crate,
    id: FileAstId,
    spots: &mut Finder<'_>,
    units: Units,
) -> Result<Value, AllocError>
    requires { AreDistinct spots.old.places }
    ensures value { let place = place_of id spots.old.places in
        IfOk result (λ value. view value
        ≡ spec.in_file units file krate (string (shown_id id)) spots.old.lines place) }
    ensures same { IsSameFinder spots.old spots.new }
{
    let shown = id.to_string(alloc)?;
    let Some(place) = spots.places.find(id) else {
        return placeless_value(alloc, file, krate, shown);
    };
    let at = spots.lines.position_in(units, stands_at(place));
    placed_value(alloc, file, krate, shown, at, place)
}

fn in_block(alloc: Global, block: BlockId, krate: Crate, id: FileAstId) -> Result<Value, AllocError>
    ensures { IfOk result (λ value. view value ≡ spec.in_block block krate (string (shown_id id))) }
{
    let id = id.to_string(alloc)?;
    let (block, krate) = (block.0, krate.0);
    json!(in alloc; {"block": block, "crate": krate, "id": id})
}

// The object of an item of a place with this text.
fn found_value(
    alloc: Global,
    tree: &ItemTree,
    entry: &Entry,
    spots: &mut Finder<'_>,
    units: Units,
) -> Result<Value, AllocError>
    requires contained { IsContained tree.now entry.now.id }
    requires distinct { AreDistinct spots.old.places }
    ensures value { let found = found_with units spots.old.lines spots.old.places in
        let form = found entry.now.place entry.now.krate (ast_in tree.now entry.now.id) in
        IfOk result (λ value. view value ≡ form) }
    ensures same { IsSameFinder spots.old spots.new }
{
    let id = entry.id.ast_id(tree);
    match entry.place {
        Place::File(file) => in_file(alloc, file, entry.krate, id, spots, units),
        Place::Block(block) => in_block(alloc, block, entry.krate, id),
    }
}

// ---- one entry after another

/// What finds the items of a crate's tree of a place.
#[derive(Drop)]
pub(crate) struct EntryFinder<'a> {
    place: Place,
    krate: Crate,
    tree: &'a ItemTree,
    /// What is around the items, if that was asked for.
    scopes: Option<Scopes<'a>>,
    spots: Finder<'a>,
}

/// What finds the items of a text, none where there is no text.
pub(crate) fn finder_of(text: Option<&SourceText>) -> Finder<'_>
    ensures { let text = option_copied text.entry in
        IsFinderOf (text_bytes text) (text_places text) result }
{
    match text {
        Some(text) => Finder::new(text.text.as_str(), &text.places),
        None => Finder::new("", &[]),
    }
}

impl EntryFinder<'_> {
    // Whether the entry is of this tree.
    fn is_of(&self, entry: &Entry) -> bool
        ensures { result ≡ true → (self.now.place ≡ entry.now.place)
            × (self.now.krate ≡ entry.now.krate) }
    {
        self.place == entry.place && self.krate == entry.krate
    }
}

fn new_finder<'a>(session: &'a Session, entry: &Entry) -> EntryFinder<'a>
    requires { IsKnown session.now.session.table entry.now.krate }
    ensures { FindsIn session.now.session entry.now.place entry.now.krate result }
{
    EntryFinder {
        place: entry.place,
        krate: entry.krate,
        tree: session.sources().tree(entry.place, entry.krate),
        scopes: None,
        spots: finder_of(session.text_at(entry.place)),
    }
}

// The last one, if it is of the entry's tree, or else a new one.
fn finder_for<'a>(
    session: &'a Session,
    entry: &Entry,
    last: Option<EntryFinder<'a>>,
) -> EntryFinder<'a>
    requires known { IsKnown session.now.session.table entry.now.krate }
    requires last { IfSome last (IsFinder session.now.session) }
    ensures { FindsIn session.now.session entry.now.place entry.now.krate result }
{
    match last {
        Some(finder) if finder.is_of(entry) => finder,
        _ => new_finder(session, entry),
    }
}

// Adds the object of an entry, if its item has the path, and hands on what finds the items of its tree.
#[tactic(auto, using(crate::proofs::Finders::is_object, crate::proofs::Finders::contained))]
fn push_found<'a>(
    alloc: Global,
    session: &'a Session,
    sought: &SoughtItem,
    entry: &Entry,
    last: Option<EntryFinder<'a>>,
    values: &mut Vec<Value>,
) -> Result<Option<EntryFinder<'a>>, AllocError>
    requires declared { IsDeclared session.now.session.table entry.now }
    requires last { IfSome last (IsFinder session.now.session) }
    ensures found { let found = found_one session.now.session sought.now entry.now in
        OnOk result (map view values.new.items ≡ map view values.old.items ++ found) }
    ensures finder { IfOk result (λ finder. IfSome finder (IsFinder session.now.session)) }
{
    let mut finder = finder_for(session, entry, last);
    if !is_found(alloc, sought, entry, finder.tree, &mut finder.scopes)? {
        return Ok(Some(finder));
    }
    let units = sought.units();
    values.push(found_value(alloc, finder.tree, entry, &mut finder.spots, units)?)?;
    Ok(Some(finder))
}

/// The objects of the entries whose items have the path that is looked for, of some with its last name.
///
/// # Errors
///
/// Only if memory runs out.
pub(crate) fn found_values(
    alloc: Global,
    session: &Session,
    sought: &SoughtItem,
    entries: &BTreeSet<Entry>,
) -> Result<Vec<Value>, AllocError>
    requires { All (IsDeclared session.now.session.table) entries.now.keys }
    ensures { let found = flat_map (found_one session.now.session sought.now) entries.now.keys in
        IfOk result (λ values. map view values.items ≡ found) }
{
    let mut values = Vec::new(alloc);
    let mut finder = None;
    for entry in entries {
        finder = push_found(alloc, session, sought, entry, finder, &mut values)?;
    }
    Ok(values)
}
