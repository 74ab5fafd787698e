//! Outlines as JSON.
ghost use Rattle.std.specs.Prelude.{◌≡◌, ◌+◌, ◌<◌, ◌^◌, ◌++◌, ◌∷◌, [], map, IfOk, OnOk};
ghost use Rattle.std.specs.Prelude.{option_map, string_bytes, flat_map, sum_by};
ghost use Rattle.serde_json.specs.View.{items_view, view};
ghost use Rattle.item_tree.specs.Shown.{IsContained};
ghost use Rattle.item_tree.specs.Walk.{AreContained, count_at};
ghost use Rattle.source_rows.specs.Listed.{header_of, members_of};
ghost use Rattle.source_rows.specs.ListedViews.{listed_view, reading_view};
ghost use Rattle.source_listing.specs.Entries as entries;
ghost use Rattle.source_listing.specs.Inner.{IsSameFile, file_of, objects_at};
ghost use Rattle.source_listing.specs.Inner.{places_of, reserved_of};
ghost use Rattle.source_listing.specs.Objects as spec;
ghost use Rattle.source_rows.specs.Places.{AreDistinct, place_of, spot_in};
ghost use Rattle.source_listing.specs.Views.{choice_view, shown_item_view, source_view};

use crate::entries::{Item, item_entry, item_of, member_entry};
use crate::lines::Choice;
use crate::objects::object;
use crate::printer::Printer;
use hir_input::{Edition, FileAstId};
use hir_input_json::write::object::{of_text, with};
use item_tree::{ItemTree, ModItemId};
use line_index::Units;
use list_forms::value_line;
use rust_items::ItemPlace;
use serde_json::Value;
use source_rows::{ListedMember, Reading, Source, Spot};
use std::alloc::{AllocError, Global};
use tree_walk::{children, is_file_enabled};

/// What is listed, and how.
#[derive(Clone, Copy)]
struct Listing<'a> {
    tree: &'a ItemTree,
    reading: Reading<'a>,
    choice: Choice,
    units: Units,
}

/// How many items others stand in, and whether no cfg disables these.
#[derive(Clone, Copy)]
struct Around {
    level: usize,
    is_active: bool,
}

/// Where an item is, and where that stands in the text.
#[derive(Clone, Copy)]
struct Stand {
    place: Option<ItemPlace>,
    spot: Option<Spot>,
}

impl Printer<'_> {
    fn stand(&mut self, units: Units, id: FileAstId) -> Stand
        ensures place { result.place ≡ place_of id (places_of self.old).items }
        ensures spot { result.spot ≡ option_map (spot_in units (file_of self.old).text) result.place }
        ensures same { IsSameFile self.old self.new }
    {
        let place = self.finder.place(id);
        let spot = self.finder.spot(units, place);
        Stand { place, spot }
    }
}

/// The object of a member.
fn member_object(
    alloc: Global,
    printer: &mut Printer<'_>,
    units: Units,
    member: &ListedMember,
) -> Result<Value, AllocError>
    ensures object { let object = spec.member_object units (file_of printer.old).text
        (reserved_of printer.old) (listed_view member.now) in
        IfOk result (λ value. view value ≡ object) }
    ensures same { IsSameFile printer.old printer.new }
{
    let spot = printer.member_spot(units, member);
    object(
        alloc,
        printer.edition,
        member_entry(spot, member),
        Vec::new(alloc),
    )
}

/// The objects of the chosen members of an item that is there, in so many others.
fn member_values(
    alloc: Global,
    printer: &mut Printer<'_>,
    listing: Listing<'_>,
    place: Option<ItemPlace>,
    level: usize,
    is_active: bool,
) -> Result<Vec<Value>, AllocError>
    ensures objects { let objects = spec.member_objects listing.entry.units (file_of printer.old).text
        (reserved_of printer.old) (choice_view listing.entry.choice) level in
        let members = members_of (reading_view listing.entry.reading) place is_active in
        IfOk result (λ values. map view values.items ≡ objects members) }
    ensures same { IsSameFile printer.old printer.new }
{
    let (choice, reading) = (listing.choice, listing.reading);
    let members = choice.members(alloc, reading, place, level, is_active)?;
    let mut values = Vec::new(alloc);
    for member in &members {
        values.push(member_object(alloc, printer, listing.units, member)?)?;
    }
    Ok(values)
}

/// The object of an item that stands there, around these.
fn item_object(
    alloc: Global,
    edition: &Edition,
    reading: Reading<'_>,
    item: &Item<'_>,
    stand: Stand,
    inner: Vec<Value>,
) -> Result<Value, AllocError>
    ensures { let header = header_of (reading_view reading.entry) item.now.id.kind stand.place in
        let entry = entries.item_entry header stand.spot (shown_item_view item.now) in
        let form = spec.entry_object edition.now.reserved.items entry (items_view inner.items) in
        IfOk result (λ object. view object ≡ form) }
{
    let header = reading.header(alloc, item.id.kind, stand.place)?;
    let entry = item_entry(&header, stand.spot, item);
    object(alloc, edition, entry, inner)
}

/// Adds the objects of items, those that are chosen.
#[cycle(read)]
fn push_objects(
    alloc: Global,
    printer: &mut Printer<'_>,
    listing: Listing<'_>,
    ids: &[ModItemId],
    around: Around,
    out: &mut Vec<Value>,
) -> Result<(), AllocError>
    requires contained { AreContained listing.tree.now ids.now }
    requires fits { around.level + sum_by (count_at listing.tree.now) ids.now < 2 ^ 64 }
    ensures objects { let at = objects_at listing.entry.units (file_of printer.old) (reading_view listing.entry.reading)
        (reserved_of printer.old) (places_of printer.old).items in
        let at = at (choice_view listing.entry.choice) listing.entry.tree.now around.level around.is_active in
        OnOk result (map view out.new.items ≡ map view out.old.items ++ flat_map at ids.now) }
    ensures same { IsSameFile printer.old printer.new }
{
    for id in ids {
        push_object(alloc, printer, listing, *id, around, out)?;
    }
    Ok(())
}

/// Adds the object of an item, if that is chosen: what stands in an item that is not chosen is not chosen either.
#[cycle(read)]
fn push_object(
    alloc: Global,
    printer: &mut Printer<'_>,
    listing: Listing<'_>,
    id: ModItemId,
    around: Around,
    out: &mut Vec<Value>,
) -> Result<(), AllocError>
    requires contained { IsContained listing.tree.now id }
    requires fits { around.level + count_at listing.tree.now id < 2 ^ 64 }
    ensures objects { let at = objects_at listing.entry.units (file_of printer.old) (reading_view listing.entry.reading)
        (reserved_of printer.old) (places_of printer.old).items in
        let at = at (choice_view listing.entry.choice) listing.entry.tree.now around.level around.is_active in
        OnOk result (map view out.new.items ≡ map view out.old.items ++ at id) }
    ensures same { IsSameFile printer.old printer.new }
{
    let item = item_of(listing.tree, id, around.is_active);
    if !listing.choice.takes(around.level, item.is_active) {
        return Ok(());
    }
    let stand = printer.stand(listing.units, item.id);
    let (level, is_active) = (around.level, item.is_active);
    let mut inner = member_values(alloc, printer, listing, stand.place, level, is_active)?;
    let ids = children(listing.tree, id);
    let below = Around {
        level: level + 1,
        is_active,
    };
    push_objects(alloc, printer, listing, ids, below, &mut inner)?;
    let object = item_object(alloc, printer.edition, listing.reading, &item, stand, inner)?;
    out.push(object)?;
    Ok(())
}

fn file_value(alloc: Global, path: &str, items: Vec<Value>) -> Result<Value, AllocError>
    ensures { IfOk result (λ file. view file ≡ spec.file_form path.now (items_view items.items)) }
{
    let members = of_text(alloc, "path", path)?;
    Ok(Value::Object(with(alloc, members, "items", Value::Array(items))?))
}

/// The chosen items of a file's tree as values, each an object with its `id`, the word of its `kind`, its `name`, the
/// `path` of a use, where `{..}` stands for a list, or of the macro of a macro call, where an impl has its type and its
/// trait, as `Display for Circle`, its `visibility` as it was written, the `line` and the `column` at which it stands,
/// its bytes with its attributes as a `range` (where they begin and where they end), whether no cfg disables it
/// (`active`), and as `children` the objects of its members and then those of the items in it. What an item has not is
/// null; names are without `r#`. Columns count these units.
///
/// If cfgs are given for the members, those with a name are listed as far as they are chosen, as the reader reads them.
/// The tree has none, so their `id` is null.
///
/// The places are those that the reader gave with the syntax of the tree.
///
/// # Errors
///
/// Only if memory runs out.
#[tactic(auto, using(item_tree::proofs::Walking::ids_contained, item_tree::proofs::Walking::ids_count))]
pub fn outline_items(
    alloc: Global,
    source: Source<'_>,
    places: &[ItemPlace],
    tree: &ItemTree,
    edition: &Edition,
    reading: Reading<'_>,
    choice: Choice,
    units: Units,
) -> Result<Vec<Value>, AllocError>
    requires { AreDistinct places.now }
    ensures { let s = source_view source.entry in
        let objects = spec.tree_objects units s (reading_view reading.entry) edition.now.reserved.items places.now in
        IfOk result (λ items. map view items.items ≡ objects (choice_view choice) tree.now) }
{
    let listing = Listing {
        tree,
        reading,
        choice,
        units,
    };
    let top = Around {
        level: 0,
        is_active: is_file_enabled(tree),
    };
    let mut printer = Printer::new(source, places, &[], edition);
    let mut items = Vec::new(alloc);
    push_objects(
        alloc,
        &mut printer,
        listing,
        tree.top_level_items(),
        top,
        &mut items,
    )?;
    Ok(items)
}

/// The chosen items of a file's tree as one JSON object on one line: the file's `path`, and its `items`, as
/// `outline_items` gives them, by columns of characters.
///
/// The places are those that the reader gave with the syntax of the tree.
///
/// # Errors
///
/// Only if memory runs out.
pub fn outline_json(
    alloc: Global,
    source: Source<'_>,
    places: &[ItemPlace],
    tree: &ItemTree,
    edition: &Edition,
    reading: Reading<'_>,
    choice: Choice,
) -> Result<String, AllocError>
    requires { AreDistinct places.now }
    ensures { let s = source_view source.entry in
        let line = spec.json_line s (reading_view reading.entry) edition.now.reserved.items places.now in
        IfOk result (λ text. string_bytes text ≡ line (choice_view choice) tree.now) }
{
    let units = Units::Characters;
    let items = outline_items(alloc, source, places, tree, edition, reading, choice, units)?;
    let file = file_value(alloc, source.path, items)?;
    value_line(alloc, &file)
}
