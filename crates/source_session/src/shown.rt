//! The values of shows.
ghost use Rattle.std.specs.Prelude.{◌≡◌, None, All, IfOk, is_some, map, option_copied};
ghost use Rattle.std.specs.List.{AllZip};
ghost use Rattle.serde_json.specs.View.{view};
ghost use Rattle.item_tree_db.specs.State.{IsKnown, present};
ghost use Rattle.item_tree_request.specs.Outputs.{Knows};
ghost use Rattle.source_listing.specs.Views.{choice_view, reading_view};
ghost use Rattle.source_session.specs.Found.{IsFound};
ghost use Rattle.source_session.specs.Replies.{crate_count};
ghost use Rattle.source_session.specs.ShownTexts.{member_options};
ghost use Rattle.source_session.specs.Shown as spec;
ghost use Rattle.source_session.specs.Shows.{ShowNamesCrate};
ghost use Rattle.source_session.specs.Shown.{IsPresentValue, IsShowValue, IsTextOf};
ghost use Rattle.source_session.specs.Shown.{imports_form, item_objects, outline_form, place_shown};
ghost use Rattle.source_session.specs.Shown.{problems_form, tree_form, unset_form};
ghost use Rattle.text_session.specs.SourceTexts.{text_reading};

use crate::found::found_values;
use crate::searched::search;
use crate::show::LineShow;
use crate::sought::SoughtItem;
use crate::table_changes::{changes_value, tree_value};
use hir_input::{CfgOptions, Crate, Edition, EditionYear, HirFileId};
use item_tree_db::{Place, Sources};
use item_tree_request::request::show::Show;
use item_tree_request::show::Pages;
use item_tree_request::show_writer::ShowWriter;
use line_index::Units;
use serde_json::{Value, json};
use source_imports::import_items;
use source_listing::{Choice, Reading, Source, outline_items, problem_items};
use std::alloc::{AllocError, Global};
use text_session::{Session, SourceText};

// The text of a show of a request.
fn table_value(
    alloc: Global,
    sources: &Sources,
    edition: &Edition,
    show: Show,
) -> Result<Value, AllocError>
    requires { Knows sources.now show }
    ensures { IfOk result
        (λ value. IsTextOf edition.now.reserved.items sources.now show (view value)) }
{
    let mut text = String::new(alloc);
    Pages.push_show(alloc, sources, edition, show, &mut text)?;
    Ok(Value::String(text))
}

// ---- places at which nothing is set

fn place_of(show: &LineShow) -> Option<Place>
    ensures { result ≡ place_shown show.now }
{
    match show {
        LineShow::Table(Show::OfTree(show)) => Some(show.place),
        LineShow::TreeItems { place, .. } | LineShow::ImportPlaces { place, .. } => Some(*place),
        LineShow::Outline { file, .. } | LineShow::Problems { file, .. } => Some(Place::File(
            *file,
        )),
        LineShow::Table(Show::Changed { .. })
        | LineShow::Changes { .. }
        | LineShow::Find { .. }
        | LineShow::Search { .. } => None,
    }
}

#[tactic(auto, using(crate::proofs::NamedCrates::lent_set))]
fn is_set(sources: &Sources, place: Place) -> bool
    ensures { result ≡ is_some (present sources.now place) }
{
    match place {
        Place::File(file) => sources.file_syntax(file).is_some(),
        Place::Block(block) => sources.block_syntax(block).is_some(),
    }
}

// The place that a show is of, if nothing is set there.
fn unset_place(sources: &Sources, show: &LineShow) -> Option<Place>
    ensures { result ≡ spec.unset_place sources.now show.now }
{
    let place = place_of(show)?;
    if is_set(sources, place) {
        return None;
    }
    Some(place)
}

// What tells that nothing is set at a place.
fn unset_value(alloc: Global, place: Place) -> Result<Value, AllocError>
    ensures { IfOk result (λ value. view value ≡ unset_form place) }
{
    match place {
        Place::File(file) => {
            let file = file.0;
            json!(in alloc; {"error": {"file": file, "kind": "not set"}})
        }
        Place::Block(block) => {
            let block = block.0;
            json!(in alloc; {"error": {"block": block, "kind": "not set"}})
        }
    }
}

// ---- what is read of texts

// All items, at every depth, also those that a cfg disables.
fn all_items() -> Choice
    ensures { choice_view result ≡ spec.all_items }
{
    Choice {
        depth: None,
        only_active: false,
    }
}

// How headers and members are read where there is no text.
fn empty_reading(edition: EditionYear, options: Option<&CfgOptions>) -> Reading<'_>
    ensures { reading_view result ≡ text_reading edition (option_copied options.entry) None }
{
    Reading {
        text: "",
        mended: None,
        edition,
        options,
    }
}

/// How headers and members are read of a text, or where there is none.
pub(crate) fn reading_of<'a>(
    text: Option<&'a SourceText>,
    edition: EditionYear,
    options: Option<&'a CfgOptions>,
) -> Reading<'a>
    ensures { reading_view result
        ≡ text_reading edition (option_copied options.entry) (option_copied text.entry) }
{
    match text {
        Some(text) => text.reading(edition, options),
        None => empty_reading(edition, options),
    }
}

/// The options of a crate, where members are asked for.
pub(crate) fn member_options(
    sources: &Sources,
    krate: Crate,
    has_members: bool,
) -> Option<&CfgOptions>
    requires { IsKnown sources.now krate }
    ensures { option_copied result ≡ member_options sources.now krate has_members }
{
    if has_members {
        return Some(sources.cfg_options(krate));
    }
    None
}

// The objects of the items of a place.
fn items(
    alloc: Global,
    session: &Session,
    krate: Crate,
    place: Place,
    units: Units,
    has_members: bool,
) -> Result<Vec<Value>, AllocError>
    requires { IsKnown session.now.session.table krate }
    ensures { let objects = item_objects session.now.session krate place units has_members in
        IfOk result (λ items. map view items.items ≡ objects) }
{
    let (sources, edition) = (session.sources(), session.edition());
    let options = member_options(sources, krate, has_members);
    let (tree, choice) = (sources.tree(place, krate), all_items());
    match session.text_at(place) {
        Some(text) => {
            let source = Source {
                path: "",
                text: text.text.as_str(),
            };
            let reading = text.reading(edition.year, options);
            outline_items(
                alloc,
                source,
                &text.places,
                tree,
                edition,
                reading,
                choice,
                units,
            )
        }
        None => {
            let source = Source { path: "", text: "" };
            let reading = empty_reading(edition.year, options);
            outline_items(alloc, source, &[], tree, edition, reading, choice, units)
        }
    }
}

fn outline(
    alloc: Global,
    session: &Session,
    krate: Crate,
    file: HirFileId,
    units: Units,
    has_members: bool,
) -> Result<Value, AllocError>
    requires { IsKnown session.now.session.table krate }
    ensures { let form = outline_form session.now.session krate file units has_members in
        IfOk result (λ value. view value ≡ form) }
{
    let items = items(alloc, session, krate, Place::File(file), units, has_members)?;
    Ok(Value::Array(items))
}

fn tree_items(
    alloc: Global,
    session: &Session,
    krate: Crate,
    place: Place,
    units: Units,
) -> Result<Value, AllocError>
    requires { IsKnown session.now.session.table krate }
    ensures { IfOk result (λ value. view value ≡ tree_form session.now.session krate place units) }
{
    let items = items(alloc, session, krate, place, units, false)?;
    let change = session.sources().changed(place, krate);
    tree_value(alloc, place, krate, change, items)
}

fn import_places(
    alloc: Global,
    session: &Session,
    krate: Crate,
    place: Place,
    units: Units,
) -> Result<Value, AllocError>
    requires { IsKnown session.now.session.table krate }
    ensures { let form = imports_form session.now.session krate place units in
        IfOk result (λ value. view value ≡ form) }
{
    let (tree, edition) = (session.sources().tree(place, krate), session.edition());
    let items = match session.text_at(place) {
        Some(text) => import_items(
            alloc,
            text.text.as_str(),
            &text.places,
            &text.use_trees,
            tree,
            edition,
            units,
        )?,
        None => import_items(alloc, "", &[], &[], tree, edition, units)?,
    };
    Ok(Value::Array(items))
}

fn problems(
    alloc: Global,
    session: &Session,
    file: HirFileId,
    units: Units,
) -> Result<Value, AllocError>
    ensures { IfOk result (λ value. view value ≡ problems_form session.now.session file units) }
{
    let items = match session.text(file) {
        Some(text) => problem_items(alloc, text.text.as_str(), &text.problems, units)?,
        None => Vec::new(alloc),
    };
    Ok(Value::Array(items))
}

fn find(alloc: Global, session: &mut Session, sought: &SoughtItem) -> Result<Value, AllocError>
    ensures found { IfOk result
        (λ value. IsFound session.old.session sought.now (view value)) }
    ensures same { session.new.session ≡ session.old.session }
{
    session.refresh(alloc)?;
    let entries = session.index().lookup(sought.name());
    let values = found_values(alloc, session, sought, entries)?;
    Ok(Value::Array(values))
}

// The value of a show, if something is set at the place that it is of.
fn present_value(alloc: Global, session: &mut Session, show: &LineShow) -> Result<Value, AllocError>
    requires { ShowNamesCrate (crate_count session.old.session) show.now }
    ensures shown { IfOk result
        (λ value. IsPresentValue session.old.session show.now (view value)) }
    ensures same { session.new.session ≡ session.old.session }
{
    match show {
        LineShow::Table(show) => { table_value(alloc, session.sources(), session.edition(), *show) }
        LineShow::Outline {
            krate,
            file,
            units,
            has_members,
        } => outline(alloc, session, *krate, *file, *units, *has_members),
        LineShow::TreeItems {
            krate,
            place,
            units,
        } => tree_items(alloc, session, *krate, *place, *units),
        LineShow::ImportPlaces {
            krate,
            place,
            units,
        } => import_places(alloc, session, *krate, *place, *units),
        LineShow::Changes { since } => changes_value(alloc, session.sources(), *since),
        LineShow::Problems { file, units } => problems(alloc, session, *file, *units),
        LineShow::Find { sought } => find(alloc, session, sought),
        LineShow::Search { searched } => search(alloc, session, searched),
    }
}

// The value of a show.
fn show_one(alloc: Global, session: &mut Session, show: &LineShow) -> Result<Value, AllocError>
    requires { ShowNamesCrate (crate_count session.old.session) show.now }
    ensures shown { IfOk result (λ value. IsShowValue session.old.session show.now (view value)) }
    ensures same { session.new.session ≡ session.old.session }
{
    match unset_place(session.sources(), show) {
        Some(place) => unset_value(alloc, place),
        None => present_value(alloc, session, show),
    }
}

/// The values of shows, in their order.
///
/// # Errors
///
/// Only if memory runs out.
pub(crate) fn show_all(
    alloc: Global,
    session: &mut Session,
    shows: &[LineShow],
) -> Result<Vec<Value>, AllocError>
    requires { All (ShowNamesCrate (crate_count session.old.session)) shows.now }
    ensures shown { IfOk result
        (λ values. AllZip (IsShowValue session.old.session) shows.now (map view values.items)) }
    ensures same { session.new.session ≡ session.old.session }
{
    let mut values = Vec::with_capacity(alloc, shows.len())?;
    for show in shows {
        values.push(show_one(alloc, session, show)?)?;
    }
    Ok(values)
}
