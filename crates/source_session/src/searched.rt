//! What a search finds: items and members whose names match.
ghost use Rattle.std.specs.Prelude.{◌≡◌, ◌++◌, All, IfOk, OnOk, flat_map, map};
ghost use Rattle.serde_json.specs.View.{members_view, view};
ghost use Rattle.item_tree_db.specs.State.{IsKnown};
ghost use Rattle.source_listing.specs.Views.{candidate_view};
ghost use Rattle.source_session.specs.Found.{id_form};
ghost use Rattle.source_session.specs.Inner.{match_names};
ghost use Rattle.source_session.specs.Searches as spec;

use crate::found::finder_of;
use crate::keys::Members;
use crate::shown::{member_options, reading_of};
use crate::sought::Searched;
use hir_input::{BlockId, Crate, FileAstId, HirFileId};
use hir_input_json::write::object::{of_text, with, with_text};
use item_tree_db::{ChangedSince, Place};
use line_index::{LineIndex, Units};
use serde_json::{Value, json};
use source_listing::{Candidate, found_in, joined_scope};
use source_rows::Spot;
use std::alloc::{AllocError, Global};
use text_session::Session;

// ---- objects

fn id_value(alloc: Global, id: Option<FileAstId>) -> Result<Value, AllocError>
    ensures { IfOk result (λ value. view value ≡ id_form id) }
{
    match id {
        Some(id) => Ok(Value::String(id.to_string(alloc)?)),
        None => Ok(Value::Null),
    }
}

// The members of each object of what is found.
fn match_names(alloc: Global, krate: Crate, candidate: &Candidate) -> Result<Members, AllocError>
    ensures { let names = match_names krate (candidate_view candidate.now) in
        IfOk result (λ members. members_view members.entries ≡ names) }
{
    let members = of_text(alloc, "scope", joined_scope(&candidate.scope))?;
    let members = with_text(alloc, members, "name", candidate.name.text())?;
    let members = with_text(alloc, members, "kind", candidate.word)?;
    let members = with(alloc, members, "id", id_value(alloc, candidate.id)?)?;
    with(alloc, members, "crate", Value::from(krate.0))
}

fn match_in_block(
    alloc: Global,
    block: BlockId,
    krate: Crate,
    candidate: &Candidate,
) -> Result<Value, AllocError>
    ensures { let form = spec.match_in_block block krate (candidate_view candidate.now) in
        IfOk result (λ value. view value ≡ form) }
{
    let members = match_names(alloc, krate, candidate)?;
    let members = with(alloc, members, "block", Value::from(block.0))?;
    Ok(Value::Object(members))
}

fn match_in_file(
    alloc: Global,
    file: HirFileId,
    krate: Crate,
    spot: Option<Spot>,
    candidate: &Candidate,
) -> Result<Value, AllocError>
    ensures { let form = spec.match_in_file file krate spot (candidate_view candidate.now) in
        IfOk result (λ value. view value ≡ form) }
{
    let members = match_names(alloc, krate, candidate)?;
    let members = with(alloc, members, "file", Value::from(file.0))?;
    let Some(spot) = spot else {
        return Ok(Value::Object(members));
    };
    let members = with(alloc, members, "line", Value::from(spot.position.line))?;
    let members = with(alloc, members, "column", Value::from(spot.position.column))?;
    let (start, end) = (spot.range.start, spot.range.end);
    let range = json!(in alloc; [start, end])?;
    Ok(Value::Object(with(alloc, members, "range", range)?))
}

fn match_value(
    alloc: Global,
    place: Place,
    krate: Crate,
    spot: Option<Spot>,
    candidate: &Candidate,
) -> Result<Value, AllocError>
    ensures { let form = spec.match_form place krate spot (candidate_view candidate.now) in
        IfOk result (λ value. view value ≡ form) }
{
    match place {
        Place::File(file) => match_in_file(alloc, file, krate, spot, candidate),
        Place::Block(block) => match_in_block(alloc, block, krate, candidate),
    }
}

// Where something stands, if that is known.
fn match_spot(units: Units, candidate: &Candidate, lines: &mut LineIndex<'_>) -> Option<Spot>
    ensures spot { result ≡ spec.match_spot units lines.old candidate.now.at candidate.now.range }
    ensures same { lines.new ≡ lines.old }
{
    match (candidate.at, candidate.range) {
        (Some(at), Some(range)) => Some(Spot {
            position: lines.position_in(units, at),
            range,
        }),
        _ => None,
    }
}

// Adds the objects of what is found in a crate's tree of a place.
fn push_matches(
    alloc: Global,
    units: Units,
    place: Place,
    krate: Crate,
    lines: &mut LineIndex<'_>,
    found: &[Candidate],
    values: &mut Vec<Value>,
) -> Result<(), AllocError>
    ensures { let made = map (spec.match_at units lines.old place krate) (map candidate_view found.now) in
        OnOk result (map view values.new.items ≡ map view values.old.items ++ made) }
{
    for candidate in found {
        let spot = match_spot(units, candidate, lines);
        values.push(match_value(alloc, place, krate, spot, candidate)?)?;
    }
    Ok(())
}

// ---- all trees

// Adds the objects of what is looked for in a crate's tree of a place.
fn push_place_matches(
    alloc: Global,
    session: &Session,
    searched: &Searched,
    place: Place,
    krate: Crate,
    values: &mut Vec<Value>,
) -> Result<(), AllocError>
    requires { IsKnown session.now.session.table krate }
    ensures { let found = spec.place_matches session.now.session searched.now place krate in
        OnOk result (map view values.new.items ≡ map view values.old.items ++ found) }
{
    let (sources, text) = (session.sources(), session.text_at(place));
    let mut finder = finder_of(text);
    let options = member_options(sources, krate, searched.has_members());
    let reading = reading_of(text, session.edition().year, options);
    let (tree, query) = (sources.tree(place, krate), searched.query());
    let found = found_in(alloc, tree, &mut finder.places, reading, query)?;
    let units = searched.units();
    push_matches(
        alloc,
        units,
        place,
        krate,
        &mut finder.lines,
        &found,
        values,
    )
}

// The objects of what is looked for in some trees.
fn matches(
    alloc: Global,
    session: &Session,
    searched: &Searched,
    changes: ChangedSince<'_>,
) -> Result<Vec<Value>, AllocError>
    requires { All (λ c. IsKnown session.now.session.table c.1) changes }
    ensures { let found = flat_map (spec.change_matches session.now.session searched.now) changes.entry in
        IfOk result (λ values. map view values.items ≡ found) }
{
    let mut values = Vec::new(alloc);
    for (place, krate, _) in changes {
        push_place_matches(alloc, session, searched, place, krate, &mut values)?;
    }
    Ok(values)
}

/// The objects of all that is looked for.
///
/// # Errors
///
/// Only if memory runs out.
pub(crate) fn search(
    alloc: Global,
    session: &Session,
    searched: &Searched,
) -> Result<Value, AllocError>
    ensures { IfOk result
        (λ value. spec.IsSearchValue session.now.session searched.now (view value)) }
{
    let values = matches(alloc, session, searched, session.sources().changed_since(0))?;
    Ok(Value::Array(values))
}
