//! The parts of a request as JSON.
ghost use Rattle.std.specs.Prelude.{◌≡◌, ◌^◌, IfOk, codes, map};
ghost use Rattle.serde_json.specs.Data.{number, unsigned};
ghost use Rattle.serde_json.specs.View.{view, items_view};
ghost use Rattle.hir_input.specs.Cfg.{atom_view};
ghost use Rattle.hir_input.specs.Syntax.{syntax_view};
ghost use Rattle.hir_input.specs.Edition.{edition_view};
ghost use Rattle.hir_input_json.specs.Writing.Cfgs.{atom_data};
ghost use Rattle.hir_input_json.specs.Writing.Parts.{each_data, name_data, whole_data};
ghost use Rattle.hir_input_json.specs.Writing.Syntaxes.{syntax_data};
ghost use Rattle.hir_input_json.specs.Writing.Writes.{Writes, WritesEach};
ghost use Rattle.item_tree_request.specs.Writing.RequestData as objects;
ghost use Rattle.item_tree_request.specs.Writing.RequestData.{edit_data, edition_data, edits_data, place_show};
ghost use Rattle.item_tree_request.specs.Writing.RequestData.{show_data};

use crate::request::show::Show;
use hir_input::ast::Syntax;
use hir_input::{CfgAtom, Edition, Name};
use hir_input_json::write::cfg::atom_value;
use hir_input_json::write::name::name_value;
use hir_input_json::write::object::{of_text, with};
use hir_input_json::write::syntax::syntax_value;
use hir_input_json::write::{WriteFault, year_number};
use item_tree_db::Place;
use serde_json::{Value, json};
use std::alloc::{AllocError, Global};

#[tactic(auto, using(hir_input_json::proofs::Writing::Lists::lists))]
pub(crate) fn name_values(alloc: Global, names: &[Name]) -> Result<Vec<Value>, WriteFault>
    ensures { WritesEach result (each_data name_data names.now) }
{
    let mut values = Vec::new(alloc);
    for name in names {
        values.push(name_value(alloc, name)?)?;
    }
    Ok(values)
}

#[tactic(auto, using(hir_input_json::proofs::Writing::Lists::lists))]
pub(crate) fn atom_values(alloc: Global, atoms: &[CfgAtom]) -> Result<Vec<Value>, WriteFault>
    ensures { WritesEach result (each_data atom_data (map atom_view atoms.now)) }
{
    let mut values = Vec::new(alloc);
    for atom in atoms {
        values.push(atom_value(alloc, atom)?)?;
    }
    Ok(values)
}

pub(crate) fn crate_object(alloc: Global, atoms: Vec<Value>) -> Result<Value, AllocError>
    ensures { IfOk result (λ v. view v ≡ objects.crate_object (items_view atoms.items)) }
{
    json!(in alloc; {"cfg": atoms, "root": 0u32})
}

fn edition_object(alloc: Global, year: u32, reserved: Vec<Value>) -> Result<Value, AllocError>
    ensures { IfOk result (λ v. view v ≡ objects.edition_object year (items_view reserved.items)) }
{
    json!(in alloc; {"reserved": reserved, "year": year})
}

pub(crate) fn edition_value(alloc: Global, edition: &Edition) -> Result<Value, WriteFault>
    ensures { Writes view result (edition_data (edition_view edition.now)) }
{
    let reserved = name_values(alloc, &edition.reserved)?;
    Ok(edition_object(alloc, year_number(edition.year), reserved)?)
}

// The number of a file. There is none where too many files stand before it.
fn file_number(index: usize) -> Result<u32, WriteFault>
    ensures { Writes (λ n. number (unsigned n)) result (whole_data (2 ^ 32) index) }
{
    u32::try_from(index).ok().ok_or(WriteFault::NoForm)
}

fn edit_object(alloc: Global, file: u32, syntax: Value) -> Result<Value, AllocError>
    ensures { IfOk result (λ v. view v
        ≡ objects.edit_object (number (unsigned file)) (view syntax)) }
{
    let members = of_text(alloc, "edit", "set_file")?;
    let members = with(alloc, members, "file", Value::from(file))?;
    Ok(Value::Object(with(alloc, members, "syntax", syntax)?))
}

// A file set to its syntax.
fn edit_value(
    alloc: Global,
    bodies: bool,
    index: usize,
    syntax: &Syntax,
) -> Result<Value, WriteFault>
    ensures { Writes view result (edit_data bodies index (syntax_view syntax.now)) }
{
    let file = file_number(index)?;
    let syntax = syntax_value(alloc, syntax, bodies)?;
    Ok(edit_object(alloc, file, syntax)?)
}

pub(crate) fn edit_values(
    alloc: Global,
    bodies: bool,
    files: &[Syntax],
) -> Result<Vec<Value>, WriteFault>
    ensures { WritesEach result (edits_data bodies 0 (map syntax_view files.now)) }
{
    let mut values = Vec::new(alloc);
    for i in 0..files.len() {
        values.push(edit_value(alloc, bodies, i, &files[i])?)?;
    }
    Ok(values)
}

fn place_value(alloc: Global, word: &str, place: Place) -> Result<Value, WriteFault>
    ensures { Writes view result (place_show word.now (number (unsigned 0)) place) }
{
    let members = of_text(alloc, "show", word)?;
    let members = with(alloc, members, "crate", Value::from(0u32))?;
    match place {
        Place::File(file) => {
            let file = Value::from(file.0);
            Ok(Value::Object(with(alloc, members, "file", file)?))
        }
        Place::Block(block) => {
            let block = Value::from(block.0);
            Ok(Value::Object(with(alloc, members, "block", block)?))
        }
    }
}

fn changed_object(alloc: Global, since: u64) -> Result<Value, AllocError>
    ensures { IfOk result (λ v. view v ≡ objects.changed_object (number (unsigned since))) }
{
    let members = of_text(alloc, "show", "changed")?;
    Ok(Value::Object(with(alloc, members, "since", Value::from(since))?))
}

fn show_value(alloc: Global, show: &Show) -> Result<Value, WriteFault>
    ensures { Writes view result (show_data show.now) }
{
    match show {
        Show::OfTree(tree) => {
            if tree.krate.0 > 0 {
                return Err(WriteFault::NoForm);
            }
            place_value(alloc, tree.kind.word(), tree.place)
        }
        Show::Changed { since } => Ok(changed_object(alloc, *since)?),
    }
}

#[tactic(auto, using(hir_input_json::proofs::Writing::Lists::lists))]
pub(crate) fn show_values(alloc: Global, shows: &[Show]) -> Result<Vec<Value>, WriteFault>
    ensures { WritesEach result (each_data show_data shows.now) }
{
    let mut values = Vec::new(alloc);
    for show in shows {
        values.push(show_value(alloc, show)?)?;
    }
    Ok(values)
}
