//! Paths as JSON.
ghost use Rattle.std.specs.Prelude.{map, option_and_then};
ghost use Rattle.serde_json.specs.View.{view};
ghost use Rattle.hir_input_json.specs.Writing.Lists.{joined_items};
ghost use Rattle.hir_input_json.specs.Writing.Parts.{each_data, maybe_data, name_data};
ghost use Rattle.hir_input_json.specs.Writing.Paths.{word_and_names as behind_data, mod_path_data, path_data};
ghost use Rattle.hir_input_json.specs.Writing.Writes.{Writes, WritesEach};

use crate::write::fault::{WriteFault, Written};
use crate::write::name::name_value;
use hir_input::ast::PathNode;
use hir_input::{ModPath, Name, PathKind};
use serde_json::Value;
use std::alloc::{AllocError, Global};

// The values of names behind others.
#[tactic(auto, using(crate::proofs::Writing::Lists::lists))]
fn names_behind(
    alloc: Global,
    mut values: Vec<Value>,
    names: &[Name],
) -> Result<Vec<Value>, WriteFault>
    ensures { WritesEach result (joined_items (map view values.items) (each_data name_data names.now)) }
{
    for name in names {
        values.push(name_value(alloc, name)?)?;
    }
    Ok(values)
}

// Names behind a word and a number.
#[tactic(auto, using(crate::proofs::Writing::Paths::names_joined))]
fn word_and_names(alloc: Global, word: &str, number: Option<u32>, names: &[Name]) -> Written
    ensures { Writes view result
        (option_and_then (behind_data word.now number) (each_data name_data names.now)) }
{
    let mut front = Vec::new(alloc);
    front.push(Value::try_from_str(alloc, word)?)?;
    if let Some(number) = number {
        front.push(Value::from(number))?;
    }
    let values = names_behind(alloc, front, names)?;
    Ok(Value::from(values))
}

#[tactic(auto, using(crate::proofs::Writing::Paths::plain_names))]
fn mod_path_value(alloc: Global, path: &ModPath) -> Written
    ensures { Writes view result (mod_path_data path.now) }
{
    let names = path.segments();
    match path.kind() {
        PathKind::Plain => word_and_names(alloc, "plain", None, names),
        PathKind::Super(count) => word_and_names(alloc, "super", Some(count), names),
        PathKind::Crate => word_and_names(alloc, "crate", None, names),
        PathKind::Abs => word_and_names(alloc, "abs", None, names),
        PathKind::DollarCrate(krate) => word_and_names(alloc, "dollar", Some(krate.0), names),
    }
}

pub(crate) fn path_value(alloc: Global, path: &PathNode) -> Written
    ensures { Writes view result (path_data path.now) }
{
    match path {
        PathNode::Readable(path) => mod_path_value(alloc, path),
        PathNode::Unreadable => Ok(Value::try_from_str(alloc, "unreadable")?),
    }
}

// Null where there is no path.
pub(crate) fn path_or_null(alloc: Global, path: &Option<PathNode>) -> Written
    ensures { Writes view result (maybe_data path_data path.now) }
{
    match path {
        Some(path) => path_value(alloc, path),
        None => Ok(Value::Null),
    }
}
