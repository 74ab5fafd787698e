//! What changed in the trees of a table, as values.
ghost use Rattle.std.specs.Prelude.{◌≡◌, IfOk, map};
ghost use Rattle.serde_json.specs.View.{view};
ghost use Rattle.source_session.specs.Shown.{AreChangeValues, change_form, change_with, items_member};

use hir_input::Crate;
use item_tree_db::{ChangedSince, Place, Sources};
use serde_json::{Value, json};
use std::alloc::{AllocError, Global};

fn change_value(alloc: Global, place: Place, krate: Crate, change: u64) -> Result<Value, AllocError>
    ensures { IfOk result (λ value. view value ≡ change_form (place, krate, change)) }
{
    let krate = krate.0;
    match place {
        Place::File(file) => {
            let file = file.0;
            json!(in alloc; {"change": change, "crate": krate, "file": file})
        }
        Place::Block(block) => {
            let block = block.0;
            json!(in alloc; {"block": block, "change": change, "crate": krate})
        }
    }
}

fn change_values(alloc: Global, changes: ChangedSince<'_>) -> Result<Vec<Value>, AllocError>
    ensures { IfOk result (λ values. map view values.items ≡ map change_form changes.entry) }
{
    let mut values = Vec::new(alloc);
    for (place, krate, change) in changes {
        values.push(change_value(alloc, place, krate, change)?)?;
    }
    Ok(values)
}

/// The objects of what changed since a number.
pub(crate) fn changes_value(
    alloc: Global,
    sources: &Sources,
    since: u64,
) -> Result<Value, AllocError>
    ensures { IfOk result (λ value. AreChangeValues sources.now since (view value)) }
{
    let places = sources.changed_places(alloc, since)?;
    let values = change_values(alloc, sources.changed_among(since, &places))?;
    Ok(Value::Array(values))
}

/// A change, with the items that the tree has since then.
pub(crate) fn tree_value(
    alloc: Global,
    place: Place,
    krate: Crate,
    change: u64,
    items: Vec<Value>,
) -> Result<Value, AllocError>
    ensures { let more = items_member (map view items.items) in
        IfOk result (λ value. view value ≡ change_with more (place, krate, change)) }
{
    let krate = krate.0;
    let items = Value::Array(items);
    match place {
        Place::File(file) => {
            let file = file.0;
            json!(in alloc; {"change": change, "crate": krate, "file": file, "items": items})
        }
        Place::Block(block) => {
            let block = block.0;
            json!(in alloc; {"block": block, "change": change, "crate": krate, "items": items})
        }
    }
}
