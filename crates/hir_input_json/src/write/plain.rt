//! Items that have no parts but a name and a visibility, as JSON.
ghost use Rattle.serde_json.specs.View.{view};
ghost use Rattle.hir_input.specs.Syntax.{named_view};
ghost use Rattle.hir_input_json.specs.Writing.Items.{plain_data};
ghost use Rattle.hir_input_json.specs.Writing.Writes.{Writes};

use crate::write::fault::Written;
use crate::write::node::{named_members, named_of, node, node_of};
use hir_input::ast::NamedNode;
use serde_json::Value;
use std::alloc::Global;

// An item of the kind that this word tells.
pub(crate) fn plain_value(alloc: Global, bodies: bool, word: &str, item: &NamedNode) -> Written
    ensures { Writes view result (plain_data bodies word.now (named_view item.now)) }
{
    let node = node!(alloc, bodies, item)?;
    let named = named_of(alloc, node, &item.name, &item.visibility)?;
    Ok(Value::Object(named_members(alloc, word, named)?))
}
