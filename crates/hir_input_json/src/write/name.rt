//! Names as JSON texts.
ghost use Rattle.std.specs.Prelude.{IfOk};
ghost use Rattle.serde_json.specs.View.{view};
ghost use Rattle.hir_input_json.specs.Forms.{identifier_form as name_form};
ghost use Rattle.hir_input_json.specs.Writing.Held.{Holds};
ghost use Rattle.hir_input_json.specs.Writing.Parts.{maybe_data, name_data};
ghost use Rattle.hir_input_json.specs.Writing.Writes.{Writes};

use crate::write::fault::{WriteFault, Written};
use hir_input::Name;
use serde_json::Value;
use std::alloc::Global;

/// A name as JSON. It is read as the name again.
///
/// # Errors
///
/// Only if memory runs out.
#[tactic(auto, using(crate::proofs::Writing::Names::name_read))]
pub fn name_value(alloc: Global, name: &Name) -> Result<Value, WriteFault>
    ensures written { Writes view result (name_data name.now) }
    ensures reads { IfOk result (λ v. Holds name_form name.now (view v)) }
{
    Ok(Value::try_from_str(alloc, name.text())?)
}

// Null where there is no name.
pub(crate) fn name_or_null(alloc: Global, name: &Option<Name>) -> Written
    ensures { Writes view result (maybe_data name_data name.now) }
{
    match name {
        Some(name) => name_value(alloc, name),
        None => Ok(Value::Null),
    }
}
