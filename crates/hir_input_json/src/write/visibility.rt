//! Visibilities as JSON.
ghost use Rattle.serde_json.specs.View.{view};
ghost use Rattle.hir_input_json.specs.Writing.Parts.{maybe_data};
ghost use Rattle.hir_input_json.specs.Writing.Paths.{visibility_data};
ghost use Rattle.hir_input_json.specs.Writing.Writes.{Writes};

use crate::write::fault::Written;
use crate::write::object::one;
use crate::write::path::path_value;
use hir_input::ast::{PathNode, Visibility};
use serde_json::Value;
use std::alloc::Global;

pub(crate) fn visibility_value(alloc: Global, visibility: &Visibility) -> Written
    ensures { Writes view result (visibility_data visibility.now) }
{
    match visibility {
        Visibility::Pub => Ok(Value::try_from_str(alloc, "pub")?),
        Visibility::PubCrate => Ok(Value::try_from_str(alloc, "crate")?),
        Visibility::PubSuper => Ok(Value::try_from_str(alloc, "super")?),
        Visibility::PubSelf => Ok(Value::try_from_str(alloc, "self")?),
        Visibility::InPath(path) => {
            let path = path_value(alloc, path)?;
            Ok(one(alloc, "in", path)?)
        }
    }
}

// Null where there is no visibility.
pub(crate) fn visibility_or_null(alloc: Global, visibility: &Option<Visibility>) -> Written
    ensures { Writes view result (maybe_data visibility_data visibility.now) }
{
    match visibility {
        Some(visibility) => visibility_value(alloc, visibility),
        None => Ok(Value::Null),
    }
}
