//! Syntax contexts, read from their forms.
ghost use Rattle.std.specs.Prelude.{◌≡◌};
ghost use Rattle.serde_json.specs.View.{view};
ghost use Rattle.hir_input_json.specs.Held.{object_held};
ghost use Rattle.hir_input_json.specs.Literals.{context as context_form, context_at as context_at_form, root_word};
ghost use Rattle.hir_input_json.specs.Reads.{Reads};

use crate::fault::{Fault, ReadIn};
use crate::member::{Members, field, u32_of};
use hir_input::{EditionYear, SyntaxContext};
use serde_json::Value;
use std::alloc::Global;

// A root by its word.
fn root_by(alloc: Global, word: &str) -> Result<SyntaxContext, Fault>
    ensures { Reads (λ ctxt. ctxt) result (root_word word.now) }
{
    match word {
        "ROOT2015" => Ok(SyntaxContext::Root(EditionYear::E2015)),
        "ROOT2018" => Ok(SyntaxContext::Root(EditionYear::E2018)),
        "ROOT2021" => Ok(SyntaxContext::Root(EditionYear::E2021)),
        "ROOT2024" => Ok(SyntaxContext::Root(EditionYear::E2024)),
        _ => Err(Fault::here(alloc)),
    }
}

fn context_of(alloc: Global, value: &Value) -> Result<SyntaxContext, Fault>
    ensures { Reads (λ ctxt. ctxt) result (context_form (view value.now)) }
{
    match value.as_str() {
        Some(word) => root_by(alloc, word),
        None => Ok(SyntaxContext::Expanded(u32_of(alloc, value)?)),
    }
}

// The latest root where it is absent.
pub(crate) fn context_at(alloc: Global, members: &Members) -> Result<SyntaxContext, Fault>
    ensures { Reads (λ ctxt. ctxt) result (context_at_form (object_held members.now)) }
{
    match field(members, "ctxt") {
        Some(found) => context_of(alloc, found).in_member(alloc, "ctxt"),
        None => Ok(SyntaxContext::Root(EditionYear::E2024)),
    }
}
