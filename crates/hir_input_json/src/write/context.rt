//! Syntax contexts as JSON.
ghost use Rattle.std.specs.Prelude.{◌≡◌};
ghost use Rattle.serde_json.specs.View.{view};
ghost use Rattle.hir_input_json.specs.Writing.Literals.{context_data, is_same_context, year_number as number_of_year};
ghost use Rattle.hir_input_json.specs.Writing.Writes.{Writes};

use crate::write::fault::Written;
use hir_input::{EditionYear, SyntaxContext};
use serde_json::Value;
use std::alloc::Global;

pub(crate) fn context_value(alloc: Global, context: SyntaxContext) -> Written
    ensures { Writes view result (context_data context) }
{
    match context {
        SyntaxContext::Root(EditionYear::E2015) => Ok(Value::try_from_str(alloc, "ROOT2015")?),
        SyntaxContext::Root(EditionYear::E2018) => Ok(Value::try_from_str(alloc, "ROOT2018")?),
        SyntaxContext::Root(EditionYear::E2021) => Ok(Value::try_from_str(alloc, "ROOT2021")?),
        SyntaxContext::Root(EditionYear::E2024) => Ok(Value::try_from_str(alloc, "ROOT2024")?),
        SyntaxContext::Expanded(number) => Ok(Value::from(number)),
    }
}

/// The number of a year, as `edition` has it in a request.
pub fn year_number(year: EditionYear) -> u32
    ensures { result ≡ number_of_year year }
{
    match year {
        EditionYear::E2015 => 2015,
        EditionYear::E2018 => 2018,
        EditionYear::E2021 => 2021,
        EditionYear::E2024 => 2024,
    }
}

pub(crate) fn is_same(context: SyntaxContext, other: SyntaxContext) -> bool
    ensures { result ≡ is_same_context context other }
{
    match (context, other) {
        (SyntaxContext::Root(year), SyntaxContext::Root(other)) => year_number(year)
            == year_number(other),
        (SyntaxContext::Expanded(number), SyntaxContext::Expanded(other)) => number == other,
        _ => false,
    }
}
