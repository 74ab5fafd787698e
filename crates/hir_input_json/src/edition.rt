//! Editions, read from their forms.
ghost use Rattle.std.specs.Prelude.{◌≡◌, OnOk, codes};
ghost use Rattle.serde_json.specs.View.{view};
ghost use Rattle.hir_input.specs.Edition.{edition_view};
ghost use Rattle.hir_input.specs.declared.edition.EditionYear.TheVariants.{E2024};
ghost use Rattle.hir_input_json.specs.Editions.{edition as edition_form, edition_at as edition_at_form};
ghost use Rattle.hir_input_json.specs.Editions.{year as year_form};
ghost use Rattle.hir_input_json.specs.Forms.{optional_at};
ghost use Rattle.hir_input_json.specs.Held.{IsLeftWithout, object_held};
ghost use Rattle.hir_input_json.specs.Reads.{Reads};

use crate::fault::{Fault, ReadIn};
use crate::member::{Members, field, members_of, take_member};
use crate::name::names_at;
use hir_input::{Edition, EditionYear};
use serde_json::Value;
use std::alloc::Global;

// The latest year where it is absent.
fn year_at(alloc: Global, members: &Members) -> Result<EditionYear, Fault>
    ensures { Reads (λ year. year) result
        (optional_at E2024 (codes "year") year_form (object_held members.now)) }
{
    let Some(year) = field(members, "year") else {
        return Ok(EditionYear::E2024);
    };
    match year.as_u64() {
        Some(2015) => Ok(EditionYear::E2015),
        Some(2018) => Ok(EditionYear::E2018),
        Some(2021) => Ok(EditionYear::E2021),
        Some(2024) => Ok(EditionYear::E2024),
        _ => Err(Fault::at(alloc, "year")),
    }
}

#[tactic(auto, using(crate::proofs::MemberObjects::field_without))]
fn edition_of(alloc: Global, value: Value) -> Result<Edition, Fault>
    ensures { Reads edition_view result (edition_form (view value)) }
{
    let mut members = members_of(alloc, value)?;
    let year = year_at(alloc, &members)?;
    let reserved = names_at(alloc, &mut members, "reserved")?;
    Ok(Edition { year, reserved })
}

/// Takes the edition out: the latest, without reserved words, where it is absent.
///
/// `WrongForm` comes only where it is there and not of its form (`Editions.edition`), and tells where.
pub fn edition_at(alloc: Global, members: &mut Members) -> Result<Edition, Fault>
    ensures reads { Reads edition_view result (edition_at_form (object_held members.old)) }
    ensures left { OnOk result (IsLeftWithout (codes "edition") members.old members.new) }
{
    match take_member(members, "edition") {
        Some(edition) => { edition_of(alloc, edition).in_member(alloc, "edition") }
        None => Ok(Edition {
            year: EditionYear::E2024,
            reserved: Vec::new(alloc),
        }),
    }
}
