//! The request that a run reads.
ghost use Rattle.std.specs.Prelude.{◌≡◌, ◌^◌, IfOk, OnOk, MatchResult, codes};
ghost use Rattle.serde_json.specs.View.{view};
ghost use Rattle.hir_input.specs.Edition.{edition_view};
ghost use Rattle.hir_input_json.specs.Editions.{edition_at as edition_at_form};
ghost use Rattle.hir_input_json.specs.Reading.{right};
ghost use Rattle.hir_input_json.specs.Forms.{optional_at, whole_form, identifier_form as name_form, list_at as each_at};
ghost use Rattle.hir_input_json.specs.Held.{object_held, without_key};
ghost use Rattle.hir_input_json.specs.Reads.{Reads, Tells};
ghost use Rattle.item_tree_request.specs.Inner.RequestView.{request_view, NamesOwnCrates};
ghost use Rattle.item_tree_request.specs.Requests.{request as request_form, request_parts as parts_form};

pub mod crates;
pub mod edit;
pub mod show;

use crate::request::crates::crates_at;
use crate::request::edit::edits_at;
use crate::request::show::{Show, shows_at};
use hir_input::{Edition, Name};
use hir_input_json::Fault;
use hir_input_json::edition::edition_at;
use hir_input_json::float::has_float;
use hir_input_json::member::{members_of, u64_at};
use hir_input_json::name::names_at;
use item_tree::CrateData;
use item_tree_db::Edit;
use serde_json::{Map, Value};
use std::alloc::Global;

// The edits of a new table, and what is to be shown after them.
#[derive(Drop)]
pub(crate) struct Request {
    pub(crate) settings: Settings,
    pub(crate) crates: Vec<CrateData>,
    pub(crate) edits: Vec<Edit>,
    pub(crate) shows: Vec<Show>,
}

// What does not hold of one crate or file alone.
#[derive(Drop)]
pub(crate) struct Settings {
    pub(crate) start: u64,
    pub(crate) skipped: Vec<Name>,
    pub(crate) edition: Edition,
}

// Takes the settings out.
#[tactic(auto, using(hir_input_json::proofs::MemberObjects::field_without))]
fn settings_at(alloc: Global, members: &mut Map<String, Value>) -> Result<Settings, Fault>
    ensures reads { MatchResult result
        (λ s. (optional_at 0 (codes "start") (whole_form (2 ^ 64)) (object_held members.old) ≡ right s.start)
        × (each_at name_form (codes "skipped") (object_held members.old) ≡ right s.skipped.items)
        × (edition_at_form (object_held members.old) ≡ right (edition_view s.edition)))
        (Tells (parts_form (object_held members.old))) }
    ensures left { OnOk result
        (object_held members.new ≡ without_key (codes "edition")
        (without_key (codes "skipped") (object_held members.old))) }
{
    let start = u64_at(alloc, members, "start")?;
    let skipped = names_at(alloc, members, "skipped")?;
    let edition = edition_at(alloc, members)?;
    Ok(Settings {
        start,
        skipped,
        edition,
    })
}

#[tactic(auto, using(hir_input_json::proofs::MemberObjects::field_without))]
fn parts_of(alloc: Global, members: &mut Map<String, Value>) -> Result<Request, Fault>
    ensures reads { Reads request_view result (parts_form (object_held members.old)) }
    ensures known { IfOk result NamesOwnCrates }
{
    let settings = settings_at(alloc, members)?;
    let crates = crates_at(alloc, members)?;
    let edits = edits_at(alloc, members, &crates)?;
    let shows = shows_at(alloc, members, &crates)?;
    Ok(Request {
        settings,
        crates,
        edits,
        shows,
    })
}

#[tactic(auto, unfolding(crate::specs::Requests::request))]
pub(crate) fn request_of(alloc: Global, value: Value) -> Result<Request, Fault>
    ensures reads { Reads request_view result (request_form (view value)) }
    ensures known { IfOk result NamesOwnCrates }
{
    if has_float(&value) {
        return Err(Fault::here(alloc));
    }
    let mut members = members_of(alloc, value)?;
    parts_of(alloc, &mut members)
}
