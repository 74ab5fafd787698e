//! From the bytes of a request to its output.
ghost use Rattle.std.specs.Prelude.{◌≡◌, All, IfOk, length, map, MatchResult, string_bytes};
ghost use Rattle.serde_json.specs.View.{view};
ghost use Rattle.item_tree.specs.CrateView.{crate_view};
ghost use Rattle.item_tree_db.specs.State.{new_table};
ghost use Rattle.item_tree_db.specs.Edits.{edit_view};
ghost use Rattle.item_tree_request.specs.Inner.Made.{IsMade, IsRequestServed, IsUnmade, refusal_of};
ghost use Rattle.item_tree_request.specs.Outputs.{first_table};
ghost use Rattle.item_tree_request.specs.Inner.RequestView.{request_view, NamesOwnCrates};
ghost use Rattle.item_tree_request.specs.Named.{EditNamesCrate};
ghost use Rattle.item_tree_request.specs.Requests.{IsJsonText, IsRequest};
ghost use Rattle.item_tree_request.specs.Runs.{IsOutputOf, IsRefusedFor};

use crate::error::RunError;
use crate::request::{Request, Settings, request_of};
use crate::show_writer::{ShowWriter, output_of};
use hir_input::Name;
use hir_input_json::Fault;
use item_tree::{CrateData, EditFault, LowerError};
use item_tree_db::{AllRefused, Edit, Sources};
use serde_json::{Category, Value};
use std::alloc::Global;

// The value of a JSON text.
fn value_of(alloc: Global, bytes: &[u8]) -> Result<Value, RunError>
    ensures { MatchResult result (λ value. IsJsonText bytes.now (view value))
        (IsRefusedFor bytes.now) }
{
    match Value::from_slice(alloc, bytes) {
        Ok(value) => Ok(value),
        Err(e) => match e.classify() {
            Category::Memory => Err(RunError::OutOfMemory),
            _ => Err(RunError::NotJson),
        },
    }
}

// The request that the bytes are a JSON text of.
fn read_request(alloc: Global, bytes: &[u8]) -> Result<Request, RunError>
    ensures reads { MatchResult result (λ request. IsRequest bytes.now (request_view request))
        (IsRefusedFor bytes.now) }
    ensures known { IfOk result NamesOwnCrates }
{
    let value = value_of(alloc, bytes)?;
    match request_of(alloc, value) {
        Ok(request) => Ok(request),
        Err(Fault::WrongForm { .. }) => Err(RunError::NotRequest),
        Err(Fault::OutOfMemory) => Err(RunError::OutOfMemory),
    }
}

// A refused edit, or out of memory in it.
fn refusal(place: usize, cause: EditFault) -> RunError
    ensures { result ≡ refusal_of place cause }
{
    match cause {
        EditFault::Lower(LowerError::OutOfMemory) => RunError::OutOfMemory,
        cause => RunError::Refused { place, cause },
    }
}

// The table of a request after its edits.
fn sources_of(
    alloc: Global,
    crates: Vec<CrateData>,
    skipped: Vec<Name>,
    start: u64,
    edits: Vec<Edit>,
) -> Result<Sources, RunError>
    requires { All (EditNamesCrate (length crates.items)) edits.items }
    ensures { MatchResult result
        (IsMade (new_table (map crate_view crates.items) skipped.items start) (map edit_view edits.items))
        (IsUnmade (new_table (map crate_view crates.items) skipped.items start) (map edit_view edits.items)) }
{
    let mut sources = Sources::new(alloc, crates, skipped, start);
    match sources.edit_all(edits) {
        Ok(_) => Ok(sources),
        Err(AllRefused { place, refused }) => Err(refusal(place, refused.cause)),
    }
}

// The texts of a request's shows after its edits.
fn serve<T: ShowWriter>(alloc: Global, writer: &T, request: Request) -> Result<String, RunError>
    requires { NamesOwnCrates request }
    ensures { MatchResult result
        (λ text. IsRequestServed T.is_text (request_view request) (string_bytes text))
        (IsUnmade (first_table (request_view request)) (request_view request).edits) }
{
    let Request {
        settings,
        crates,
        edits,
        shows,
    } = request;
    let Settings {
        start,
        skipped,
        edition,
    } = settings;
    let sources = sources_of(alloc, crates, skipped, start, edits)?;
    match output_of(alloc, writer, &sources, &edition, &shows) {
        Ok(text) => Ok(text),
        Err(_) => Err(RunError::OutOfMemory),
    }
}

// The output of the request that the bytes are, or why there is none.
pub(crate) fn answer<T: ShowWriter>(
    alloc: Global,
    writer: &T,
    bytes: &[u8],
) -> Result<String, RunError>
    ensures { MatchResult result (λ text. IsOutputOf T.is_text bytes.now (string_bytes text))
        (IsRefusedFor bytes.now) }
{
    let request = read_request(alloc, bytes)?;
    serve(alloc, writer, request)
}
