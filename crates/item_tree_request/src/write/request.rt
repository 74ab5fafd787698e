//! A request as JSON.
ghost use Rattle.std.specs.Prelude.{◌≡◌, IfErr, IfOk, MatchResult, Some, map, string_bytes};
ghost use Rattle.serde_json.specs.View.{view, items_view};
ghost use Rattle.hir_input.specs.Syntax.{syntax_view};
ghost use Rattle.hir_input_json.specs.Writing.Writes.{Writes};
ghost use Rattle.hir_input_json.specs.Reading.{right};
ghost use Rattle.item_tree_request.specs.Requests.{IsJsonText, IsRequest, request as request_form};
ghost use Rattle.item_tree_request.specs.Writing.Asked.{asked_data, asked_request};
ghost use Rattle.item_tree_request.specs.Writing.Faults.{IsNoText, IsDataUnwritten, fault_of};
ghost use Rattle.item_tree_request.specs.Writing.RequestData.{request_object as object_of};
ghost use Rattle.item_tree_request.specs.declared.write.request.RequestFault.TheVariants.{OutOfMemory};

use crate::request::show::Show;
use crate::write::depth::nests_past;
use crate::write::parts::{
    atom_values, crate_object, edit_values, edition_value, name_values, show_values,
};
use hir_input::ast::Syntax;
use hir_input::{CfgAtom, Edition, Name};
use hir_input_json::write::WriteFault;
use hir_input_json::write::object::with;
use serde_json::{Map, Value};
use std::alloc::{AllocError, Global};
use thiserror::Error;

/// How deep a JSON text may nest that is read again.
const MOST_DEPTH: u32 = 127;

/// What a request has beside its files and its shows.
#[derive(Drop)]
pub struct RequestOptions {
    /// Whether the body texts are written.
    pub bodies: bool,
    /// The names of attributes that no tree is to have.
    pub skipped: Vec<Name>,
    pub edition: Edition,
    /// The options that are set in the crate.
    pub cfg: Vec<CfgAtom>,
}

/// Why a request is not written.
#[derive(Clone, Copy, Debug, PartialEq, Eq, Error)]
pub enum RequestFault {
    /// A part of it has no form: a syntax, as `WriteFault::NoForm` says; a show of another crate than 0; or a file that
    /// stands behind 2^32 others.
    #[error("no form")]
    NoForm,
    /// The JSON nests deeper than 127, which no reader of texts takes.
    #[error("nested too deep")]
    TooDeep,
    #[error("out of memory")]
    OutOfMemory,
}

impl From<WriteFault> for RequestFault {
    ghost from_gives = { λ fault e. e ≡ fault_of fault };

    fn from(fault: WriteFault) -> RequestFault {
        match fault {
            WriteFault::NoForm => RequestFault::NoForm,
            WriteFault::OutOfMemory => RequestFault::OutOfMemory,
        }
    }
}

impl From<AllocError> for RequestFault {
    ghost from_gives = { λ _ e. e ≡ OutOfMemory };

    fn from(_failed: AllocError) -> RequestFault {
        RequestFault::OutOfMemory
    }
}

fn request_object(
    alloc: Global,
    krate: Value,
    edition: Value,
    edits: Vec<Value>,
    shows: Vec<Value>,
    skipped: Vec<Value>,
) -> Result<Value, AllocError>
    ensures { IfOk result (λ v. view v
        ≡ object_of (view krate) (view edition) (items_view edits.items) (items_view shows.items)
        (items_view skipped.items)) }
{
    let crates = vec![in alloc; krate]?;
    let members = with(alloc, Map::new(alloc), "crates", Value::from(crates))?;
    let members = with(alloc, members, "edition", edition)?;
    let members = with(alloc, members, "edits", Value::from(edits))?;
    let members = with(alloc, members, "shows", Value::from(shows))?;
    let members = with(alloc, members, "skipped", Value::from(skipped))?;
    Ok(Value::Object(members))
}

fn value_of(
    alloc: Global,
    options: &RequestOptions,
    files: &[Syntax],
    shows: &[Show],
) -> Result<Value, WriteFault>
    ensures { let wanted = asked_data options.now (map syntax_view files.now) shows.now in
        Writes view result wanted }
{
    let skipped = name_values(alloc, &options.skipped)?;
    let edition = edition_value(alloc, &options.edition)?;
    let atoms = atom_values(alloc, &options.cfg)?;
    let edits = edit_values(alloc, options.bodies, files)?;
    let shows = show_values(alloc, shows)?;
    let krate = crate_object(alloc, atoms)?;
    Ok(request_object(alloc, krate, edition, edits, shows, skipped)?)
}

// The request as JSON. Reading that gives exactly this request, with empty body texts where `bodies` is false.
fn request_value(
    alloc: Global,
    options: &RequestOptions,
    files: &[Syntax],
    shows: &[Show],
) -> Result<Value, WriteFault>
    ensures written { let wanted = asked_data options.now (map syntax_view files.now) shows.now in
        Writes view result wanted }
    ensures reads { let asked = asked_request options.now (map syntax_view files.now) shows.now in
        IfOk result (λ v. request_form (view v) ≡ right asked) }
{
    let value = value_of(alloc, options, files, shows)?;
    Ok(value)
}

// A value as a text, unless it nests too deep for one that is read again.
fn text_of(alloc: Global, value: &Value) -> Result<String, RequestFault>
    ensures { MatchResult result (λ text. IsJsonText (string_bytes text) (view value.now))
        (IsNoText (view value.now)) }
{
    if nests_past(value, MOST_DEPTH) {
        return Err(RequestFault::TooDeep);
    }
    Ok(value.to_string(alloc)?)
}

/// The request of one crate, whose root is file 0, with each file set to its syntax, numbered from 0, and these shows,
/// as a JSON text. That is read as exactly this request, with empty body texts where `bodies` is false.
///
/// # Errors
///
/// `NoForm` only where a part has no form: a syntax, as `syntax_value` says, a show of another crate than 0, or a file
/// behind 2^32 others. `TooDeep` only where the JSON nests deeper than 127. Else `OutOfMemory`.
pub fn request_text(
    alloc: Global,
    options: &RequestOptions,
    files: &[Syntax],
    shows: &[Show],
) -> Result<String, RequestFault>
    ensures reads { let asked = asked_request options.now (map syntax_view files.now) shows.now in
        IfOk result (λ text. IsRequest (string_bytes text) asked) }
    ensures refused { let wanted = asked_data options.now (map syntax_view files.now) shows.now in
        IfErr result (IsDataUnwritten wanted) }
{
    let value = request_value(alloc, options, files, shows)?;
    text_of(alloc, &value)
}
