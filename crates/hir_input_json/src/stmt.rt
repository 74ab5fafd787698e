//! Statements and tails, read from their forms.
ghost use Rattle.std.specs.Prelude.{◌≡◌, OnOk, codes, map};
ghost use Rattle.serde_json.specs.View.{view, items_view};
ghost use Rattle.hir_input.specs.Syntax.{call_view, stmt_view, stmts_view, tail_view};
ghost use Rattle.hir_input_json.specs.Forms.{each, list_at as each_at, optional_at, text_form};
ghost use Rattle.hir_input_json.specs.Held.{IsLeftWithout, object_held};
ghost use Rattle.hir_input_json.specs.Syntaxes.{call as call_form, stmt as stmt_form, stmt_by, tail as tail_form};
ghost use Rattle.hir_input_json.specs.Syntaxes.{tail_at as tail_at_form};
ghost use Rattle.hir_input_json.specs.Reads.{Reads};

use crate::each_of;
use crate::fault::{Fault, ReadIn};
use crate::item::item_of;
use crate::item::macros::macro_call_of;
use crate::member::{Members, field, list_at, members_of, required_at, take_member};
use hir_input::ast::{MacroCall, Stmt, Tail};
use serde_json::Value;
use std::alloc::Global;

// What is no item and no call, by the word for it.
macro_rules! other_by {
    ($alloc:expr, $word:expr, $other:expr) => {
        match $word {
            "other" => Ok($other),
            _ => Err(Fault::here($alloc)),
        }
    };
}

// The word of a call's kind, which may be absent.
fn kind_at<'v>(alloc: Global, members: &'v Members) -> Result<&'v str, Fault>
    ensures { Reads (λ word. word.now) result
        (optional_at (codes "macro_call") (codes "is") text_form (object_held members.now)) }
{
    match field(members, "is") {
        Some(found) => found.as_str().ok_or_else(|| Fault::at(alloc, "is")),
        None => Ok("macro_call"),
    }
}

fn call_of(alloc: Global, value: Value) -> Result<MacroCall, Fault>
    ensures { Reads call_view result (call_form (view value)) }
{
    let mut members = members_of(alloc, value)?;
    match kind_at(alloc, &members)? {
        "macro_call" => macro_call_of(alloc, &mut members),
        _ => Err(Fault::at(alloc, "is")),
    }
}

fn stmt_of(alloc: Global, value: Value) -> Result<Stmt, Fault>
    ensures { Reads stmt_view result (stmt_form (view value)) }
{
    if let Some(word) = value.as_str() {
        return other_by!(alloc, word, Stmt::Other);
    }
    let mut members = members_of(alloc, value)?;
    stmt_in(alloc, &mut members)
}

// An item, or else a call.
#[tactic(auto, using(crate::proofs::MemberObjects::field_without))]
fn stmt_in(alloc: Global, members: &mut Members) -> Result<Stmt, Fault>
    ensures { Reads stmt_view result (stmt_by (object_held members.old)) }
{
    if let Some(item) = take_member(members, "item") {
        let item = item_of(alloc, item).in_member(alloc, "item")?;
        return Ok(Stmt::Item(item));
    }
    let call = take_member(members, "call").ok_or_else(|| Fault::here(alloc))?;
    let call = call_of(alloc, call).in_member(alloc, "call")?;
    Ok(Stmt::MacroCall(call))
}

fn stmts_of(alloc: Global, values: Vec<Value>) -> Result<Vec<Stmt>, Fault>
    ensures { Reads (λ v. stmts_view v.items) result (each stmt_form (items_view values.items)) }
{
    each_of!(alloc, values, stmt_of)
}

// Takes the statements out, none where they are absent.
pub(crate) fn stmts_at(alloc: Global, members: &mut Members) -> Result<Vec<Stmt>, Fault>
    ensures reads { Reads (λ v. stmts_view v.items) result
        (each_at stmt_form (codes "stmts") (object_held members.old)) }
    ensures left { OnOk result (IsLeftWithout (codes "stmts") members.old members.new) }
{
    let stmts = list_at(alloc, members, "stmts")?;
    stmts_of(alloc, stmts).in_member(alloc, "stmts")
}

fn tail_of(alloc: Global, value: Value) -> Result<Tail, Fault>
    ensures { Reads tail_view result (tail_form (view value)) }
{
    if let Some(word) = value.as_str() {
        return other_by!(alloc, word, Tail::Other);
    }
    let mut members = members_of(alloc, value)?;
    let call = required_at(alloc, &mut members, "call")?;
    let call = call_of(alloc, call).in_member(alloc, "call")?;
    Ok(Tail::MacroCall(call))
}

// Takes the tail out, nothing where it is absent.
pub(crate) fn tail_at(alloc: Global, members: &mut Members) -> Result<Tail, Fault>
    ensures reads { Reads tail_view result (tail_at_form (object_held members.old)) }
    ensures left { IsLeftWithout (codes "tail") members.old members.new }
{
    match take_member(members, "tail") {
        Some(tail) => tail_of(alloc, tail).in_member(alloc, "tail"),
        None => Ok(Tail::Nothing),
    }
}
