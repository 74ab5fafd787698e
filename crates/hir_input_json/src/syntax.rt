//! Syntaxes and blocks, read from their forms.
ghost use Rattle.std.specs.Prelude.{◌≡◌, OnOk, codes};
ghost use Rattle.serde_json.specs.View.{view};
ghost use Rattle.hir_input.specs.Syntax.{syntax_view, block_view};
ghost use Rattle.hir_input_json.specs.Held.{object_held, without_key};
ghost use Rattle.hir_input_json.specs.Syntaxes.{source_form, macro_items_form, macro_stmts_form, syntax as syntax_form};
ghost use Rattle.hir_input_json.specs.Syntaxes.{block_form as block_form};
ghost use Rattle.hir_input_json.specs.Reads.{Reads};

use crate::fault::{Fault, ReadIn};
use crate::item::items_of;
use crate::member::{Members, list_at, members_of, word_at};
use crate::meta::attrs_at;
use crate::stmt::{stmts_at, tail_at};
use hir_input::ast::{BlockExpr, Syntax};
use serde_json::Value;
use std::alloc::Global;

#[tactic(auto, using(crate::proofs::MemberObjects::field_without))]
fn source_file_of(alloc: Global, members: &mut Members) -> Result<Syntax, Fault>
    ensures { Reads syntax_view result (source_form (object_held members.old)) }
{
    let attrs = attrs_at(alloc, members)?;
    let items = list_at(alloc, members, "items")?;
    let items = items_of(alloc, items).in_member(alloc, "items")?;
    Ok(Syntax::SourceFile { attrs, items })
}

fn macro_items_of(alloc: Global, members: &mut Members) -> Result<Syntax, Fault>
    ensures { Reads syntax_view result (macro_items_form (object_held members.old)) }
{
    let items = list_at(alloc, members, "items")?;
    let items = items_of(alloc, items).in_member(alloc, "items")?;
    Ok(Syntax::MacroItems { items })
}

#[tactic(auto, using(crate::proofs::MemberObjects::field_without))]
fn macro_stmts_of(alloc: Global, members: &mut Members) -> Result<Syntax, Fault>
    ensures { Reads syntax_view result (macro_stmts_form (object_held members.old)) }
{
    let stmts = stmts_at(alloc, members)?;
    let tail = tail_at(alloc, members)?;
    Ok(Syntax::MacroStmts { stmts, tail })
}

/// The syntax of a file or of a macro's result, by its root.
///
/// `WrongForm` comes only where the value is not of its form (`Syntaxes.syntax`), and tells where.
pub fn syntax_of(alloc: Global, value: Value) -> Result<Syntax, Fault>
    ensures { Reads syntax_view result (syntax_form (view value)) }
{
    let mut members = members_of(alloc, value)?;
    syntax_in(alloc, &mut members)
}

fn syntax_in(alloc: Global, members: &mut Members) -> Result<Syntax, Fault>
    ensures { Reads syntax_view result (syntax_form (object_held members.old)) }
{
    match word_at(alloc, members, "root")? {
        "source_file" => source_file_of(alloc, members),
        "macro_items" => macro_items_of(alloc, members),
        "macro_stmts" => macro_stmts_of(alloc, members),
        "error" => Ok(Syntax::Error),
        _ => Err(Fault::at(alloc, "root")),
    }
}

/// A block, whose members are those of an object that may hold others too. They are taken out and leave nulls.
///
/// `WrongForm` comes only where the object is not of its form (`Syntaxes.block`), and tells where.
#[tactic(auto, using(crate::proofs::MemberObjects::field_without))]
pub fn block_in(alloc: Global, members: &mut Members) -> Result<BlockExpr, Fault>
    ensures reads { Reads block_view result (block_form (object_held members.old)) }
    ensures left { OnOk result (object_held members.new
        ≡ without_key (codes "tail") (without_key (codes "stmts")
        (without_key (codes "attrs") (object_held members.old)))) }
{
    let attrs = attrs_at(alloc, members)?;
    let stmts = stmts_at(alloc, members)?;
    let tail = tail_at(alloc, members)?;
    Ok(BlockExpr { attrs, stmts, tail })
}
