//! The syntax of a file as JSON.
ghost use Rattle.std.specs.Prelude.{◌≡◌, IfOk, map};
ghost use Rattle.serde_json.specs.View.{view};
ghost use Rattle.hir_input.specs.Attr.{meta_view};
ghost use Rattle.hir_input.specs.Syntax.{items_view as items_seen, stmt_view, syntax_view, tail_view};
ghost use Rattle.hir_input_json.specs.Writing.Laws.{IsReadAs, kept_bodies};
ghost use Rattle.hir_input_json.specs.Writing.Parts.{each_data};
ghost use Rattle.hir_input_json.specs.Writing.Syntaxes as objects;
ghost use Rattle.hir_input_json.specs.Writing.Syntaxes.{macro_items_data, macro_stmts_data, source_data, stmt_data};
ghost use Rattle.hir_input_json.specs.Writing.Syntaxes.{syntax_data, tail_data};
ghost use Rattle.hir_input_json.specs.Writing.Writes.{Writes, WritesEach};

use crate::each_value;
use crate::write::fault::{WriteFault, Written};
use crate::write::item::{item_value, item_values};
use crate::write::kinds::call_value;
use crate::write::node::attrs_value;
use crate::write::object::{of_text, one, with};
use crate::write::values::object;
use hir_input::Meta;
use hir_input::ast::{Item, Stmt, Syntax, Tail};
use serde_json::Value;
use std::alloc::{AllocError, Global};

fn stmt_value(alloc: Global, bodies: bool, stmt: &Stmt) -> Written
    ensures { Writes view result (stmt_data bodies (stmt_view stmt.now)) }
{
    match stmt {
        Stmt::Item(item) => {
            let item = item_value(alloc, bodies, item)?;
            Ok(one(alloc, "item", item)?)
        }
        Stmt::MacroCall(call) => {
            let call = call_value(alloc, bodies, call)?;
            Ok(one(alloc, "call", call)?)
        }
        Stmt::Other => Ok(Value::try_from_str(alloc, "other")?),
    }
}

fn stmt_values(alloc: Global, bodies: bool, stmts: &[Stmt]) -> Result<Vec<Value>, WriteFault>
    ensures { WritesEach result (each_data (stmt_data bodies) (map stmt_view stmts.now)) }
{
    each_value!(alloc, stmt in stmts, stmt_value(alloc, bodies, stmt))
}

// Null where there is nothing.
fn tail_value(alloc: Global, bodies: bool, tail: &Tail) -> Written
    ensures { Writes view result (tail_data bodies (tail_view tail.now)) }
{
    match tail {
        Tail::Nothing => Ok(Value::Null),
        Tail::MacroCall(call) => {
            let call = call_value(alloc, bodies, call)?;
            Ok(one(alloc, "call", call)?)
        }
        Tail::Other => Ok(Value::try_from_str(alloc, "other")?),
    }
}

fn source_value(alloc: Global, bodies: bool, attrs: &Vec<Meta>, items: &[Item]) -> Written
    ensures { Writes view result
        (source_data bodies (map meta_view attrs.now.items) (items_seen items.now)) }
{
    let attrs = attrs_value(alloc, attrs)?;
    let items = item_values(alloc, bodies, items)?;
    let members = of_text(alloc, "root", "source_file")?;
    Ok(object!(alloc, members, "attrs": attrs, "items": Value::from(items)))
}

fn macro_items_value(alloc: Global, bodies: bool, items: &[Item]) -> Written
    ensures { Writes view result (macro_items_data bodies (items_seen items.now)) }
{
    let items = item_values(alloc, bodies, items)?;
    let members = of_text(alloc, "root", "macro_items")?;
    Ok(object!(alloc, members, "items": Value::from(items)))
}

fn macro_stmts_value(alloc: Global, bodies: bool, stmts: &[Stmt], tail: &Tail) -> Written
    ensures { Writes view result
        (macro_stmts_data bodies (map stmt_view stmts.now) (tail_view tail.now)) }
{
    let stmts = stmt_values(alloc, bodies, stmts)?;
    let tail = tail_value(alloc, bodies, tail)?;
    let members = of_text(alloc, "root", "macro_stmts")?;
    Ok(object!(alloc, members, "stmts": Value::from(stmts), "tail": tail))
}

fn error_value(alloc: Global) -> Result<Value, AllocError>
    ensures { IfOk result (λ v. view v ≡ objects.error_object) }
{
    Ok(Value::Object(of_text(alloc, "root", "error")?))
}

fn value_of(alloc: Global, syntax: &Syntax, bodies: bool) -> Written
    ensures { Writes view result (syntax_data bodies (syntax_view syntax.now)) }
{
    match syntax {
        Syntax::SourceFile { attrs, items } => source_value(alloc, bodies, attrs, items),
        Syntax::MacroItems { items } => macro_items_value(alloc, bodies, items),
        Syntax::MacroStmts { stmts, tail } => macro_stmts_value(alloc, bodies, stmts, tail),
        Syntax::Error => Ok(error_value(alloc)?),
    }
}

/// The syntax of a file, or of a macro's result, as JSON, with its body texts or with a null for each.
///
/// Reading the JSON gives the syntax again: with its bodies, or with each of them empty. No number of it is a float.
///
/// # Errors
///
/// `NoForm` only where the syntax has no form: a rename in it is to a name `_`, or the span of a literal is in another
/// context than its meta. Else `OutOfMemory`.
pub fn syntax_value(alloc: Global, syntax: &Syntax, bodies: bool) -> Result<Value, WriteFault>
    ensures written { Writes view result (syntax_data bodies (syntax_view syntax.now)) }
    ensures reads { IfOk result (λ v. IsReadAs (kept_bodies bodies (syntax_view syntax.now)) (view v)) }
{
    let value = value_of(alloc, syntax, bodies)?;
    Ok(value)
}
