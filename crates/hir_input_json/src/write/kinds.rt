//! Items that have parts of their own, and no items in them, as JSON.
ghost use Rattle.std.specs.Prelude.{map};
ghost use Rattle.serde_json.specs.View.{view};
ghost use Rattle.hir_input.specs.Syntax.{call_view, extern_crate_view, fields_view, impl_view, macro_rules_view};
ghost use Rattle.hir_input.specs.Syntax.{node_from, struct_view, use_view};
ghost use Rattle.hir_input_json.specs.Writing.Items.{asm_data, call_data, extern_crate_data, fields_data, impl_data};
ghost use Rattle.hir_input_json.specs.Writing.Items.{macro_rules_data, struct_data, use_data};
ghost use Rattle.hir_input_json.specs.Writing.Parts.{each_data, maybe_data};
ghost use Rattle.hir_input_json.specs.Writing.Paths.{visibility_data};
ghost use Rattle.hir_input_json.specs.Writing.Writes.{Writes, WritesEach};

use crate::each_value;
use crate::write::context::context_value;
use crate::write::fault::{WriteFault, Written};
use crate::write::name::name_or_null;
use crate::write::node::{named_members, named_of, node, node_members, node_of};
use crate::write::object::with;
use crate::write::path::path_or_null;
use crate::write::use_tree::{rename_or_null, use_tree_or_null};
use crate::write::values::object;
use crate::write::visibility::visibility_or_null;
use hir_input::ast::{
    AsmExpr, ExternCrate, Impl, MacroCall, MacroRules, Struct, StructKind, TupleField, Use,
};
use serde_json::Value;
use std::alloc::Global;

// The visibility of each field.
fn field_values(alloc: Global, fields: &[TupleField]) -> Result<Vec<Value>, WriteFault>
    ensures { WritesEach result
        (each_data (maybe_data visibility_data) (map (λ f. f.visibility) fields.now)) }
{
    each_value!(alloc, field in fields, visibility_or_null(alloc, &field.visibility))
}

fn fields_value(alloc: Global, kind: &StructKind) -> Written
    ensures { Writes view result (fields_data (fields_view kind.now)) }
{
    match kind {
        StructKind::Record => Ok(Value::try_from_str(alloc, "record")?),
        StructKind::Tuple(fields) => Ok(Value::from(field_values(alloc, fields)?)),
        StructKind::Unit => Ok(Value::try_from_str(alloc, "unit")?),
    }
}

pub(crate) fn struct_value(alloc: Global, bodies: bool, item: &Struct) -> Written
    ensures { Writes view result
        (struct_data bodies (struct_view item.now) (fields_view item.now.kind)) }
{
    let node = node!(alloc, bodies, item)?;
    let named = named_of(alloc, node, &item.name, &item.visibility)?;
    let fields = fields_value(alloc, &item.kind)?;
    Ok(object!(alloc, named_members(alloc, "struct", named)?, "fields": fields))
}

pub(crate) fn use_value(alloc: Global, bodies: bool, item: &Use) -> Written
    ensures { Writes view result (use_data bodies (use_view item.now)) }
{
    let node = node!(alloc, bodies, item)?;
    let vis = visibility_or_null(alloc, &item.visibility)?;
    let tree = use_tree_or_null(alloc, &item.use_tree)?;
    Ok(object!(alloc, node_members(alloc, "use", node)?, "tree": tree, "vis": vis))
}

pub(crate) fn extern_crate_value(alloc: Global, bodies: bool, item: &ExternCrate) -> Written
    ensures { Writes view result
        (extern_crate_data bodies (extern_crate_view item.now) item.now.rename) }
{
    let node = node!(alloc, bodies, item)?;
    let named = named_of(alloc, node, &item.name, &item.visibility)?;
    let rename = rename_or_null(alloc, &item.rename)?;
    Ok(object!(alloc, named_members(alloc, "extern_crate", named)?, "rename": rename))
}

pub(crate) fn impl_value(alloc: Global, bodies: bool, item: &Impl) -> Written
    ensures { Writes view result (impl_data bodies (impl_view item.now) item.now.is_trait_impl) }
{
    let node = node!(alloc, bodies, item)?;
    let is_trait_impl = Value::from(item.is_trait_impl);
    Ok(object!(alloc, node_members(alloc, "impl", node)?, "trait": is_trait_impl))
}

pub(crate) fn call_value(alloc: Global, bodies: bool, item: &MacroCall) -> Written
    ensures { Writes view result (call_data bodies (call_view item.now)) }
{
    let node = node!(alloc, bodies, item)?;
    let path = path_or_null(alloc, &item.path)?;
    let context = context_value(alloc, item.ctxt)?;
    let expand_to = Value::from(item.expand_to.to_string(alloc)?);
    let members = node_members(alloc, "macro_call", node)?;
    Ok(object!(alloc, members, "ctxt": context, "expand_to": expand_to, "path": path))
}

pub(crate) fn macro_rules_value(alloc: Global, bodies: bool, item: &MacroRules) -> Written
    ensures { Writes view result
        (macro_rules_data bodies (macro_rules_view item.now) item.now.name) }
{
    let node = node!(alloc, bodies, item)?;
    let name = name_or_null(alloc, &item.name)?;
    Ok(object!(alloc, node_members(alloc, "macro_rules", node)?, "name": name))
}

pub(crate) fn asm_value(alloc: Global, bodies: bool, item: &AsmExpr) -> Written
    ensures { let n = item.now in
        Writes view result (asm_data bodies (node_from n.hash n.number n.attrs.items n.body)) }
{
    let node = node!(alloc, bodies, item)?;
    Ok(Value::Object(node_members(alloc, "asm", node)?))
}
