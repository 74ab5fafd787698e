//! Metas as JSON.
ghost use Rattle.std.specs.Prelude.{map};
ghost use Rattle.serde_json.specs.View.{view};
ghost use Rattle.hir_input.specs.Attr.{meta_view, metas_from};
ghost use Rattle.hir_input_json.specs.Writing.Metas.{key_value_data, meta_data, metas_data, path_meta_data};
ghost use Rattle.hir_input_json.specs.Writing.Metas.{tokens_data};
ghost use Rattle.hir_input_json.specs.Writing.Writes.{Writes, WritesEach};

use crate::each_value;
use crate::write::cfg::cfg_value;
use crate::write::context::context_value;
use crate::write::fault::{WriteFault, Written};
use crate::write::literal::literal_or_null;
use crate::write::object::{of_text, with, with_text};
use crate::write::path::path_or_null;
use crate::write::values::object;
use hir_input::ast::PathNode;
use hir_input::{Literal, Meta, SyntaxContext, TokenTree};
use serde_json::Value;
use std::alloc::Global;

fn path_meta(alloc: Global, path: &Option<PathNode>, context: SyntaxContext) -> Written
    ensures { Writes view result (path_meta_data path.now context) }
{
    let path = path_or_null(alloc, path)?;
    let context = context_value(alloc, context)?;
    Ok(object!(alloc, of_text(alloc, "meta", "path")?, "ctxt": context, "path": path))
}

fn key_value(
    alloc: Global,
    path: &Option<PathNode>,
    value: &Option<Literal>,
    context: SyntaxContext,
) -> Written
    ensures { Writes view result (key_value_data path.now value.now context) }
{
    let path = path_or_null(alloc, path)?;
    let value = literal_or_null(alloc, context, value)?;
    let context = context_value(alloc, context)?;
    let members = of_text(alloc, "meta", "key_value")?;
    Ok(object!(alloc, members, "ctxt": context, "path": path, "value": value))
}

fn tokens(
    alloc: Global,
    path: &Option<PathNode>,
    tokens: &TokenTree,
    context: SyntaxContext,
) -> Written
    ensures { Writes view result (tokens_data path.now tokens.now context) }
{
    let path = path_or_null(alloc, path)?;
    let context = context_value(alloc, context)?;
    let members = of_text(alloc, "meta", "tokens")?;
    let members = with_text(alloc, members, "tokens", tokens.rendered.as_str())?;
    Ok(object!(alloc, members, "ctxt": context, "path": path))
}

// `NoForm` comes only where a literal in it has a span of another context than its meta.
#[cycle(metas)]
#[tactic(auto, using(hir_input::proofs::MetaLemmas::meta_views))]
pub(crate) fn meta_value(alloc: Global, meta: &Meta) -> Written
    ensures { Writes view result (meta_data (meta_view meta.now)) }
{
    match meta {
        Meta::Path { path, ctxt } => path_meta(alloc, path, *ctxt),
        Meta::KeyValue { path, value, ctxt } => key_value(alloc, path, value, *ctxt),
        Meta::TokenTree {
            path,
            tokens: text,
            ctxt,
        } => tokens(alloc, path, text, *ctxt),
        Meta::Cfg(condition) => {
            let condition = cfg_value(alloc, condition)?;
            Ok(object!(alloc, of_text(alloc, "meta", "cfg")?, "cfg": condition))
        }
        Meta::CfgAttr { condition, metas } => {
            let condition = cfg_value(alloc, condition)?;
            let metas = meta_values(alloc, metas)?;
            let members = of_text(alloc, "meta", "cfg_attr")?;
            Ok(object!(alloc, members, "cfg": condition, "metas": Value::from(metas)))
        }
        Meta::Unsafe(inner) => {
            let inner = meta_value(alloc, inner)?;
            Ok(object!(alloc, of_text(alloc, "meta", "unsafe")?, "inner": inner))
        }
    }
}

#[cycle(metas)]
#[tactic(auto, using(crate::proofs::Writing::Lists::lists))]
pub(crate) fn meta_values(alloc: Global, metas: &[Meta]) -> Result<Vec<Value>, WriteFault>
    ensures { WritesEach result (metas_data (metas_from (map meta_view metas.now))) }
{
    each_value!(alloc, meta in metas, meta_value(alloc, meta))
}
