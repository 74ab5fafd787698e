//! Attributes whose paths have no meaning, or that stand too deep.

ghost use Rattle.std.specs.Prelude.{OnOk, map};
ghost use Rattle.hir_input.specs.Attr.{meta_view, metas_from};
ghost use Rattle.source_problems.specs.Inner.{AddsHere};
ghost use Rattle.source_problems.specs.Metas as spec;

use crate::conditions::{push_condition, push_if_deep};
use crate::problem::{Found, SourceProblemKind};
use hir_input::Meta;
use hir_input::ast::PathNode;
use std::alloc::AllocError;

/// How deep metas and conditions may stand in one another.
const MOST_DEPTH: usize = 128;

/// Adds a problem where the path of a meta is missing or has no meaning.
fn push_meta_path(path: &Option<PathNode>, found: &mut Found) -> Result<(), AllocError>
    ensures { OnOk result (AddsHere found.old found.new
        (spec.meta_path_problems found.old.at path.now)) }
{
    match path {
        Some(PathNode::Readable(_)) => Ok(()),
        Some(PathNode::Unreadable) => found.push(SourceProblemKind::AttributePath),
        None => found.push(SourceProblemKind::AttributePath),
    }
}

/// The same of a meta without input. The last in one another may have been too deep to be read.
fn push_bare_meta(path: &Option<PathNode>, left: usize, found: &mut Found) -> Result<(), AllocError>
    ensures { OnOk result (AddsHere found.old found.new
        (spec.bare_meta_problems found.old.at left path.now)) }
{
    if left == 0 {
        return found.push(SourceProblemKind::DeepAttribute);
    }
    push_meta_path(path, found)
}

/// Adds what is wrong with a meta, in which so many more may stand in one another.
#[cycle(metas)]
#[tactic(auto, using(hir_input::proofs::MetaLemmas::meta_views, std::proofs::Common::append_assoc))]
fn push_meta(meta: &Meta, left: usize, found: &mut Found) -> Result<(), AllocError>
    ensures { OnOk result (AddsHere found.old found.new
        (spec.meta_problems found.old.at left (meta_view meta.now))) }
{
    let less = left.saturating_sub(1);
    match meta {
        Meta::Path { path, .. } => push_bare_meta(path, left, found),
        Meta::KeyValue { path, .. } => push_meta_path(path, found),
        Meta::TokenTree { path, .. } => push_meta_path(path, found),
        Meta::Cfg(condition) => push_condition(condition, less, found),
        Meta::CfgAttr { condition, metas } => {
            push_condition(condition, less, found)?;
            push_metas(metas, less, found)
        }
        Meta::Unsafe(inner) => push_meta(inner, less, found),
    }
}

#[cycle(metas)]
fn push_metas(metas: &[Meta], left: usize, found: &mut Found) -> Result<(), AllocError>
    ensures { OnOk result (AddsHere found.old found.new
        (spec.metas_problems found.old.at left (metas_from (map meta_view metas.now)))) }
{
    for meta in metas {
        push_meta(meta, left, found)?;
    }
    Ok(())
}

/// Adds what is wrong with attributes.
pub(crate) fn push_attributes(attrs: &[Meta], found: &mut Found) -> Result<(), AllocError>
    ensures { OnOk result (AddsHere found.old found.new
        (spec.attribute_problems found.old.at (map meta_view attrs.now))) }
{
    push_metas(attrs, MOST_DEPTH, found)
}
