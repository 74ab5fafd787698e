//! The cfgs of metas.
ghost use Rattle.std.specs.Prelude.{◌≡◌, ◌++◌, map, flat_map, IfOk, OnOk};
ghost use Rattle.hir_input.specs.Attr.{meta_view, metas_from};
ghost use Rattle.hir_input.specs.Cfg.{cfg_view, truth};
ghost use Rattle.item_tree_attrs.specs.Collected.{is_false};
ghost use Rattle.source_listing.specs.MetaCfgs as spec;

use hir_input::{CfgExpr, CfgOptions, Meta};
use std::alloc::{AllocError, Global};

/// A cfg that counts where a condition holds.
fn cfg_where(alloc: Global, condition: &CfgExpr, cfg: CfgExpr) -> Result<CfgExpr, AllocError>
    ensures { IfOk result (λ c. cfg_view c ≡ spec.cfg_where (cfg_view condition.now) (cfg_view cfg)) }
{
    let mut members = Vec::new(alloc);
    members.push(CfgExpr::Not(Box::new(alloc, condition.clone()?)?))?;
    members.push(cfg)?;
    Ok(CfgExpr::Any(members))
}

/// Adds cfgs that count where a condition holds.
fn push_where(
    alloc: Global,
    condition: &CfgExpr,
    cfgs: Vec<CfgExpr>,
    out: &mut Vec<CfgExpr>,
) -> Result<(), AllocError>
    ensures { let more = map (spec.cfg_where (cfg_view condition.now)) (map cfg_view cfgs.items) in
        OnOk result (map cfg_view out.new.items ≡ map cfg_view out.old.items ++ more) }
{
    for cfg in cfgs {
        out.push(cfg_where(alloc, condition, cfg)?)?;
    }
    Ok(())
}

/// Adds the cfgs of a meta.
#[cycle(metas)]
#[tactic(auto, using(hir_input::proofs::MetaLemmas::meta_views, crate::proofs::MetaCfgLists::metas_are))]
fn push_of_meta(alloc: Global, meta: &Meta, out: &mut Vec<CfgExpr>) -> Result<(), AllocError>
    ensures { let more = spec.meta_cfgs (meta_view meta.now) in
        OnOk result (map cfg_view out.new.items ≡ map cfg_view out.old.items ++ more) }
{
    match meta {
        Meta::Cfg(cfg) => {
            out.push(cfg.clone()?)?;
            Ok(())
        }
        Meta::CfgAttr { condition, metas } => {
            let mut inner = Vec::new(alloc);
            push_of_metas(alloc, metas, &mut inner)?;
            push_where(alloc, condition, inner, out)
        }
        Meta::Unsafe(inner) => push_of_meta(alloc, inner, out),
        Meta::Path { .. } | Meta::KeyValue { .. } | Meta::TokenTree { .. } => Ok(()),
    }
}

/// Adds the cfgs of metas.
#[cycle(metas)]
fn push_of_metas(alloc: Global, metas: &[Meta], out: &mut Vec<CfgExpr>) -> Result<(), AllocError>
    ensures { let more = flat_map spec.meta_cfgs (map meta_view metas.now) in
        OnOk result (map cfg_view out.new.items ≡ map cfg_view out.old.items ++ more) }
{
    for meta in metas {
        push_of_meta(alloc, meta, out)?;
    }
    Ok(())
}

/// Copies of cfgs.
fn copies(alloc: Global, cfgs: &[CfgExpr]) -> Result<Vec<CfgExpr>, AllocError>
    ensures { IfOk result (λ v. map cfg_view v.items ≡ map cfg_view cfgs.now) }
{
    let mut copies = Vec::new(alloc);
    for cfg in cfgs {
        copies.push(cfg.clone()?)?;
    }
    Ok(copies)
}

/// Cfgs, and behind them those of metas.
///
/// # Errors
///
/// Only if memory runs out.
pub fn cfgs_inside(
    alloc: Global,
    around: &[CfgExpr],
    metas: &[Meta],
) -> Result<Vec<CfgExpr>, AllocError>
    ensures { let own = flat_map spec.meta_cfgs (map meta_view metas.now) in
        IfOk result (λ v. map cfg_view v.items ≡ map cfg_view around.now ++ own) }
{
    let mut cfgs = copies(alloc, around)?;
    push_of_metas(alloc, metas, &mut cfgs)?;
    Ok(cfgs)
}

fn is_false_under(options: &CfgOptions, cfg: &CfgExpr) -> bool
    ensures { result ≡ is_false (truth options.now (cfg_view cfg.now)) }
{
    options.check(cfg) == Some(false)
}

/// Whether none of these cfgs is false.
pub fn holds_no_false(options: &CfgOptions, cfgs: &[CfgExpr]) -> bool
    ensures { result ≡ spec.holds_no_false options.now (map cfg_view cfgs.now) }
{
    for cfg in cfgs {
        if is_false_under(options, cfg) {
            return false;
        }
    }
    true
}

/// Whether none of the cfgs of metas is false.
///
/// # Errors
///
/// Only if memory runs out.
pub fn are_enabled(alloc: Global, metas: &[Meta], options: &CfgOptions) -> Result<bool, AllocError>
    ensures { IfOk result (λ is. is
        ≡ spec.holds_no_false options.now (flat_map spec.meta_cfgs (map meta_view metas.now))) }
{
    let cfgs = cfgs_inside(alloc, &[], metas)?;
    Ok(holds_no_false(options, &cfgs))
}
