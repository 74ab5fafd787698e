//! Conditions that stand too deep.

ghost use Rattle.std.specs.Prelude.{OnOk};
ghost use Rattle.hir_input.specs.Cfg.{cfg_view};
ghost use Rattle.source_problems.specs.Inner.{AddsHere};
ghost use Rattle.source_problems.specs.Metas as spec;

use crate::problem::{Found, SourceProblemKind};
use hir_input::CfgExpr;
use std::alloc::AllocError;

/// Adds a problem where nothing more may stand in one another.
pub(crate) fn push_if_deep(left: usize, found: &mut Found) -> Result<(), AllocError>
    ensures { OnOk result (AddsHere found.old found.new
        (spec.if_deep found.old.at left)) }
{
    if left == 0 {
        return found.push(SourceProblemKind::DeepAttribute);
    }
    Ok(())
}

/// Adds what is wrong with a condition, in which so many more may stand in one another.
#[tactic(auto, using(hir_input::proofs::CfgLemmas::cfg_views))]
pub(crate) fn push_condition(
    condition: &CfgExpr,
    left: usize,
    found: &mut Found,
) -> Result<(), AllocError>
    ensures { OnOk result (AddsHere found.old found.new
        (spec.condition_problems found.old.at left (cfg_view condition.now))) }
{
    let less = left.saturating_sub(1);
    match condition {
        CfgExpr::Invalid => push_if_deep(left, found),
        CfgExpr::Atom(_) => Ok(()),
        CfgExpr::All(members) | CfgExpr::Any(members) => {
            for member in members {
                push_condition(member, less, found)?;
            }
            Ok(())
        }
        CfgExpr::Not(inner) => push_condition(inner, less, found),
    }
}
