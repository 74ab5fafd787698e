//! Macro calls and macros by example, read from their forms.
ghost use Rattle.std.specs.Prelude.{◌≡◌, option_map};
ghost use Rattle.hir_input.specs.Syntax.{call_view, item_view};
ghost use Rattle.hir_input_json.specs.Held.{object_held};
ghost use Rattle.hir_input_json.specs.Items.{expand_to_at as expand_to_form, call_form, macro_rules_form};
ghost use Rattle.hir_input_json.specs.Reads.{Reads};

use crate::context::context_at;
use crate::fault::Fault;
use crate::item::node::{node_at, with_node};
use crate::member::{Members, field};
use crate::name::name_at;
use crate::path::path_at;
use hir_input::ExpandTo;
use hir_input::ast::{Item, MacroCall, MacroRules};
use std::alloc::Global;

// Items where it is absent.
fn expand_to_at(alloc: Global, members: &Members) -> Result<ExpandTo, Fault>
    ensures { Reads (λ expand_to. expand_to) result (expand_to_form (object_held members.now)) }
{
    let Some(found) = field(members, "expand_to") else {
        return Ok(ExpandTo::Items);
    };
    let word = found.as_str().ok_or_else(|| Fault::at(alloc, "expand_to"))?;
    match word {
        "Statements" => Ok(ExpandTo::Statements),
        "Items" => Ok(ExpandTo::Items),
        "Pattern" => Ok(ExpandTo::Pattern),
        "Type" => Ok(ExpandTo::Ty),
        "Expr" => Ok(ExpandTo::Expr),
        _ => Err(Fault::at(alloc, "expand_to")),
    }
}

#[tactic(auto, using(crate::proofs::MemberObjects::field_without))]
pub(crate) fn macro_call_of(alloc: Global, members: &mut Members) -> Result<MacroCall, Fault>
    ensures { Reads call_view result (call_form (object_held members.old)) }
{
    let node = node_at(alloc, members)?;
    let path = path_at(alloc, members)?;
    let expand_to = expand_to_at(alloc, members)?;
    let ctxt = context_at(alloc, members)?;
    Ok(with_node!(MacroCall, node, path, expand_to, ctxt))
}

#[tactic(auto, using(crate::proofs::MemberObjects::field_without, hir_input::proofs::SyntaxViews::item_views))]
pub(crate) fn macro_rules_of(alloc: Global, members: &mut Members) -> Result<Item, Fault>
    ensures { Reads item_view result (macro_rules_form (object_held members.old)) }
{
    let node = node_at(alloc, members)?;
    let name = name_at(alloc, members, "name")?;
    Ok(Item::MacroRules(with_node!(MacroRules, node, name)))
}
