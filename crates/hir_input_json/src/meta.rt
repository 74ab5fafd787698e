//! Metas, read from their forms.
ghost use Rattle.std.specs.Prelude.{◌≡◌, OnOk, codes, map};
ghost use Rattle.serde_json.specs.View.{view, items_view};
ghost use Rattle.hir_input.specs.Attr.{meta_view};
ghost use Rattle.hir_input_json.specs.Forms.{each};
ghost use Rattle.hir_input_json.specs.Held.{IsLeftWithout, object_held};
ghost use Rattle.hir_input_json.specs.Metas.{meta_form as meta_form, meta_form_with, key_value_form, tokens_form};
ghost use Rattle.hir_input_json.specs.Metas.{cfg_attr_form, unsafe_form, attrs_form as attrs_form};
ghost use Rattle.hir_input_json.specs.Reads.{Reads};

use crate::cfg::condition_at;
use crate::context::context_at;
use crate::each_of;
use crate::fault::{Fault, ReadIn};
use crate::literal::{literal_at, required_text_at};
use crate::member::{Members, list_at, members_of, take_member, word_at};
use crate::path::path_at;
use hir_input::{Meta, TokenTree};
use serde_json::Value;
use std::alloc::Global;

#[tactic(auto, using(crate::proofs::MemberObjects::field_without, hir_input::proofs::MetaLemmas::meta_views))]
fn key_value_of(alloc: Global, members: &mut Members) -> Result<Meta, Fault>
    ensures { Reads meta_view result (key_value_form (object_held members.old)) }
{
    let path = path_at(alloc, members)?;
    let ctxt = context_at(alloc, members)?;
    let value = literal_at(alloc, members, ctxt)?;
    Ok(Meta::KeyValue { path, value, ctxt })
}

#[tactic(auto, using(crate::proofs::MemberObjects::field_without, hir_input::proofs::MetaLemmas::meta_views))]
fn tokens_of(alloc: Global, members: &mut Members) -> Result<Meta, Fault>
    ensures { Reads meta_view result (tokens_form (object_held members.old)) }
{
    let path = path_at(alloc, members)?;
    let ctxt = context_at(alloc, members)?;
    let rendered = required_text_at(alloc, members, "tokens")?;
    Ok(Meta::TokenTree {
        path,
        tokens: TokenTree { rendered },
        ctxt,
    })
}

#[cycle(metas)]
#[tactic(auto, using(crate::proofs::Attrs::meta_reads_itself))]
fn meta_of(alloc: Global, value: Value) -> Result<Meta, Fault>
    ensures { Reads meta_view result (meta_form (view value)) }
{
    let mut members = members_of(alloc, value)?;
    meta_in(alloc, &mut members)
}

#[cycle(metas)]
#[tactic(auto, using(crate::proofs::MemberObjects::field_without, hir_input::proofs::MetaLemmas::meta_views))]
fn meta_in(alloc: Global, members: &mut Members) -> Result<Meta, Fault>
    ensures { Reads meta_view result (meta_form_with meta_form (object_held members.old)) }
{
    match word_at(alloc, members, "meta")? {
        "path" => Ok(Meta::Path {
            path: path_at(alloc, members)?,
            ctxt: context_at(alloc, members)?,
        }),
        "key_value" => key_value_of(alloc, members),
        "tokens" => tokens_of(alloc, members),
        "cfg" => Ok(Meta::Cfg(condition_at(alloc, members)?)),
        "cfg_attr" => cfg_attr_of(alloc, members),
        "unsafe" => unsafe_of(alloc, members),
        _ => Err(Fault::at(alloc, "meta")),
    }
}

#[cycle(metas)]
#[tactic(auto, using(crate::proofs::NestedForms::listed_depths, hir_input::proofs::MetaLemmas::meta_views))]
fn cfg_attr_of(alloc: Global, members: &mut Members) -> Result<Meta, Fault>
    ensures { Reads meta_view result (cfg_attr_form meta_form (object_held members.old)) }
{
    Ok(Meta::CfgAttr {
        condition: condition_at(alloc, members)?,
        metas: metas_of(alloc, list_at(alloc, members, "metas")?).in_member(alloc, "metas")?,
    })
}

#[cycle(metas)]
#[tactic(auto, using(hir_input::proofs::MetaLemmas::meta_views))]
fn unsafe_of(alloc: Global, members: &mut Members) -> Result<Meta, Fault>
    ensures { Reads meta_view result (unsafe_form meta_form (object_held members.old)) }
{
    let Some(inner) = take_member(members, "inner") else {
        return Err(Fault::at(alloc, "inner"));
    };
    let inner = meta_of(alloc, inner).in_member(alloc, "inner")?;
    Ok(Meta::Unsafe(Box::new(alloc, inner)?))
}

#[cycle(metas)]
fn metas_of(alloc: Global, items: Vec<Value>) -> Result<Vec<Meta>, Fault>
    ensures { Reads (λ v. map meta_view v.items) result (each meta_form (items_view items.items)) }
{
    each_of!(alloc, items, meta_of)
}

/// Takes the metas of an owner out, none where they are absent.
///
/// `WrongForm` comes only where they are not of their form (`Metas.attrs_at`), and tells where.
pub fn attrs_at(alloc: Global, members: &mut Members) -> Result<Vec<Meta>, Fault>
    ensures reads { Reads (λ v. map meta_view v.items) result (attrs_form (object_held members.old)) }
    ensures left { OnOk result (IsLeftWithout (codes "attrs") members.old members.new) }
{
    let items = list_at(alloc, members, "attrs")?;
    metas_of(alloc, items).in_member(alloc, "attrs")
}
