//! What items have in common, as JSON.
ghost use Rattle.std.specs.Prelude.{◌≡◌, IfOk, map, string_bytes};
ghost use Rattle.serde_json.specs.View.{members_view, view};
ghost use Rattle.hir_input.specs.Attr.{meta_view};
ghost use Rattle.hir_input.specs.Syntax.{node_from};
ghost use Rattle.hir_input_json.specs.Writing.Items.{attrs_data, body_data, named_members as members_of_named};
ghost use Rattle.hir_input_json.specs.Writing.Items.{node_data, node_members as members_of_node, numbered_members};
ghost use Rattle.hir_input_json.specs.Writing.Items.{with_name};
ghost use Rattle.hir_input_json.specs.Writing.Seen.{named_seen, node_seen};
ghost use Rattle.hir_input_json.specs.Writing.Writes.{Writes};

use crate::member::Members;
use crate::write::fault::{WriteFault, Written};
use crate::write::meta::meta_values;
use crate::write::name::name_or_null;
use crate::write::object::{with, with_text};
use crate::write::visibility::visibility_or_null;
use hir_input::ast::Visibility;
use hir_input::{Meta, Name};
use serde_json::{Map, Value};
use std::alloc::{AllocError, Global};

// The parts of every item.
#[derive(Drop)]
pub(crate) struct Node {
    pub(crate) hash: u16,
    pub(crate) number: u32,
    pub(crate) attrs: Value,
    pub(crate) body: Value,
}

// The parts of an item that may have a name and a visibility.
#[derive(Drop)]
pub(crate) struct Named {
    pub(crate) node: Node,
    pub(crate) name: Value,
    pub(crate) vis: Value,
}

// The parts of an item, its body left out where that is asked.
macro_rules! node {
    ($alloc:expr, $bodies:expr, $item:expr) => {
        node_of($alloc, $bodies, $item.hash, $item.number, &$item.attrs, &$item.body)
    };
}

pub(crate) use node;

pub(crate) fn attrs_value(alloc: Global, attrs: &Vec<Meta>) -> Written
    ensures { Writes view result (attrs_data (map meta_view attrs.now.items)) }
{
    Ok(Value::from(meta_values(alloc, attrs)?))
}

// Null where bodies are left out.
fn body_value(alloc: Global, bodies: bool, body: &String) -> Result<Value, AllocError>
    ensures { IfOk result (λ v. view v ≡ body_data bodies (string_bytes body.now)) }
{
    if bodies {
        Value::try_from_str(alloc, body.as_str())
    } else {
        Ok(Value::Null)
    }
}

pub(crate) fn node_of(
    alloc: Global,
    bodies: bool,
    hash: u16,
    number: u32,
    attrs: &Vec<Meta>,
    body: &String,
) -> Result<Node, WriteFault>
    ensures { Writes node_seen result
        (node_data bodies (node_from hash number attrs.now.items body.now)) }
{
    let attrs = attrs_value(alloc, attrs)?;
    let body = body_value(alloc, bodies, body)?;
    Ok(Node {
        hash,
        number,
        attrs,
        body,
    })
}

pub(crate) fn named_of(
    alloc: Global,
    node: Node,
    name: &Option<Name>,
    visibility: &Option<Visibility>,
) -> Result<Named, WriteFault>
    ensures { Writes named_seen result (with_name (node_seen node) name.now visibility.now) }
{
    let name = name_or_null(alloc, name)?;
    let vis = visibility_or_null(alloc, visibility)?;
    Ok(Named { node, name, vis })
}

// The members that are no values of others: the hash, the word of the kind and the number.
fn number_members(alloc: Global, word: &str, hash: u16, number: u32) -> Result<Members, AllocError>
    ensures { IfOk result (λ ms. members_view ms.entries ≡ numbered_members word.now hash number) }
{
    let members = with(alloc, Map::new(alloc), "hash", Value::from(hash))?;
    let members = with_text(alloc, members, "is", word)?;
    with(alloc, members, "number", Value::from(number))
}

pub(crate) fn node_members(alloc: Global, word: &str, node: Node) -> Result<Members, AllocError>
    ensures { IfOk result (λ ms. members_view ms.entries
        ≡ members_of_node word.now (node_seen node)) }
{
    let members = number_members(alloc, word, node.hash, node.number)?;
    let members = with(alloc, members, "attrs", node.attrs)?;
    with(alloc, members, "body", node.body)
}

pub(crate) fn named_members(alloc: Global, word: &str, item: Named) -> Result<Members, AllocError>
    ensures { IfOk result (λ ms. members_view ms.entries
        ≡ members_of_named word.now (named_seen item)) }
{
    let members = node_members(alloc, word, item.node)?;
    let members = with(alloc, members, "name", item.name)?;
    with(alloc, members, "vis", item.vis)
}
