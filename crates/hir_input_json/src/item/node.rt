//! What items have in common, read from its keys.
ghost use Rattle.std.specs.Prelude.{◌≡◌, OnOk, codes};
ghost use Rattle.hir_input_json.specs.Held.{object_held, without_key};
ghost use Rattle.hir_input_json.specs.Items.{node_form as node_form, named_form as named_form};
ghost use Rattle.hir_input_json.specs.Reads.{Reads};
ghost use Rattle.hir_input_json.specs.Inner.{node_view, named_parts_view};

use crate::fault::Fault;
use crate::member::{Members, text_at, u16_at, u32_at};
use crate::meta::attrs_at;
use crate::name::name_at;
use crate::visibility::visibility_at;
use hir_input::ast::Visibility;
use hir_input::{Meta, Name};
use std::alloc::Global;

// What every item has.
#[derive(Drop)]
pub(crate) struct Node {
    pub(crate) hash: u16,
    pub(crate) number: u32,
    pub(crate) attrs: Vec<Meta>,
    pub(crate) body: String,
}

// What an item has that may have a name and a visibility.
#[derive(Drop)]
pub(crate) struct Named {
    pub(crate) node: Node,
    pub(crate) name: Option<Name>,
    pub(crate) visibility: Option<Visibility>,
}

// The item of this type with what every item has, and with these fields.
macro_rules! with_node {
    ($kind:ident, $node:expr $(, $field:ident)*) => {{
        let node = $node;
        $kind {
            hash: node.hash,
            number: node.number,
            attrs: node.attrs,
            body: node.body
            $(, $field)*
        }
    }};
}

// The same with a name and a visibility.
macro_rules! with_name {
    ($kind:ident, $named:expr $(, $field:ident)*) => {{
        let named = $named;
        $kind {
            hash: named.node.hash,
            number: named.node.number,
            attrs: named.node.attrs,
            body: named.node.body,
            name: named.name,
            visibility: named.visibility
            $(, $field)*
        }
    }};
}

// By the word for its kind: an item that has what every named item has and no more, or what the other arms give.
macro_rules! named_by {
    ($alloc:expr, $members:expr, $item:ident { $($word:literal: $kind:ident),* }, $($other:tt)*) => {
        match word_at($alloc, $members, "is")? {
            $($word => Ok($item::$kind(with_name!(NamedNode, named_at($alloc, $members)?))),)*
            $($other)*
        }
    };
}

pub(crate) use named_by;
pub(crate) use with_name;
pub(crate) use with_node;

#[tactic(auto, using(crate::proofs::MemberObjects::field_without))]
pub(crate) fn node_at(alloc: Global, members: &mut Members) -> Result<Node, Fault>
    ensures reads { Reads node_view result (node_form (object_held members.old)) }
    ensures left { OnOk result
        (object_held members.new ≡ without_key (codes "body") (without_key (codes "attrs") (object_held members.old))) }
{
    Ok(Node {
        hash: u16_at(alloc, members, "hash")?,
        number: u32_at(alloc, members, "number")?,
        attrs: attrs_at(alloc, members)?,
        body: text_at(alloc, members, "body")?,
    })
}

#[tactic(auto, using(crate::proofs::MemberObjects::field_without))]
pub(crate) fn named_at(alloc: Global, members: &mut Members) -> Result<Named, Fault>
    ensures reads { Reads named_parts_view result (named_form (object_held members.old)) }
    ensures left { OnOk result
        (object_held members.new ≡ without_key (codes "vis")
        (without_key (codes "name")
        (without_key (codes "body") (without_key (codes "attrs") (object_held members.old))))) }
{
    Ok(Named {
        node: node_at(alloc, members)?,
        name: name_at(alloc, members, "name")?,
        visibility: visibility_at(alloc, members)?,
    })
}
