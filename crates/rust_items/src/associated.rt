//! What stands in a trait or an impl.

ghost use Rattle.std.specs.Prelude.{◌≡◌, option_map};
ghost use Rattle.hir_input.specs.Syntax.{call_view, item_view, named_view};
ghost use Rattle.rust_cursor.specs.Reader.{Gives};
ghost use Rattle.rust_leaves.specs.Views.{leaf_view};
ghost use Rattle.rust_items.specs.MemberParts as spec;
ghost use Rattle.rust_items.specs.MemberViews.{member_view, told_view};

use crate::member::{Member, MemberKind};
use hir_input::ast::{Item, MacroCall, NamedNode, Visibility};
use hir_input::{Meta, Name};
use rust_cursor::Cursor;
use rust_leaves::{Leaf, Wanted, WantedMetas, pass_others, take_leaf, wanted_front};
use rust_paths::TextRange;
use std::alloc::{AllocError, Global};

/// What an item is as a member.
#[derive(Drop)]
struct Told {
    kind: MemberKind,
    identifier: Option<Name>,
    attrs: Vec<Meta>,
    visibility: Option<Visibility>,
}

fn told_as(kind: MemberKind, node: NamedNode) -> Told
    ensures { told_view result ≡ spec.told_as kind (named_view node) }
{
    Told {
        kind,
        identifier: node.name,
        attrs: node.attrs,
        visibility: node.visibility,
    }
}

fn told_call(call: MacroCall) -> Told
    ensures { told_view result ≡ spec.told_call (call_view call) }
{
    Told {
        kind: MemberKind::MacroCall,
        identifier: None,
        attrs: call.attrs,
        visibility: None,
    }
}

#[tactic(auto, using(hir_input::proofs::SyntaxViews::item_views))]
fn told_of(item: Item) -> Option<Told>
    ensures { option_map told_view result ≡ spec.told_of (item_view item) }
{
    match item {
        Item::Fn(function) => Some(told_as(MemberKind::Function, function)),
        Item::TypeAlias(alias) => Some(told_as(MemberKind::TypeAlias, alias)),
        Item::Const(constant) => Some(told_as(MemberKind::Constant, constant)),
        Item::MacroCall(call) => Some(told_call(call)),
        other => {
            // (By a call: else each kind is dropped here, field by field.)
            drop(other);
            None
        }
    }
}

/// The braces of a function alone.
fn body_of(kind: MemberKind, body: Option<TextRange>) -> Option<TextRange>
    ensures { result ≡ spec.body_of kind body }
{
    match kind {
        MemberKind::Function => body,
        _ => None,
    }
}

fn member_kept(leaf: Leaf<'_>, start: usize, end: usize) -> Option<Member>
    ensures { option_map member_view result
        ≡ spec.member_kept start end (leaf_view leaf.entry) (spec.told_of (item_view leaf.entry.item)) }
{
    let (name, body) = (leaf.named, leaf.body);
    match told_of(leaf.item) {
        Some(told) => Some(Member {
            kind: told.kind,
            identifier: told.identifier,
            name,
            range: TextRange { start, end },
            body: body_of(told.kind, body),
            attrs: told.attrs,
            visibility: told.visibility,
        }),
        None => None,
    }
}

/// Takes a member of a trait or an impl, or tokens that begin none.
#[tactic(auto, unfolding(crate::specs::MemberParts::associated_item))]
pub(crate) fn associated_item(
    alloc: Global,
    cursor: &mut Cursor<'_>,
    metas: WantedMetas,
) -> Result<Option<Member>, AllocError>
    ensures { Gives (option_map member_view) (spec.associated_item metas cursor.old) result cursor.new }
{
    if cursor.is_at_end() {
        cursor.bump();
        return Ok(None);
    }
    let wanted = Wanted {
        bodies: false,
        metas,
    };
    let front = wanted_front(alloc, cursor, wanted)?;
    let start = front.start;
    match take_leaf(alloc, cursor, wanted, front)? {
        Some(leaf) => {
            let end = cursor.last_end();
            Ok(member_kept(leaf, start, end))
        }
        None => {
            pass_others(cursor);
            Ok(None)
        }
    }
}
