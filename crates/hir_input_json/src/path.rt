//! Paths, read from their forms.
ghost use Rattle.std.specs.Prelude.{◌≡◌, ◌≤◌, OnOk, codes};
ghost use Rattle.std.specs.Vec.Iter.{into_iter_items};
ghost use Rattle.serde_json.specs.View.{view, items_view};
ghost use Rattle.hir_input_json.specs.Held.{IsLeftWithout, object_held};
ghost use Rattle.hir_input_json.specs.Paths.{path_node_form as path_form, path_at as path_at_form};
ghost use Rattle.hir_input_json.specs.Paths.{listed_path as listed_form, names_behind, super_path as super_form};
ghost use Rattle.hir_input_json.specs.Paths.{dollar_path as dollar_form, path_by as by_word};
ghost use Rattle.hir_input_json.specs.Reads.{Reads};

use crate::fault::{Fault, ReadIn};
use crate::member::{Members, array_of, maybe_of, take_member, text_of, u32_of};
use crate::name::names_of;
use hir_input::ast::PathNode;
use hir_input::{Crate, ModPath, PathKind};
use serde_json::Value;
use std::alloc::Global;
use std::vec::IntoIter;

// A path of a kind, with each of the items for a name, the first one with this number.
fn path_with(
    alloc: Global,
    kind: PathKind,
    items: IntoIter<Value>,
    first: usize,
) -> Result<PathNode, Fault>
    requires { first ≤ 2 }
    ensures { Reads (λ path. path) result
        (names_behind first kind (items_view (into_iter_items items))) }
{
    let names = names_of(alloc, items, first)?;
    match ModPath::from_segments(kind, names) {
        Some(path) => Ok(PathNode::Readable(path)),
        None => Err(Fault::here(alloc)),
    }
}

// How many times `super` stands there, and the names.
fn super_path(alloc: Global, mut items: IntoIter<Value>) -> Result<PathNode, Fault>
    ensures { Reads (λ path. path) result (super_form (items_view (into_iter_items items))) }
{
    let count = items.next().ok_or_else(|| Fault::here(alloc))?;
    let count = u32_of(alloc, &count).in_item(alloc, 1)?;
    path_with(alloc, PathKind::Super(count), items, 2)
}

// The crate that `$crate` stands for, and the names.
fn dollar_path(alloc: Global, mut items: IntoIter<Value>) -> Result<PathNode, Fault>
    ensures { Reads (λ path. path) result (dollar_form (items_view (into_iter_items items))) }
{
    let number = items.next().ok_or_else(|| Fault::here(alloc))?;
    let number = u32_of(alloc, &number).in_item(alloc, 1)?;
    path_with(alloc, PathKind::DollarCrate(Crate(number)), items, 2)
}

// A path by the word of its kind.
fn path_by(alloc: Global, word: &str, items: IntoIter<Value>) -> Result<PathNode, Fault>
    ensures { Reads (λ path. path) result (by_word word.now (items_view (into_iter_items items))) }
{
    match word {
        "plain" => path_with(alloc, PathKind::Plain, items, 1),
        "super" => super_path(alloc, items),
        "crate" => path_with(alloc, PathKind::Crate, items, 1),
        "abs" => path_with(alloc, PathKind::Abs, items, 1),
        "dollar" => dollar_path(alloc, items),
        _ => Err(Fault::here(alloc).in_item(alloc, 0)),
    }
}

// A path by its first item, which is the word of its kind.
fn listed_path(alloc: Global, mut items: IntoIter<Value>) -> Result<PathNode, Fault>
    ensures { Reads (λ path. path) result (listed_form (items_view (into_iter_items items))) }
{
    let word = items.next().ok_or_else(|| Fault::here(alloc))?;
    let word = text_of(alloc, word).in_item(alloc, 0)?;
    path_by(alloc, word.as_str(), items)
}

pub(crate) fn path_of(alloc: Global, value: Value) -> Result<PathNode, Fault>
    ensures { Reads (λ path. path) result (path_form (view value)) }
{
    match value.as_str() {
        Some("unreadable") => Ok(PathNode::Unreadable),
        Some(_) => Err(Fault::here(alloc)),
        None => {
            let items = array_of(alloc, value)?;
            listed_path(alloc, items.into_iter())
        }
    }
}

// Takes the path of a meta or of a use tree out.
pub(crate) fn path_at(alloc: Global, members: &mut Members) -> Result<Option<PathNode>, Fault>
    ensures reads { Reads (λ path. path) result (path_at_form (object_held members.old)) }
    ensures left { OnOk result (IsLeftWithout (codes "path") members.old members.new) }
{
    maybe_of!(alloc, members, "path", path_of)
}
