//! The ids of the items of one depth after another.

ghost use Rattle.std.specs.Prelude.{◌≡◌, ◌<◌, ◌≤◌, ◌+◌, ◌-◌, ◌^◌, ◌==◌, IfOk, OnOk, Option, Some, None, if◌then◌else◌};
ghost use Rattle.std.specs.Prelude.{length, min, suc};
ghost use Rattle.rust_ids.specs.Ids as spec;
ghost use Rattle.rust_ids.specs.Inner.Numbering.{CountsOne, IsNextDepth, IsNumbered, count_of, nearer_of};
ghost use Rattle.rust_ids.specs.Inner.Numbering.{is_numbered_before};

use crate::hash::{name_hash, name_hash_in};
use crate::ids::Node;
use hir_input::{AstIdKind, FileAstId};
use std::alloc::{AllocError, Global};
use std::collections::HashMap;

// How many items there are so far of each kind and hash.
type Counts = HashMap<(u8, u16), usize>;

// The place of a kind among all kinds.
fn kind_place(kind: AstIdKind) -> u8
    ensures { result ≡ spec.kind_place kind }
{
    kind as u8
}

// The hash of an item that stands in a module, or in none.
fn hash_of(node: &Node<'_>, outer: Option<FileAstId>) -> u16
    ensures { result ≡ spec.hash_of node.now outer }
{
    let name = node.name();
    match node.kind() {
        AstIdKind::Use | AstIdKind::ExternBlock | AstIdKind::Impl => 0,
        AstIdKind::Fn | AstIdKind::Const | AstIdKind::TypeAlias | AstIdKind::MacroCall => {
            match outer {
                Some(outer) => name_hash_in(outer, name),
                None => name_hash(name),
            }
        }
        _ => name_hash(name),
    }
}

// The id at a place, if it is a module's.
fn module_at(ids: &[FileAstId], around: Option<usize>) -> Option<FileAstId>
    ensures { result ≡ spec.module_at ids.now around }
{
    let id = *ids.get(around?)?;
    if matches!(id.kind, AstIdKind::Module) {
        Some(id)
    } else {
        None
    }
}

// How many there are of a key, and one more is counted.
fn count_one(counts: &mut Counts, key: (u8, u16)) -> Result<u32, AllocError>
    requires { count_of counts.old key < 2 ^ 63 }
    ensures number { IfOk result (λ number. number ≡ min (count_of counts.old key) (2 ^ 32 - 1)) }
    ensures counted { OnOk result (CountsOne counts.old counts.new key) }
{
    let count = counts.get(&key).copied().unwrap_or(0);
    counts.insert(key, count + 1)?;
    Ok(count.min(u32::MAX as usize) as u32)
}

/// An id for each item, of its kind, which is to be replaced.
pub fn blank_ids(alloc: Global, nodes: &[Node<'_>]) -> Result<Vec<FileAstId>, AllocError>
    ensures { IfOk result (λ ids. length ids.items ≡ length nodes.now) }
{
    let mut ids = Vec::with_capacity(alloc, nodes.len())?;
    for node in nodes {
        ids.push(FileAstId {
            kind: node.kind(),
            hash: 0,
            number: 0,
        })?;
    }
    Ok(ids)
}

// Whether an item of one depth may be the one around items of another.
fn is_one_less(depth: usize, deeper: usize) -> bool
    ensures { result ≡ (suc depth == deeper) }
{
    depth < deeper && deeper - depth == 1
}

// The last place that passes a test, with one more place.
fn last_place(last: Option<usize>, at: usize, passes: bool) -> Option<usize>
    ensures { result ≡ (if passes then Some at else last) }
{
    if passes { Some(at) } else { last }
}

// The item at a place is given its id, if it is of this depth.
fn number_node(
    nodes: &[Node<'_>],
    at: usize,
    depth: usize,
    around: Option<usize>,
    ids: &mut Vec<FileAstId>,
    counts: &mut Counts,
) -> Result<(), AllocError>
    requires place { at < length nodes.now }
    requires around { around ≡ spec.last_below (λ j. suc (spec.depth_at nodes.now j) == depth) at }
    requires numbered { IsNumbered (is_numbered_before nodes.now depth at) nodes.now ids.old.items counts.old }
    ensures { OnOk result (IsNumbered
        (is_numbered_before nodes.now depth (at + 1)) nodes.now ids.new.items counts.new) }
{
    let node = &nodes[at];
    if node.depth() != depth {
        return Ok(());
    }
    let kind = node.kind();
    let hash = hash_of(node, module_at(ids, around));
    let number = count_one(counts, (kind_place(kind), hash))?;
    ids[at] = FileAstId { kind, hash, number };
    Ok(())
}

/// Each item of one depth is given its id, where all that are less deep have theirs.
pub fn number_level(
    nodes: &[Node<'_>],
    depth: usize,
    ids: &mut Vec<FileAstId>,
    counts: &mut Counts,
) -> Result<(), AllocError>
    requires { IsNumbered (is_numbered_before nodes.now depth 0) nodes.now ids.old.items counts.old }
    ensures { OnOk result (IsNumbered
        (is_numbered_before nodes.now depth (length nodes.now)) nodes.now ids.new.items counts.new) }
{
    let mut around = None;
    for (at, node) in nodes.iter().enumerate() {
        number_node(nodes, at, depth, around, ids, counts)?;
        around = last_place(around, at, is_one_less(node.depth(), depth));
    }
    Ok(())
}

// The nearer to a depth of what is deeper than it.
fn nearer_depth(depth: usize, next: Option<usize>, other: usize) -> Option<usize>
    ensures { result ≡ nearer_of depth next other }
{
    if other <= depth {
        return next;
    }
    match next {
        Some(deeper) if deeper <= other => Some(deeper),
        _ => Some(other),
    }
}

/// The least depth of an item that is deeper than a depth.
pub fn next_depth(nodes: &[Node<'_>], depth: usize) -> Option<usize>
    ensures { IsNextDepth nodes.now depth result }
{
    let mut next = None;
    for node in nodes {
        next = nearer_depth(depth, next, node.depth());
    }
    next
}
