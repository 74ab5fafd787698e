//! The ids of all items of a file.

ghost use Rattle.std.specs.Prelude.{◌≡◌, ◌≤◌, ◌^◌, IfOk, length};
ghost use Rattle.rust_ids.specs.Ids.{AreIds, AreDistinctIds};

use crate::numbering;
use hir_input::{AstIdKind, FileAstId};
use std::alloc::{AllocError, Global};
use std::collections::HashMap;
use std::marker::Model;

/// What the id of an item is made from.
#[derive(Debug, Drop)]
pub struct Node<'a> {
    depth: usize,
    kind: AstIdKind,
    name: &'a str,
}

impl<'a> Model for Node<'a> {
    ghost use Rattle.rust_ids.specs.Row.{Row, coded_row};

    ghost Value = { Row };

    ghost coded = { coded_row };

    ghost view = { λ node. record { depth = node.depth; kind = node.kind; name = node.name.now } };
}

impl<'a> Node<'a> {
    /// An item of a kind that stands in so many modules and extern blocks, with the name that is hashed: the empty text
    /// for a constant without a name, the last name of the path of a macro call, the name that is written first of an
    /// extern crate. The name of a use, an extern block or an impl does not count.
    pub fn new(depth: usize, kind: AstIdKind, name: &'a str) -> Node<'a>
        ensures { result ≡ record { depth = depth; kind = kind; name = name.now } }
    {
        Node { depth, kind, name }
    }

    /// In how many modules and extern blocks it stands.
    pub fn depth(&self) -> usize
        ensures { result ≡ self.now.depth }
    {
        self.depth
    }

    /// Its kind.
    pub fn kind(&self) -> AstIdKind
        ensures { result ≡ self.now.kind }
    {
        self.kind
    }

    /// The name that is hashed.
    pub fn name(&self) -> &'a str
        ensures { result.now ≡ self.now.name }
    {
        self.name
    }
}

/// The ids of the items of a file, which are given in preorder, as rust-analyzer's `AstIdMap` gives them.
///
/// Takes a pass over the items for each depth that occurs.
#[tactic(auto, using(crate::proofs::Consequences::distinct))]
pub fn assign(alloc: Global, nodes: &[Node<'_>]) -> Result<Vec<FileAstId>, AllocError>
    ensures ids { IfOk result (λ ids. AreIds nodes.now ids.items) }

    // A number has 32 bits, so more items than that could share one.
    ensures distinct { length nodes.now ≤ 2 ^ 32 → IfOk result (λ ids. AreDistinctIds ids.items) }
{
    let mut ids = numbering::blank_ids(alloc, nodes)?;
    let mut counts = HashMap::new(alloc);
    let mut level = Some(0);
    while let Some(depth) = level {
        numbering::number_level(nodes, depth, &mut ids, &mut counts)?;
        level = numbering::next_depth(nodes, depth);
    }
    Ok(ids)
}
