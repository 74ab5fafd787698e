//! What is found beside the items.

ghost use Rattle.std.specs.Prelude.{◌≡◌, OnOk};
ghost use Rattle.rust_paths.specs.Views.{starts_view};
ghost use Rattle.rust_items.specs.Found as spec;
ghost use Rattle.rust_items.specs.Found.{log_view};
ghost use Rattle.rust_items.specs.Items as items;

use hir_input::AstIdKind;
use rust_ids::Node;
use rust_paths::{TextRange, TreeStarts};
use std::alloc::{AllocError, Global};

/// Where an item stands with its attributes, and where its name stands and the braces that it ends with.
#[derive(Clone, Copy)]
pub(crate) struct ItemSpan {
    pub range: TextRange,
    pub name: Option<TextRange>,
    pub body: Option<TextRange>,
}

/// What is wrong with a text.
#[derive(Clone, Copy, Debug, PartialEq, Eq)]
pub enum ProblemKind {
    /// Tokens that begin no item, at the first of them.
    NoItem,
    /// A bracket that closes nothing.
    Unmatched,
    /// An item without its end, at its first token: without a semicolon or a block, or with a bracket that is not
    /// closed.
    Unfinished,
    /// An item without the name that its kind needs, at its first token.
    Nameless,
    /// A literal or a comment that is not ended.
    Unterminated,
    /// A module, at its `{`, or the list of a use that stands in 128 others and is passed over.
    TooDeep,
}

/// Something that is wrong with a text, and its byte place.
#[derive(Clone, Copy, Debug, PartialEq, Eq)]
pub struct Problem {
    pub kind: ProblemKind,
    pub at: usize,
}

/// The rows that ids are made from, the places, where use trees begin, and the problems.
#[derive(Drop)]
pub(crate) struct Log<'t> {
    pub rows: Vec<Node<'t>>,
    pub spans: Vec<ItemSpan>,
    pub use_trees: Vec<usize>,
    pub problems: Vec<Problem>,
}

impl<'t> Log<'t> {
    pub(crate) fn new(alloc: Global) -> Self
        ensures { log_view result ≡ spec.nothing_found }
    {
        Log {
            rows: Vec::new(alloc),
            spans: Vec::new(alloc),
            use_trees: Vec::new(alloc),
            problems: Vec::new(alloc),
        }
    }

    pub(crate) fn push_problem(&mut self, kind: ProblemKind, at: usize) -> Result<(), AllocError>
        ensures { OnOk result (log_view self.new ≡ spec.and_problem kind at (log_view self.old)) }
    {
        self.problems.push(Problem { kind, at })?;
        Ok(())
    }

    pub(crate) fn push_problem_if(
        &mut self,
        test: bool,
        kind: ProblemKind,
        at: usize,
    ) -> Result<(), AllocError>
        ensures { OnOk result (log_view self.new
            ≡ spec.and_problem_if test kind at (log_view self.old)) }
    {
        if test {
            return self.push_problem(kind, at);
        }
        Ok(())
    }

    pub(crate) fn push_problem_at(
        &mut self,
        kind: ProblemKind,
        at: Option<usize>,
    ) -> Result<(), AllocError>
        ensures { OnOk result (log_view self.new
            ≡ spec.and_problem_at kind at (log_view self.old)) }
    {
        match at {
            Some(at) => self.push_problem(kind, at),
            None => Ok(()),
        }
    }

    pub(crate) fn push_row(&mut self, row: Node<'t>, span: ItemSpan) -> Result<(), AllocError>
        ensures { OnOk result (log_view self.new
            ≡ spec.and_row row.entry span (log_view self.old)) }
    {
        self.rows.push(row)?;
        self.spans.push(span)?;
        Ok(())
    }

    pub(crate) fn push_use_trees(&mut self, starts: TreeStarts) -> Result<(), AllocError>
        ensures { OnOk result (log_view self.new
            ≡ spec.and_use_trees (starts_view starts) (log_view self.old)) }
    {
        starts.push_to(&mut self.use_trees)
    }

    /// Adds all of another behind.
    pub(crate) fn append(&mut self, mut more: Log<'t>) -> Result<(), AllocError>
        ensures { OnOk result (log_view self.new
            ≡ spec.and_all (log_view more.entry) (log_view self.old)) }
    {
        self.rows.append(&mut more.rows)?;
        self.spans.append(&mut more.spans)?;
        self.use_trees.append(&mut more.use_trees)?;
        self.problems.append(&mut more.problems)?;
        Ok(())
    }
}
