//! What may be wrong with a text.

ghost use Rattle.std.specs.Prelude.{◌≡◌, ◌++◌, ◌∷◌, [], OnOk};
ghost use Rattle.source_problems.specs.Inner.{AddsHere};
ghost use Rattle.source_problems.specs.Problems as spec;

use hir_input::ast::PathNode;
use rust_items::{Problem, ProblemKind};
use std::alloc::AllocError;

/// What may be wrong at a place. The first six are what the reader of items tells.
#[derive(Clone, Copy, PartialEq, Eq, PartialOrd, Ord)]
pub enum SourceProblemKind {
    /// Tokens that begin no item.
    NoItem,
    /// A bracket that closes, where none is open that it could close.
    Unmatched,
    /// An item without its end.
    Unfinished,
    /// An item without the name that it needs.
    Nameless,
    /// A literal or a comment without its end.
    Unterminated,
    /// A module or a list of a use that stands in too many others, and is passed over.
    TooDeep,
    /// A bracket that closes one of another kind.
    Mismatched,
    /// A bracket that nothing closes.
    Unclosed,
    /// An attribute, or a meta in one, without a path that has a meaning.
    AttributePath,
    /// An attribute in which metas or conditions stand in too many others.
    DeepAttribute,
    /// A visibility whose path has no meaning.
    VisibilityPath,
    /// A use with a path that has no meaning.
    UsePath,
    /// A macro call whose path has no meaning.
    MacroPath,
    /// A line that a merge left to tell two sides apart.
    ConflictMarker,
}

/// Something wrong, and its byte place in the text. One comes before another where its place does, or else its kind.
#[derive(Clone, Copy, PartialEq, Eq, PartialOrd, Ord)]
pub struct SourceProblem {
    pub at: usize,
    pub kind: SourceProblemKind,
}

impl From<ProblemKind> for SourceProblemKind {
    ghost use Rattle.std.specs.Prelude.{◌≡◌};
    ghost use Rattle.source_problems.specs.Problems.{told_kind};

    ghost from_gives = { λ kind same. same ≡ told_kind kind };

    /// What the reader of items tells.
    fn from(kind: ProblemKind) -> SourceProblemKind {
        match kind {
            ProblemKind::NoItem => SourceProblemKind::NoItem,
            ProblemKind::Unmatched => SourceProblemKind::Unmatched,
            ProblemKind::Unfinished => SourceProblemKind::Unfinished,
            ProblemKind::Nameless => SourceProblemKind::Nameless,
            ProblemKind::Unterminated => SourceProblemKind::Unterminated,
            ProblemKind::TooDeep => SourceProblemKind::TooDeep,
        }
    }
}

/// What the reader of items tells.
pub(crate) fn told_problem(problem: Problem) -> SourceProblem
    ensures { result ≡ spec.told_problem problem }
{
    SourceProblem {
        at: problem.at,
        kind: SourceProblemKind::from(problem.kind),
    }
}

/// Adds a problem.
pub(crate) fn push(
    problems: &mut Vec<SourceProblem>,
    at: usize,
    kind: SourceProblemKind,
) -> Result<(), AllocError>
    ensures { OnOk result (problems.new.items ≡ problems.old.items ++ spec.problem kind at ∷ []) }
{
    problems.push(SourceProblem { at, kind })?;
    Ok(())
}

/// What was found in a text so far, and the place at which more of it would stand.
#[derive(Drop)]
pub(crate) struct Found {
    pub(crate) at: usize,
    pub(crate) problems: Vec<SourceProblem>,
}

impl Found {
    /// Adds a problem.
    pub(crate) fn push(&mut self, kind: SourceProblemKind) -> Result<(), AllocError>
        ensures { OnOk result (AddsHere self.old self.new (spec.problem kind self.old.at ∷ [])) }
    {
        push(&mut self.problems, self.at, kind)
    }

    /// Adds a problem where a path is written and has no meaning.
    pub(crate) fn push_path(
        &mut self,
        kind: SourceProblemKind,
        path: &Option<PathNode>,
    ) -> Result<(), AllocError>
        ensures { let more = spec.path_problems kind self.old.at path.now in
            OnOk result (AddsHere self.old self.new more) }
    {
        match path {
            Some(PathNode::Unreadable) => self.push(kind),
            Some(PathNode::Readable(_)) => Ok(()),
            None => Ok(()),
        }
    }
}
