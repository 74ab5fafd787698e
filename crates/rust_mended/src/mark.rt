//! What of a text tells where brackets end.

ghost use Rattle.std.specs.Prelude.{◌≡◌};

use crate::bracket::Bracket;

/// What stands there.
#[derive(Clone, Copy, Debug)]
pub(crate) enum MarkKind {
    Open(Bracket),
    Close(Bracket),
    /// A token with which an item may begin, the first of its line.
    Item,
}

/// A bracket, or a token with which an item may begin.
#[derive(Clone, Copy, Debug)]
pub(crate) struct Mark {
    pub kind: MarkKind,
    /// The place at which it begins.
    pub at: usize,
    /// The place behind the token before it that is no comment.
    pub behind: usize,
    /// How far in its line begins.
    pub indent: usize,
    /// Whether it is the first of its line.
    pub begins_line: bool,
}

/// A bracket that is open.
#[derive(Clone, Copy, Debug)]
pub(crate) struct Opened {
    pub bracket: Bracket,
    /// The place at which it stands.
    pub at: usize,
    /// How far in its line begins.
    pub indent: usize,
    /// Whether something closes it.
    pub is_closed: bool,
    /// The place of what closes it, or else of what closes the last bracket around it that is closed.
    pub owed: Option<usize>,
}
