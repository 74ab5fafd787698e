//! Edits that mend a text.

ghost use Rattle.std.specs.Prelude.{◌≡◌, ◌<◌, ◌∷◌, []};
ghost use Rattle.rust_mended.specs.Texts as spec;

use crate::bracket::Bracket;

/// What is done at a place.
#[derive(Clone, Copy, Debug, PartialEq, Eq)]
pub enum EditKind {
    /// Such a bracket ends: its closer is put there.
    Put(Bracket),
    /// A closer that closes nothing is replaced by a blank.
    Leave,
    /// A closer closes such a bracket: it is replaced by the right one.
    Turn(Bracket),
}

/// An edit of a text, and what is wrong there.
#[derive(Clone, Copy, Debug, PartialEq, Eq)]
pub struct Edit {
    /// The byte place in the text.
    pub at: usize,
    /// The place of the bracket that is wrong: of the one that is not closed, or of the closer.
    pub told: usize,
    pub kind: EditKind,
}
