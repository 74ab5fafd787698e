//! What became of something, and the words that tell it.
ghost use Rattle.std.specs.Prelude.{◌≡◌};
ghost use Rattle.source_changes.specs.ChangeWords as spec;

/// What became of an item, or of a member of one.
#[derive(Clone, Copy, Debug, PartialEq, Eq)]
pub enum ChangeKind {
    /// The old text alone has it.
    Removed,
    /// The new text alone has it.
    Added,
    /// Both texts have it, with other tokens of its own.
    Changed,
}

/// The word of what became of something, with a blank behind it.
pub fn change_word(kind: ChangeKind) -> &'static str
    ensures { result.now ≡ spec.change_word kind }
{
    match kind {
        ChangeKind::Removed => "removed ",
        ChangeKind::Added => "added ",
        ChangeKind::Changed => "changed ",
    }
}
