//! Texts that are the same but for carriage returns at the ends of lines.

ghost use Rattle.std.specs.Prelude.{◌≡◌, ◌↔◌, ◌<◌, ℕ, List, [], ◌∷◌, IfSome, IsTrue, MatchOption, length};
ghost use Rattle.source_changes.specs.Skeletons as spec;

/// The next byte of a text, but for a carriage return at the end of a line.
fn next_byte(left: &mut &[u8]) -> Option<u8>
    ensures taken { MatchOption result (spec.without_returns left.old.now ≡ [])
        (λ b. spec.without_returns left.old.now ≡ b ∷ spec.without_returns left.new.now) }
    ensures fewer { IfSome result (λ b. length left.new.now < length left.old.now) }
{
    'bytes: while let [byte, behind @ ..] = *left {
        *left = behind;
        if *byte != b'\r' || !ends_line(behind) {
            return Some(*byte);
        }
    }
    None
}

/// Whether a line ends here.
fn ends_line(behind: &[u8]) -> bool
    ensures { result ≡ spec.ends_line behind.now }
{
    match behind {
        [first, ..] => *first == b'\n',
        [] => true,
    }
}

/// Whether a byte comes next in a text without carriage returns at the ends of lines.
fn is_next_byte(byte: u8, left: &mut &[u8]) -> bool
    ensures { (more : List ℕ) → (byte ∷ more ≡ spec.without_returns left.old.now)
        ↔ (IsTrue result × (more ≡ spec.without_returns left.new.now)) }
{
    match next_byte(left) {
        Some(other) => byte == other,
        None => false,
    }
}

fn are_same_lines(ours: &[u8], theirs: &[u8]) -> bool
    ensures { IsTrue result ↔ (spec.without_returns ours.now ≡ spec.without_returns theirs.now) }
{
    let (mut ours, mut theirs) = (ours, theirs);
    'bytes: while let Some(byte) = next_byte(&mut ours) {
        if !is_next_byte(byte, &mut theirs) {
            return false;
        }
    }
    next_byte(&mut theirs).is_none()
}

/// Whether two texts are the same but for carriage returns at the ends of lines.
pub(crate) fn is_same_text(ours: &str, theirs: &str) -> bool
    ensures { IsTrue result ↔ (spec.without_returns ours.now ≡ spec.without_returns theirs.now) }
{
    ours == theirs || are_same_lines(ours.as_bytes(), theirs.as_bytes())
}
