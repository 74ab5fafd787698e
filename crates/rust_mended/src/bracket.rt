//! Kinds of brackets.

ghost use Rattle.std.specs.Prelude.{◌≡◌, ◌<◌};
ghost use Rattle.rust_mended.specs.Marks as marks;
ghost use Rattle.rust_mended.specs.Mended as spec;

/// A kind of bracket.
#[derive(Clone, Copy, Debug, PartialEq, Eq)]
pub enum Bracket {
    /// `{` and `}`.
    Brace,
    /// `(` and `)`.
    Round,
    /// `[` and `]`.
    Square,
}

/// The kind of a bracket that begins with this byte.
pub fn bracket_of(symbol: u8) -> Bracket
    ensures { result ≡ marks.bracket_of symbol }
{
    match symbol {
        b'{' | b'}' => Bracket::Brace,
        b'(' | b')' => Bracket::Round,
        _ => Bracket::Square,
    }
}

/// Whether it is a brace.
pub(crate) fn is_brace(bracket: Bracket) -> bool
    ensures { result ≡ spec.is_brace bracket }
{
    match bracket {
        Bracket::Brace => true,
        Bracket::Round | Bracket::Square => false,
    }
}

/// Whether these are of one kind.
pub fn is_same(left: Bracket, right: Bracket) -> bool
    ensures { result ≡ spec.is_same left right }
{
    match left {
        Bracket::Brace => matches!(right, Bracket::Brace),
        Bracket::Round => matches!(right, Bracket::Round),
        Bracket::Square => matches!(right, Bracket::Square),
    }
}
