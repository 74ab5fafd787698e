//! The kinds of tokens.
ghost use Rattle.std.specs.Prelude.{◌≡◌, Decides};

/// The style of a documentation comment. rustc's `DocStyle`.
#[derive(Clone, Copy, Debug, PartialEq, Eq)]
pub enum DocStyle {
    /// It documents what stands behind it: `///` and `/**`.
    Outer,
    /// It documents what it stands in: `//!` and `/*!`.
    Inner,
}

/// The kind of a literal. rustc's `LiteralKind`, without its parameters.
#[derive(Clone, Copy, Debug, PartialEq, Eq)]
pub enum LiteralKind {
    /// An integer: `12`, `0x1F`, `1_000u32`, and `1f32`, whose suffix alone makes it a float.
    Int,
    /// A float: `1.0`, `1.`, `1e5`.
    Float,
    /// A character: `'a'`.
    Char,
    /// A byte: `b'a'`.
    Byte,
    /// A string: `"a"`.
    Str,
    /// A byte string: `b"a"`.
    ByteStr,
    /// A C string: `c"a"`.
    CStr,
    /// A raw string: `r"a"`, `r#"a"#`.
    RawStr,
    /// A raw byte string: `br"a"`.
    RawByteStr,
    /// A raw C string: `cr"a"`.
    RawCStr,
}

/// The kind of a token. rustc's `TokenKind`; `Token::symbol` tells brackets and punctuation apart.
#[derive(Clone, Copy, Debug, PartialEq, Eq)]
pub enum TokenKind {
    /// The byte order mark in front of a text.
    ByteOrderMark,
    /// A line `#!..` in front of a text that is no inner attribute.
    Shebang,
    /// What stands between two lines of dashes in front of a text, with the line ends before it.
    Frontmatter,
    /// White space.
    Whitespace,
    /// A comment to the end of a line.
    LineComment(Option<DocStyle>),
    /// A comment between `/*` and `*/`.
    BlockComment(Option<DocStyle>),
    /// An identifier or a keyword.
    Ident,
    /// An identifier behind `r#`.
    RawIdent,
    /// A lifetime or a label: `'a`.
    Lifetime,
    /// The same behind `'r#`.
    RawLifetime,
    /// A literal with its suffix.
    Literal(LiteralKind),
    /// One of `(`, `[` and `{`.
    OpenDelim,
    /// One of `)`, `]` and `}`.
    CloseDelim,
    /// One character of `! # $ % & * + , - . / : ; < = > ? @ ^ | ~`.
    Punct,
    /// One character that begins none of these.
    Unknown,
}

// `==` decides whether two kinds are one, and a copy is its source: the derives are held to it by these clauses; the
// functions do nothing.
fn equal_kinds()
    ensures styles { (a b : DocStyle) → Decides (⟦<DocStyle as PartialEq>⟧.eq a b) (a ≡ b) }
    ensures literals { (a b : LiteralKind) → Decides (⟦<LiteralKind as PartialEq>⟧.eq a b) (a ≡ b) }
    ensures tokens { (a b : TokenKind) → Decides (⟦<TokenKind as PartialEq>⟧.eq a b) (a ≡ b) }
{}

fn copied_kinds()
    ensures styles { (source copy : DocStyle) → ⟦<DocStyle as Clone>⟧.is_clone source copy → copy
        ≡ source }
    ensures literals { (source copy : LiteralKind) → ⟦<LiteralKind as Clone>⟧.is_clone source copy
        → copy ≡ source }
    ensures tokens { (source copy : TokenKind) → ⟦<TokenKind as Clone>⟧.is_clone source copy → copy
        ≡ source }
{}
