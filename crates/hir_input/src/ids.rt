//! Ids of crates, files, blocks and syntax nodes.
ghost use Rattle.std.specs.Prelude.{◌≡◌, ◌<◌, Some, true};
ghost use Rattle.std.specs.Fmt.{WritesOnOk, digit_glyph};
ghost use Rattle.hir_input.specs.Id.{shown_hash};

use crate::edition::EditionYear;
use std::fmt;

/// A crate, by its place in the list of crates, counted from 0. rust-analyzer's `Crate`.
#[derive(Clone, Copy, Debug, PartialEq, Eq, Hash)]
pub struct Crate(pub u32);

/// A file, or the result of a macro. rust-analyzer's `HirFileId`.
#[derive(Clone, Copy, Debug, PartialEq, Eq, Hash)]
pub struct HirFileId(pub u32);

/// A block expression that has items. rust-analyzer's `BlockId`.
#[derive(Clone, Copy, Debug, PartialEq, Eq, Hash)]
pub struct BlockId(pub u32);

/// Where the tokens of a macro call come from. rust-analyzer's `SyntaxContext`.
#[derive(Clone, Copy, Debug, PartialEq, Eq)]
pub enum SyntaxContext {
    /// The source text, read in this edition. Displayed as `ROOT2024`.
    Root(EditionYear),
    /// An expansion of this number, by which it is displayed.
    Expanded(u32),
}

impl fmt::Display for SyntaxContext {
    ghost use Rattle.hir_input.specs.Id.{shown_context};

    ghost output = { λ context. Some (shown_context context) };

    fn fmt<W: fmt::Write>(&self, f: &mut fmt::Formatter<W>) -> fmt::Result {
        match self {
            SyntaxContext::Root(EditionYear::E2015) => f.write_str("ROOT2015"),
            SyntaxContext::Root(EditionYear::E2018) => f.write_str("ROOT2018"),
            SyntaxContext::Root(EditionYear::E2021) => f.write_str("ROOT2021"),
            SyntaxContext::Root(EditionYear::E2024) => f.write_str("ROOT2024"),
            SyntaxContext::Expanded(number) => write!(f, "{number}"),
        }
    }
}

/// The kind of a syntax node that an item is lowered from, displayed as its word. rust-analyzer keeps it in
/// `ErasedFileAstId`.
#[derive(Clone, Copy, Debug, PartialEq, Eq)]
pub enum AstIdKind {
    /// A constant.
    Const,
    /// An enum.
    Enum,
    /// An extern block.
    ExternBlock,
    /// An extern crate.
    ExternCrate,
    /// A function.
    Fn,
    /// An impl.
    Impl,
    /// A macro 2.0.
    MacroDef,
    /// A macro call.
    MacroCall,
    /// A `macro_rules!` macro.
    MacroRules,
    /// A module.
    Module,
    /// A static.
    Static,
    /// A struct.
    Struct,
    /// A trait.
    Trait,
    /// A type alias.
    TypeAlias,
    /// A union.
    Union,
    /// A use.
    Use,
}

impl fmt::Display for AstIdKind {
    ghost use Rattle.hir_input.specs.Id.{shown_kind};

    ghost output = { λ kind. Some (shown_kind kind) };

    fn fmt<W: fmt::Write>(&self, f: &mut fmt::Formatter<W>) -> fmt::Result {
        f.write_str(match self {
            AstIdKind::Const => "Const",
            AstIdKind::Enum => "Enum",
            AstIdKind::ExternBlock => "ExternBlock",
            AstIdKind::ExternCrate => "ExternCrate",
            AstIdKind::Fn => "Fn",
            AstIdKind::Impl => "Impl",
            AstIdKind::MacroDef => "MacroDef",
            AstIdKind::MacroCall => "MacroCall",
            AstIdKind::MacroRules => "MacroRules",
            AstIdKind::Module => "Module",
            AstIdKind::Static => "Static",
            AstIdKind::Struct => "Struct",
            AstIdKind::Trait => "Trait",
            AstIdKind::TypeAlias => "TypeAlias",
            AstIdKind::Union => "Union",
            AstIdKind::Use => "Use",
        })
    }
}

/// The id of a syntax node in its file: its kind, a hash of what it is, and its number among those with
/// that hash. Displayed as `Fn[BE8F, 0]`.
///
/// Stands for rust-analyzer's `FileAstId`.
#[derive(Clone, Copy, Debug, PartialEq, Eq)]
pub struct FileAstId {
    pub kind: AstIdKind,
    pub hash: u16,
    pub number: u32,
}

impl fmt::Display for FileAstId {
    ghost use Rattle.hir_input.specs.Id.{shown_id};

    ghost output = { λ id. Some (shown_id id) };

    fn fmt<W: fmt::Write>(&self, f: &mut fmt::Formatter<W>) -> fmt::Result {
        let (kind, number) = (self.kind, self.number);
        write!(f, "{kind}[")?;
        write_hash(self.hash, f)?;
        write!(f, ", {number}]")
    }
}

// An upper-case hexadecimal digit.
fn hex_digit(d: u16) -> char
    requires { d < 16 }
    ensures value { result ≡ digit_glyph true d }
    ensures ascii { result < 128 }
{
    if d < 10 {
        (b'0' + d as u8) as char
    } else {
        (b'A' + (d as u8 - 10)) as char
    }
}

// Four upper-case hexadecimal digits.
fn write_hash<W: fmt::Write>(hash: u16, f: &mut fmt::Formatter<W>) -> fmt::Result
    ensures { WritesOnOk W.write_str_gives f.old result (shown_hash hash) f.new }
{
    f.write_char(hex_digit(hash / 4096))?;
    f.write_char(hex_digit(hash / 256 % 16))?;
    f.write_char(hex_digit(hash / 16 % 16))?;
    f.write_char(hex_digit(hash % 16))
}
