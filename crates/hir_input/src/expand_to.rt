//! What a macro call expands to.
ghost use Rattle.std.specs.Prelude.{Some};

use std::fmt;

/// What a macro call expands to, which its place decides. Displayed as its word.
///
/// Stands for rust-analyzer's `ExpandTo`.
#[derive(Clone, Copy, Debug, PartialEq, Eq)]
pub enum ExpandTo {
    /// Statements of a block.
    Statements,
    /// Items of a file, a module or an extern block.
    Items,
    /// A pattern.
    Pattern,
    /// A type, displayed as `Type`. rust-analyzer's `Type`.
    Ty,
    /// An expression.
    Expr,
}

impl fmt::Display for ExpandTo {
    ghost use Rattle.hir_input.specs.Id.{shown_expand_to};

    ghost output = { λ expand_to. Some (shown_expand_to expand_to) };

    fn fmt<W: fmt::Write>(&self, f: &mut fmt::Formatter<W>) -> fmt::Result {
        f.write_str(match self {
            ExpandTo::Statements => "Statements",
            ExpandTo::Items => "Items",
            ExpandTo::Pattern => "Pattern",
            ExpandTo::Ty => "Type",
            ExpandTo::Expr => "Expr",
        })
    }
}
