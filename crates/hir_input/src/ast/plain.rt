//! Items that differ in nothing but the kind.
ghost use Rattle.std.specs.Prelude.{◌≡◌};
ghost use Rattle.hir_input.specs.Syntax.{ast_kind, item_view, named_view, plain_item};

use super::{Item, NamedNode, PlainKind};
use crate::ids::AstIdKind;

impl PlainKind {
    /// The item of this kind that has this node.
    #[tactic(auto, using(crate::proofs::SyntaxViews::item_views))]
    pub fn item(self, node: NamedNode) -> Item
        ensures { item_view result ≡ plain_item self (named_view node) }
    {
        match self {
            PlainKind::Enum => Item::Enum(node),
            PlainKind::Fn => Item::Fn(node),
            PlainKind::MacroDef => Item::MacroDef(node),
            PlainKind::Static => Item::Static(node),
            PlainKind::Trait => Item::Trait(node),
            PlainKind::TypeAlias => Item::TypeAlias(node),
            PlainKind::Union => Item::Union(node),
        }
    }

    /// The kind of its id.
    pub fn ast_kind(self) -> AstIdKind
        ensures { result ≡ ast_kind self }
    {
        match self {
            PlainKind::Enum => AstIdKind::Enum,
            PlainKind::Fn => AstIdKind::Fn,
            PlainKind::MacroDef => AstIdKind::MacroDef,
            PlainKind::Static => AstIdKind::Static,
            PlainKind::Trait => AstIdKind::Trait,
            PlainKind::TypeAlias => AstIdKind::TypeAlias,
            PlainKind::Union => AstIdKind::Union,
        }
    }
}
