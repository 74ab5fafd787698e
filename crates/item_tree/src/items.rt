//! The items of a tree, and their ids.
ghost use Rattle.std.specs.Prelude.{◌≡◌, ◌↔◌, ◌≢◌, ◌+◌, ◌*◌, ◌/◌, ◌%◌, ◌<◌, ◌^◌, IsTrue};
ghost use Rattle.hir_input.specs.declared.ids.AstIdKind.TheVariants as kinds;
ghost use Rattle.item_tree.specs.declared.items.FieldsShape.TheVariants.{Record};
ghost use Rattle.item_tree.specs.Layout.{kind_bit, row_kind};
ghost use Rattle.item_tree.specs.Shown.{lent_kind};
ghost use Rattle.item_tree.specs.Stored.{item_row, lent_ast, lent_row};
ghost use Rattle.item_tree.specs.Tree.{tree_of};
ghost use Rattle.item_tree.specs.UseItem.{UseFits};

mod copy;

use crate::use_tree::{ImportAlias, UseTree};
use crate::visibility::RawVisibilityId;
use hir_input::{AstIdKind, ExpandTo, FileAstId, ModPath, Name, SyntaxContext};
use std::cmp::Ordering;
use std::marker::Model;

/// The id of an item in its tree. rust-analyzer's `ModItemId`.
///
/// The order of ids is total and agrees with `==`; which of two ids is less is not promised.
#[derive(Clone, Copy, Debug, PartialEq, Eq, Hash)]
pub struct ModItemId {
    id: u32,
}

impl Model for ModItemId {
    ghost use Rattle.std.specs.Prelude.{ℕ};

    ghost Value = { ℕ };

    ghost view = { λ i. i.id };

    ghost inverse = { λ n. record { id = n } };
}

impl PartialOrd for ModItemId {
    ghost use Rattle.std.specs.Ordering.{as_partial_cmp};
    ghost use Rattle.item_tree.specs.IdOrder.{id_cmp, id_cmp_partial};

    ghost partial_cmp = { as_partial_cmp id_cmp };

    ghost laws = { id_cmp_partial };

    fn partial_cmp(&self, other: &ModItemId) -> Option<Ordering> {
        Some(self.cmp(other))
    }
}

impl Ord for ModItemId {
    ghost use Rattle.std.specs.Prelude.{refl};
    ghost use Rattle.item_tree.specs.IdOrder.{id_cmp, id_cmp_total, id_cmp_ties};

    ghost cmp = { id_cmp };

    ghost total = { id_cmp_total };

    ghost matches_partial_cmp = { λ i j. refl };

    ghost matches_eq = { id_cmp_ties };

    #[tactic(auto, unfolding(crate::specs::IdOrder::id_cmp))]
    fn cmp(&self, other: &ModItemId) -> Ordering {
        self.id.cmp(&other.id)
    }
}

impl ModItemId {
    // The id of the item in a row.
    pub(crate) fn from_row(row: u32, kind: AstIdKind) -> ModItemId
        requires { row < 2 ^ 31 }
        ensures { result ≡ 2 * row + kind_bit kind }
    {
        ModItemId {
            id: 2 * row + low_bit(kind),
        }
    }

    // The row of the item.
    pub(crate) fn row(self) -> usize
        ensures { result ≡ self / 2 }
    {
        (self.id / 2) as usize
    }

    // Whether the lowest bit is that of the kind.
    pub(crate) fn fits_kind(self, kind: AstIdKind) -> bool
        ensures { IsTrue result ↔ (kind_bit kind ≡ self % 2) }
    {
        low_bit(kind) == self.id % 2
    }
}

// The lowest bit of the ids of a kind.
fn low_bit(kind: AstIdKind) -> u32
    ensures value { result ≡ kind_bit kind }
    ensures small { result < 2 }
{
    match kind {
        AstIdKind::ExternCrate | AstIdKind::Module | AstIdKind::Struct | AstIdKind::Use => 1,
        _ => 0,
    }
}

/// What all item types have. rust-analyzer's `ItemTreeNode`.
pub trait ItemTreeNode {
    ghost use Rattle.hir_input.specs.declared.ids.AstIdKind.{AstIdKind};

    /// The kind of the syntax node that such an item is lowered from.
    const KIND: AstIdKind;

    ghost KIND: { AstIdKind };
}

/// How the fields of a struct are written. rust-analyzer's `FieldsShape`.
#[derive(Clone, Copy, Debug, PartialEq, Eq)]
pub enum FieldsShape {
    /// `{ a: A, b: B }`
    Record,
    /// `(A, B)`
    Tuple,
    /// No fields are written.
    Unit,
}

impl FieldsShape {
    /// Whether a struct of this shape has a constructor in the value namespace. rust-analyzer's
    /// `FieldsShape::has_value_ns_ctor`.
    pub fn has_value_ns_ctor(self) -> bool
        ensures { IsTrue result ↔ (self ≢ Record) }
    {
        match self {
            FieldsShape::Record => false,
            FieldsShape::Tuple | FieldsShape::Unit => true,
        }
    }
}

/// The constructor of a struct in the value namespace. rust-analyzer's `StructValueNsCtor`.
#[derive(Debug, Drop, PartialEq, Eq)]
pub enum StructValueNsCtor {
    /// None: the struct has named fields.
    NoValueNsCtor,
    /// One of this visibility.
    ValueNsCtorWithVis(RawVisibilityId),
    /// One that is visible where all of these are, which are visibilities of modules, by first appearance.
    ValueNsCtorWithMinVis(Vec<RawVisibilityId>),
}

/// A constant, which may have no name. rust-analyzer's `Const`.
#[derive(Clone, Debug, Drop, PartialEq, Eq)]
pub struct Const {
    pub name: Option<Name>,
    pub visibility: RawVisibilityId,
}

/// An enum. rust-analyzer's `Enum`.
#[derive(Clone, Debug, Drop, PartialEq, Eq)]
pub struct Enum {
    pub name: Name,
    pub visibility: RawVisibilityId,
}

/// An extern block. rust-analyzer's `ExternBlock`.
#[derive(Debug, Drop, PartialEq, Eq)]
pub struct ExternBlock {
    pub children: Vec<ModItemId>,
}

/// An extern crate, which may be renamed. rust-analyzer's `ExternCrate`.
#[derive(Clone, Debug, Drop, PartialEq, Eq)]
pub struct ExternCrate {
    pub name: Name,
    pub visibility: RawVisibilityId,
    pub alias: Option<ImportAlias>,
}

/// A function. rust-analyzer's `Function`.
#[derive(Clone, Debug, Drop, PartialEq, Eq)]
pub struct Function {
    pub name: Name,
    pub visibility: RawVisibilityId,
}

/// An impl, of a trait or inherent. rust-analyzer's `Impl`.
#[derive(Clone, Copy, Debug, PartialEq, Eq)]
pub struct Impl {
    pub is_trait_impl: bool,
}

/// A macro 2.0. rust-analyzer's `Macro2`.
#[derive(Clone, Debug, Drop, PartialEq, Eq)]
pub struct Macro2 {
    pub name: Name,
    pub visibility: RawVisibilityId,
}

/// A macro call. rust-analyzer's `MacroCall`.
#[derive(Clone, Debug, Drop, PartialEq, Eq)]
pub struct MacroCall {
    pub path: ModPath,
    pub expand_to: ExpandTo,
    pub ctxt: SyntaxContext,
}

/// A `macro_rules!` macro. rust-analyzer's `MacroRules`.
#[derive(Clone, Debug, Drop, PartialEq, Eq)]
pub struct MacroRules {
    pub name: Name,
}

/// A module. rust-analyzer's `Mod`.
#[derive(Debug, Drop, PartialEq, Eq)]
pub struct Mod {
    pub name: Name,
    pub visibility: RawVisibilityId,
    pub kind: ModKind,
}

/// Where the items of a module are. rust-analyzer's `ModKind`.
#[derive(Debug, Drop, PartialEq, Eq)]
pub enum ModKind {
    /// In the module: `mod n { .. }`.
    Inline { items: Vec<ModItemId> },
    /// In another file: `mod n;`.
    Outline,
}

/// A static. rust-analyzer's `Static`.
#[derive(Clone, Debug, Drop, PartialEq, Eq)]
pub struct Static {
    pub name: Name,
    pub visibility: RawVisibilityId,
}

/// A struct. rust-analyzer's `Struct`.
#[derive(Debug, Drop, PartialEq, Eq)]
pub struct Struct {
    pub name: Name,
    pub visibility: RawVisibilityId,
    pub shape: FieldsShape,
    pub value_ns_ctor: StructValueNsCtor,
}

/// A trait. rust-analyzer's `Trait`.
#[derive(Clone, Debug, Drop, PartialEq, Eq)]
pub struct Trait {
    pub name: Name,
    pub visibility: RawVisibilityId,
}

/// A type alias. rust-analyzer's `TypeAlias`.
#[derive(Clone, Debug, Drop, PartialEq, Eq)]
pub struct TypeAlias {
    pub name: Name,
    pub visibility: RawVisibilityId,
}

/// A union. rust-analyzer's `Union`.
#[derive(Clone, Debug, Drop, PartialEq, Eq)]
pub struct Union {
    pub name: Name,
    pub visibility: RawVisibilityId,
}

/// A use. rust-analyzer's `Use`. It has less than 2^32 use trees, and less than 2^32 times `super` in the paths
/// from the root to one of them.
#[derive(Debug, Drop)]
pub struct Use {
    visibility: RawVisibilityId,
    tree: UseTree,
}

impl Model for Use {
    ghost use Rattle.item_tree.specs.Tree.{tree_of};
    ghost use Rattle.item_tree.specs.Code.Tree.{use_item_code};
    ghost use Rattle.item_tree.specs.UseItem.{UseItem, UseFits};

    ghost Value = { UseItem };

    ghost coded = { use_item_code };

    ghost view = { λ u. record { visibility = u.visibility; tree = tree_of u.tree } };

    ghost invariant = { λ u. UseFits (tree_of u.tree) };
}

impl Use {
    // The use of this visibility and use tree.
    pub(crate) fn new(visibility: RawVisibilityId, tree: UseTree) -> Use
        requires { UseFits (tree_of tree) }
        ensures { result ≡ record { visibility = visibility; tree = tree_of tree } }
    {
        Use { visibility, tree }
    }

    /// The id of its visibility. rust-analyzer's field `Use::visibility`.
    pub fn visibility(&self) -> RawVisibilityId
        ensures { result ≡ self.now.visibility }
    {
        self.visibility
    }

    /// Lends its use tree. rust-analyzer's field `Use::use_tree`.
    pub fn use_tree(&self) -> &UseTree
        ensures value { tree_of result.now ≡ self.now.tree }
        ensures fits { UseFits self.now.tree }
    {
        &self.tree
    }
}

impl PartialEq for Use {
    ghost use Rattle.std.specs.Prelude.{◌≡◌, ◌↔◌, IsTrue};
    ghost use Rattle.std.specs.Cmp.{partial_equiv_from_equiv};
    ghost use Rattle.item_tree.specs.Same.{same, same_is_equivalence};
    ghost use Rattle.item_tree.specs.Code.Tree.{use_item_code};

    ghost eq = { same use_item_code };

    ghost laws = { partial_equiv_from_equiv (same_is_equivalence _) };

    fn eq(&self, other: &Use) -> bool
        ensures decides { IsTrue result ↔ (self.now ≡ other.now) }
        ensures gives { result ≡ same use_item_code self.now other.now }
    {
        self.visibility == other.visibility && self.tree == other.tree
    }
}

impl Eq for Use {
    ghost use Rattle.item_tree.specs.Same.{same_is_equivalence};

    ghost laws = { same_is_equivalence _ };
}

impl ItemTreeNode for Const {
    ghost KIND = { kinds.Const };

    const KIND: AstIdKind = AstIdKind::Const;
}

impl ItemTreeNode for Enum {
    ghost KIND = { kinds.Enum };

    const KIND: AstIdKind = AstIdKind::Enum;
}

impl ItemTreeNode for ExternBlock {
    ghost KIND = { kinds.ExternBlock };

    const KIND: AstIdKind = AstIdKind::ExternBlock;
}

impl ItemTreeNode for ExternCrate {
    ghost KIND = { kinds.ExternCrate };

    const KIND: AstIdKind = AstIdKind::ExternCrate;
}

impl ItemTreeNode for Function {
    ghost KIND = { kinds.Fn };

    const KIND: AstIdKind = AstIdKind::Fn;
}

impl ItemTreeNode for Impl {
    ghost KIND = { kinds.Impl };

    const KIND: AstIdKind = AstIdKind::Impl;
}

impl ItemTreeNode for Macro2 {
    ghost KIND = { kinds.MacroDef };

    const KIND: AstIdKind = AstIdKind::MacroDef;
}

impl ItemTreeNode for MacroCall {
    ghost KIND = { kinds.MacroCall };

    const KIND: AstIdKind = AstIdKind::MacroCall;
}

impl ItemTreeNode for MacroRules {
    ghost KIND = { kinds.MacroRules };

    const KIND: AstIdKind = AstIdKind::MacroRules;
}

impl ItemTreeNode for Mod {
    ghost KIND = { kinds.Module };

    const KIND: AstIdKind = AstIdKind::Module;
}

impl ItemTreeNode for Static {
    ghost KIND = { kinds.Static };

    const KIND: AstIdKind = AstIdKind::Static;
}

impl ItemTreeNode for Struct {
    ghost KIND = { kinds.Struct };

    const KIND: AstIdKind = AstIdKind::Struct;
}

impl ItemTreeNode for Trait {
    ghost KIND = { kinds.Trait };

    const KIND: AstIdKind = AstIdKind::Trait;
}

impl ItemTreeNode for TypeAlias {
    ghost KIND = { kinds.TypeAlias };

    const KIND: AstIdKind = AstIdKind::TypeAlias;
}

impl ItemTreeNode for Union {
    ghost KIND = { kinds.Union };

    const KIND: AstIdKind = AstIdKind::Union;
}

impl ItemTreeNode for Use {
    ghost KIND = { kinds.Use };

    const KIND: AstIdKind = AstIdKind::Use;
}

/// An item of a row.
#[derive(Debug, Drop, PartialEq, Eq)]
pub(crate) enum ModItem {
    Const(Const),
    Enum(Enum),
    ExternBlock(ExternBlock),
    ExternCrate(ExternCrate),
    Function(Function),
    Impl(Impl),
    Macro2(Macro2),
    MacroCall(MacroCall),
    MacroRules(MacroRules),
    Mod(Mod),
    Static(Static),
    Struct(Struct),
    Trait(Trait),
    TypeAlias(TypeAlias),
    Union(Union),
    Use(Use),
}

/// An item that a tree lends, with the id of its syntax node. rust-analyzer's `ModItemKind`.
#[derive(Clone, Copy, Debug)]
pub enum ModItemKind<'a> {
    /// A constant.
    Const(FileAstId, &'a Const),
    /// An enum.
    Enum(FileAstId, &'a Enum),
    /// An extern block.
    ExternBlock(FileAstId, &'a ExternBlock),
    /// An extern crate.
    ExternCrate(FileAstId, &'a ExternCrate),
    /// A function.
    Function(FileAstId, &'a Function),
    /// An impl.
    Impl(FileAstId, &'a Impl),
    /// A macro 2.0.
    Macro2(FileAstId, &'a Macro2),
    /// A macro call.
    MacroCall(FileAstId, &'a MacroCall),
    /// A `macro_rules!` macro.
    MacroRules(FileAstId, &'a MacroRules),
    /// A module.
    Mod(FileAstId, &'a Mod),
    /// A static.
    Static(FileAstId, &'a Static),
    /// A struct.
    Struct(FileAstId, &'a Struct),
    /// A trait.
    Trait(FileAstId, &'a Trait),
    /// A type alias.
    TypeAlias(FileAstId, &'a TypeAlias),
    /// A union.
    Union(FileAstId, &'a Union),
    /// A use.
    Use(FileAstId, &'a Use),
}

impl ModItem {
    // The kind of the syntax node that the item is lowered from.
    pub(crate) fn kind(&self) -> AstIdKind
        ensures { result ≡ row_kind (item_row self.now) }
    {
        match self {
            ModItem::Const(_) => Const::KIND,
            ModItem::Enum(_) => Enum::KIND,
            ModItem::ExternBlock(_) => ExternBlock::KIND,
            ModItem::ExternCrate(_) => ExternCrate::KIND,
            ModItem::Function(_) => Function::KIND,
            ModItem::Impl(_) => Impl::KIND,
            ModItem::Macro2(_) => Macro2::KIND,
            ModItem::MacroCall(_) => MacroCall::KIND,
            ModItem::MacroRules(_) => MacroRules::KIND,
            ModItem::Mod(_) => Mod::KIND,
            ModItem::Static(_) => Static::KIND,
            ModItem::Struct(_) => Struct::KIND,
            ModItem::Trait(_) => Trait::KIND,
            ModItem::TypeAlias(_) => TypeAlias::KIND,
            ModItem::Union(_) => Union::KIND,
            ModItem::Use(_) => Use::KIND,
        }
    }

    // Lends the item, with its id.
    pub(crate) fn lend(&self, ast_id: FileAstId) -> ModItemKind<'_>
        ensures item { lent_row (lent_kind result) ≡ item_row self.now }
        ensures id { lent_ast (lent_kind result) ≡ ast_id }
    {
        match self {
            ModItem::Const(item) => ModItemKind::Const(ast_id, item),
            ModItem::Enum(item) => ModItemKind::Enum(ast_id, item),
            ModItem::ExternBlock(item) => ModItemKind::ExternBlock(ast_id, item),
            ModItem::ExternCrate(item) => ModItemKind::ExternCrate(ast_id, item),
            ModItem::Function(item) => ModItemKind::Function(ast_id, item),
            ModItem::Impl(item) => ModItemKind::Impl(ast_id, item),
            ModItem::Macro2(item) => ModItemKind::Macro2(ast_id, item),
            ModItem::MacroCall(item) => ModItemKind::MacroCall(ast_id, item),
            ModItem::MacroRules(item) => ModItemKind::MacroRules(ast_id, item),
            ModItem::Mod(item) => ModItemKind::Mod(ast_id, item),
            ModItem::Static(item) => ModItemKind::Static(ast_id, item),
            ModItem::Struct(item) => ModItemKind::Struct(ast_id, item),
            ModItem::Trait(item) => ModItemKind::Trait(ast_id, item),
            ModItem::TypeAlias(item) => ModItemKind::TypeAlias(ast_id, item),
            ModItem::Union(item) => ModItemKind::Union(ast_id, item),
            ModItem::Use(item) => ModItemKind::Use(ast_id, item),
        }
    }
}
