//! What holds of every type here: `==` decides whether two values are one, a copy is its source, and values that are
//! equal are hashed alike. Each derive is held to it by a clause; the functions do nothing.
ghost use Rattle.std.specs.Prelude.{◌≡◌};
ghost use Rattle.hir_input.specs.declared.ids.AstIdKind.TheVariants as kinds;
ghost use Rattle.hir_input.specs.Equality.{IsCopied, IsCopiedOf, IsKey};
ghost use Rattle.item_tree.specs.Items.{IsByValue, IsByValueOf, block_value, inline_ids, mod_value, struct_value};
ghost use Rattle.item_tree.specs.Shown.{ctor_ids};
ghost use Rattle.item_tree.specs.Stats.{no_stats};
ghost use Rattle.item_tree.specs.Tree.{tree_of, tree_of_kind};

use crate::fault::{EditFault, LowerError};
use crate::items::{
    Const, Enum, ExternBlock, ExternCrate, FieldsShape, Function, Impl, ItemTreeNode, Macro2,
    MacroCall, MacroRules, Mod, ModItemId, ModItemKind, ModKind, Static, Struct, StructValueNsCtor,
    Trait, TypeAlias, Union, Use,
};
use crate::tree::ItemTreeDataStats;
use crate::use_tree::{ImportAlias, ImportKind, UseTree, UseTreeIdx, UseTreeKind};
use crate::visibility::{RawVisibility, RawVisibilityId, VisibilityExplicitness};
use hir_input::AstIdKind;
use std::hash::Hash;

// `==` of what owns no memory is true exactly where the two are one, a copy is its source, and keys that are equal are
// hashed alike.
fn parts()
    ensures explicitness { IsKey ⟦<VisibilityExplicitness as PartialEq>⟧.eq ⟦<VisibilityExplicitness as Clone>⟧.is_clone
        ⟦<VisibilityExplicitness as Hash>⟧.hash_input }
    ensures visibility_ids { IsByValue ⟦<RawVisibilityId as PartialEq>⟧.eq
        ⟦<RawVisibilityId as Clone>⟧.is_clone }
    ensures item_ids { IsKey ⟦<ModItemId as PartialEq>⟧.eq ⟦<ModItemId as Clone>⟧.is_clone
        ⟦<ModItemId as Hash>⟧.hash_input }
    ensures indices { IsByValue ⟦<UseTreeIdx as PartialEq>⟧.eq ⟦<UseTreeIdx as Clone>⟧.is_clone }
    ensures shapes { IsByValue ⟦<FieldsShape as PartialEq>⟧.eq ⟦<FieldsShape as Clone>⟧.is_clone }
    ensures import_kinds { IsByValue ⟦<ImportKind as PartialEq>⟧.eq
        ⟦<ImportKind as Clone>⟧.is_clone }
    ensures errors { IsByValue ⟦<LowerError as PartialEq>⟧.eq ⟦<LowerError as Clone>⟧.is_clone }
    ensures faults { IsByValue ⟦<EditFault as PartialEq>⟧.eq ⟦<EditFault as Clone>⟧.is_clone }
    ensures stats { IsByValue ⟦<ItemTreeDataStats as PartialEq>⟧.eq
        ⟦<ItemTreeDataStats as Clone>⟧.is_clone }
{}

// The same of visibilities and items by their values.
#[tactic(auto, using(crate::proofs::Equality::items_decide))]
fn items()
    ensures visibilities { IsKey ⟦<RawVisibility as PartialEq>⟧.eq ⟦<RawVisibility as Clone>⟧.is_clone
        ⟦<RawVisibility as Hash>⟧.hash_input }
    ensures constructors { IsByValueOf ctor_ids ⟦<StructValueNsCtor as PartialEq>⟧.eq
        ⟦<StructValueNsCtor as Clone>⟧.is_clone }
    ensures module_kinds { IsByValueOf inline_ids ⟦<ModKind as PartialEq>⟧.eq
        ⟦<ModKind as Clone>⟧.is_clone }
    ensures constants { IsByValue ⟦<Const as PartialEq>⟧.eq ⟦<Const as Clone>⟧.is_clone }
    ensures enums { IsByValue ⟦<Enum as PartialEq>⟧.eq ⟦<Enum as Clone>⟧.is_clone }
    ensures extern_blocks { IsByValueOf block_value ⟦<ExternBlock as PartialEq>⟧.eq
        ⟦<ExternBlock as Clone>⟧.is_clone }
    ensures extern_crates { IsByValue ⟦<ExternCrate as PartialEq>⟧.eq
        ⟦<ExternCrate as Clone>⟧.is_clone }
    ensures functions { IsByValue ⟦<Function as PartialEq>⟧.eq ⟦<Function as Clone>⟧.is_clone }
    ensures impls { IsByValue ⟦<Impl as PartialEq>⟧.eq ⟦<Impl as Clone>⟧.is_clone }
    ensures macro_defs { IsByValue ⟦<Macro2 as PartialEq>⟧.eq ⟦<Macro2 as Clone>⟧.is_clone }
    ensures macro_calls { IsByValue ⟦<MacroCall as PartialEq>⟧.eq ⟦<MacroCall as Clone>⟧.is_clone }
    ensures macro_rules { IsByValue ⟦<MacroRules as PartialEq>⟧.eq
        ⟦<MacroRules as Clone>⟧.is_clone }
    ensures modules { IsByValueOf mod_value ⟦<Mod as PartialEq>⟧.eq ⟦<Mod as Clone>⟧.is_clone }
    ensures statics { IsByValue ⟦<Static as PartialEq>⟧.eq ⟦<Static as Clone>⟧.is_clone }
    ensures structs { IsByValueOf struct_value ⟦<Struct as PartialEq>⟧.eq
        ⟦<Struct as Clone>⟧.is_clone }
    ensures traits { IsByValue ⟦<Trait as PartialEq>⟧.eq ⟦<Trait as Clone>⟧.is_clone }
    ensures type_aliases { IsByValue ⟦<TypeAlias as PartialEq>⟧.eq ⟦<TypeAlias as Clone>⟧.is_clone }
    ensures unions { IsByValue ⟦<Union as PartialEq>⟧.eq ⟦<Union as Clone>⟧.is_clone }
    ensures uses { IsByValue ⟦<Use as PartialEq>⟧.eq ⟦<Use as Clone>⟧.is_clone }
{}

// A copy of what is lent, of an alias and of a use tree is its source.
fn copies()
    ensures lent { IsCopied ⟦<ModItemKind<'static> as Clone>⟧.is_clone }
    ensures aliases { IsCopied ⟦<ImportAlias as Clone>⟧.is_clone }
    ensures use_trees { IsCopiedOf tree_of ⟦<UseTree as Clone>⟧.is_clone }
    ensures use_tree_kinds { IsCopiedOf tree_of_kind ⟦<UseTreeKind as Clone>⟧.is_clone }
{}

// No items are counted by default.
fn defaults()
    ensures { (stats : ItemTreeDataStats) → ⟦<ItemTreeDataStats as Default>⟧.is_default stats
        → stats ≡ no_stats }
{}

// The kind of each item type is that of the syntax that its items are lowered from.
fn node_kinds()
    ensures constants { ⟦<Const as ItemTreeNode>⟧.KIND ≡ kinds.Const }
    ensures enums { ⟦<Enum as ItemTreeNode>⟧.KIND ≡ kinds.Enum }
    ensures extern_blocks { ⟦<ExternBlock as ItemTreeNode>⟧.KIND ≡ kinds.ExternBlock }
    ensures extern_crates { ⟦<ExternCrate as ItemTreeNode>⟧.KIND ≡ kinds.ExternCrate }
    ensures functions { ⟦<Function as ItemTreeNode>⟧.KIND ≡ kinds.Fn }
    ensures impls { ⟦<Impl as ItemTreeNode>⟧.KIND ≡ kinds.Impl }
    ensures macro_defs { ⟦<Macro2 as ItemTreeNode>⟧.KIND ≡ kinds.MacroDef }
    ensures macro_calls { ⟦<MacroCall as ItemTreeNode>⟧.KIND ≡ kinds.MacroCall }
    ensures macro_rules { ⟦<MacroRules as ItemTreeNode>⟧.KIND ≡ kinds.MacroRules }
    ensures modules { ⟦<Mod as ItemTreeNode>⟧.KIND ≡ kinds.Module }
    ensures statics { ⟦<Static as ItemTreeNode>⟧.KIND ≡ kinds.Static }
    ensures structs { ⟦<Struct as ItemTreeNode>⟧.KIND ≡ kinds.Struct }
    ensures traits { ⟦<Trait as ItemTreeNode>⟧.KIND ≡ kinds.Trait }
    ensures type_aliases { ⟦<TypeAlias as ItemTreeNode>⟧.KIND ≡ kinds.TypeAlias }
    ensures unions { ⟦<Union as ItemTreeNode>⟧.KIND ≡ kinds.Union }
    ensures uses { ⟦<Use as ItemTreeNode>⟧.KIND ≡ kinds.Use }
{}

// `KIND` is the kind that these clauses name.
fn node_kind<T: ItemTreeNode>() -> AstIdKind
    ensures { result ≡ T.KIND }
{
    T::KIND
}
