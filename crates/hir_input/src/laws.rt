//! What holds of every type here: `==` decides whether two values are one, a copy is its source, and values that are
//! equal are hashed alike. Each derive is held to it by a clause; the functions do nothing.
ghost use Rattle.hir_input.specs.Attr.{meta_view};
ghost use Rattle.hir_input.specs.Cfg.{atom_view, cfg_view};
ghost use Rattle.hir_input.specs.Edition.{edition_view};
ghost use Rattle.hir_input.specs.Equality.{DecidesEq, IsByValue, IsByValueOf, IsCopied, IsKey};

use crate::ast::{PathNode, PlainKind};
use crate::attr::{Attr, AttrId, AttrInput, Literal, Meta, TokenTree};
use crate::cfg::{CfgAtom, CfgExpr, CfgOptions};
use crate::edition::{Edition, EditionYear};
use crate::expand_to::ExpandTo;
use crate::ids::{AstIdKind, BlockId, Crate, FileAstId, HirFileId, SyntaxContext};
use crate::mod_path::{ModPath, PathKind};
use crate::name::Name;
use crate::span::Span;
use std::hash::Hash;

// `==` of what owns no memory is true exactly where the two are one, a copy is its source, and keys that are equal are
// hashed alike.
fn ids()
    ensures crates { IsKey ⟦<Crate as PartialEq>⟧.eq ⟦<Crate as Clone>⟧.is_clone ⟦<Crate as Hash>⟧.hash_input }
    ensures files { IsKey ⟦<HirFileId as PartialEq>⟧.eq ⟦<HirFileId as Clone>⟧.is_clone
        ⟦<HirFileId as Hash>⟧.hash_input }
    ensures blocks { IsKey ⟦<BlockId as PartialEq>⟧.eq ⟦<BlockId as Clone>⟧.is_clone ⟦<BlockId as Hash>⟧.hash_input }
    ensures attr_ids { IsByValue ⟦<AttrId as PartialEq>⟧.eq ⟦<AttrId as Clone>⟧.is_clone }
    ensures kinds { IsByValue ⟦<AstIdKind as PartialEq>⟧.eq ⟦<AstIdKind as Clone>⟧.is_clone }
    ensures plain_kinds { IsCopied ⟦<PlainKind as Clone>⟧.is_clone }
    ensures nodes { IsByValue ⟦<FileAstId as PartialEq>⟧.eq ⟦<FileAstId as Clone>⟧.is_clone }
    ensures years { IsByValue ⟦<EditionYear as PartialEq>⟧.eq ⟦<EditionYear as Clone>⟧.is_clone }
    ensures contexts { IsByValue ⟦<SyntaxContext as PartialEq>⟧.eq ⟦<SyntaxContext as Clone>⟧.is_clone }
    ensures spans { IsByValue ⟦<Span as PartialEq>⟧.eq ⟦<Span as Clone>⟧.is_clone }
    ensures expansions { IsByValue ⟦<ExpandTo as PartialEq>⟧.eq ⟦<ExpandTo as Clone>⟧.is_clone }
    ensures path_kinds { IsKey ⟦<PathKind as PartialEq>⟧.eq ⟦<PathKind as Clone>⟧.is_clone
        ⟦<PathKind as Hash>⟧.hash_input }
{}

// The same of the values behind what owns memory.
#[tactic(auto, using(crate::proofs::MetaEq::equalities))]
fn values()
    ensures names { IsKey ⟦<Name as PartialEq>⟧.eq ⟦<Name as Clone>⟧.is_clone ⟦<Name as Hash>⟧.hash_input }
    ensures editions { IsByValueOf edition_view ⟦<Edition as PartialEq>⟧.eq ⟦<Edition as Clone>⟧.is_clone }
    ensures paths { IsKey ⟦<ModPath as PartialEq>⟧.eq ⟦<ModPath as Clone>⟧.is_clone ⟦<ModPath as Hash>⟧.hash_input }
    ensures path_nodes { DecidesEq ⟦<PathNode as PartialEq>⟧.eq }
    ensures atoms { IsByValueOf atom_view ⟦<CfgAtom as PartialEq>⟧.eq ⟦<CfgAtom as Clone>⟧.is_clone }
    ensures cfgs { IsByValueOf cfg_view ⟦<CfgExpr as PartialEq>⟧.eq ⟦<CfgExpr as Clone>⟧.is_clone }
    ensures option_sets { IsByValue ⟦<CfgOptions as PartialEq>⟧.eq ⟦<CfgOptions as Clone>⟧.is_clone }
    ensures literals { IsByValue ⟦<Literal as PartialEq>⟧.eq ⟦<Literal as Clone>⟧.is_clone }
    ensures token_trees { IsByValue ⟦<TokenTree as PartialEq>⟧.eq ⟦<TokenTree as Clone>⟧.is_clone }
    ensures inputs { IsByValue ⟦<AttrInput as PartialEq>⟧.eq ⟦<AttrInput as Clone>⟧.is_clone }
    ensures attrs { IsByValue ⟦<Attr as PartialEq>⟧.eq ⟦<Attr as Clone>⟧.is_clone }
    ensures metas { IsByValueOf meta_view ⟦<Meta as PartialEq>⟧.eq ⟦<Meta as Clone>⟧.is_clone }
{}
