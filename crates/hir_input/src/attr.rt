//! Attributes, and the metas that they are collected from.
ghost use Rattle.std.specs.Prelude.{◌≡◌, IfOk, option_map, option_copied, map};
ghost use Rattle.hir_input.specs.Attr.{meta_view, token_tree_of, string_with_span_of};

use crate::ast::PathNode;
use crate::cfg::CfgExpr;
use crate::ids::SyntaxContext;
use crate::mod_path::ModPath;
use crate::span::Span;
use std::alloc::AllocError;
use std::marker::Model;

/// A literal: its text as it is written, its span, and the string that it means if it is a string literal.
/// It stands for rust-analyzer's `tt::Literal`.
///
/// Two literals are equal where their texts, their strings and their spans are.
#[derive(Debug, Drop)]
pub struct Literal {
    pub rendered: String,
    pub string: Option<String>,
    pub span: Span,
}

impl Model for Literal {
    ghost use Rattle.std.specs.Prelude.{option_map};
    ghost use Rattle.std.specs.String.{string_bytes};
    ghost use Rattle.hir_input.specs.Literal.{LiteralView};

    ghost Value = { LiteralView };

    ghost view = { λ l. record {
      rendered = string_bytes l.rendered;
      string = option_map string_bytes l.string;
      span = l.span;
    } };
}

impl PartialEq for Literal {
    ghost use Rattle.std.specs.Prelude.{nat_eq};
    ghost use Rattle.std.specs.Option.{option_eq};
    ghost use Rattle.std.specs.Ordering.{on, eq_of_both};
    ghost use Rattle.std.specs.Cmp.Lexicographic.{pointwise, nat_list_eq_equiv};
    ghost use Rattle.std.specs.Cmp.Rules.{comparing};
    ghost use Rattle.hir_input.specs.contracts.span.SpanEq.TheImpl.Laws.{laws-law};

    ghost eq = { eq_of_both (on (λ l. l.rendered) (pointwise nat_eq))
        (eq_of_both (on (λ l. l.string) (option_eq (pointwise nat_eq))) (on (λ l. l.span) ⟦<Span as PartialEq>⟧.eq)) };

    ghost laws = { Prim.search (comparing, nat_list_eq_equiv, laws-law) depth 7 };

    fn eq(&self, other: &Literal) -> bool {
        self.rendered == other.rendered && self.string == other.string && self.span == other.span
    }
}

impl Eq for Literal {
    ghost use Rattle.std.specs.Cmp.Lexicographic.{nat_list_eq_equiv};
    ghost use Rattle.std.specs.Cmp.Rules.{comparing};
    ghost use Rattle.hir_input.specs.contracts.span.SpanEq.TheImpl.Laws.{laws-law};

    ghost laws = { Prim.search (comparing, nat_list_eq_equiv, laws-law) depth 7 };
}

/// A token tree, by its text. Two token trees are equal where their texts are. It stands for rust-analyzer's
/// `tt::TopSubtree`.
#[derive(Debug, Drop)]
pub struct TokenTree {
    pub rendered: String,
}

impl Model for TokenTree {
    ghost use Rattle.std.specs.Prelude.{ℕ, List};
    ghost use Rattle.std.specs.String.{string_bytes};

    ghost Value = { List ℕ };

    ghost view = { λ t. string_bytes t.rendered };
}

impl PartialEq for TokenTree {
    ghost use Rattle.std.specs.Prelude.{nat_eq};
    ghost use Rattle.std.specs.Cmp.{partial_equiv_from_equiv};
    ghost use Rattle.std.specs.Cmp.Lexicographic.{pointwise, nat_list_eq_equiv};

    ghost eq = { pointwise nat_eq };

    ghost laws = { partial_equiv_from_equiv nat_list_eq_equiv };

    fn eq(&self, other: &TokenTree) -> bool {
        self.rendered == other.rendered
    }
}

impl Eq for TokenTree {
    ghost use Rattle.std.specs.Cmp.Lexicographic.{nat_list_eq_equiv};

    ghost laws = { nat_list_eq_equiv };
}

/// What follows the path of an attribute.
///
/// Stands for rust-analyzer's `AttrInput`.
#[derive(Clone, Debug, Drop, PartialEq, Eq)]
pub enum AttrInput {
    /// `#[path = literal]`
    Literal(Literal),
    /// `#[path(tokens)]`
    TokenTree(TokenTree),
}

/// An attribute.
///
/// Stands for rust-analyzer's `Attr`.
#[derive(Clone, Debug, Drop, PartialEq, Eq)]
pub struct Attr {
    pub path: ModPath,
    pub input: Option<AttrInput>,
    pub ctxt: SyntaxContext,
}

impl Attr {
    /// The token tree, if the input is one. rust-analyzer's `Attr::token_tree_value`.
    pub fn token_tree_value(&self) -> Option<&TokenTree>
        ensures { option_copied result ≡ token_tree_of self.now }
    {
        match &self.input {
            Some(AttrInput::TokenTree(tokens)) => Some(tokens),
            _ => None,
        }
    }

    /// The string and its span, if the input is a literal that has a string.
    /// rust-analyzer's `Attr::string_value_with_span`.
    pub fn string_value_with_span(&self) -> Option<(&str, Span)>
        ensures { option_map (λ found. (found.0.now, found.1)) result
            ≡ string_with_span_of self.now }
    {
        match &self.input {
            Some(AttrInput::Literal(literal)) => match &literal.string {
                Some(string) => Some((string.as_str(), literal.span)),
                None => None,
            },
            _ => None,
        }
    }
}

/// The id of an attribute among those of its owner: its position, counted from 0.
///
/// Stands for rust-analyzer's `AttrId`.
#[derive(Clone, Copy, Debug, PartialEq, Eq)]
pub struct AttrId(u32);

impl Model for AttrId {
    ghost use Rattle.std.specs.Prelude.{ℕ};

    ghost Value = { ℕ };

    ghost view = { λ id. id.0 };

    ghost inverse = { λ n. record { 0 = n } };
}

impl AttrId {
    /// The id of the attribute at this position. rust-analyzer's `AttrId::from_item_tree_index`.
    pub fn from_item_tree_index(index: u32) -> AttrId
        ensures { result ≡ index }
    {
        AttrId(index)
    }

    /// The position. rust-analyzer's `AttrId::item_tree_index`.
    pub fn item_tree_index(self) -> u32
        ensures { result ≡ self }
    {
        self.0
    }
}

/// What is in the brackets of an attribute, as it is written. A value that is no literal is `None`.
///
/// Stands for rust-analyzer's `ast::Meta`.
#[derive(Debug, Drop, PartialEq, Eq)]
pub enum Meta {
    /// `path`
    Path {
        path: Option<PathNode>,
        ctxt: SyntaxContext,
    },
    /// `path = value`
    KeyValue {
        path: Option<PathNode>,
        value: Option<Literal>,
        ctxt: SyntaxContext,
    },
    /// `path(tokens)`
    TokenTree {
        path: Option<PathNode>,
        tokens: TokenTree,
        ctxt: SyntaxContext,
    },
    /// `cfg(condition)`
    Cfg(CfgExpr),
    /// `cfg_attr(condition, metas)`
    CfgAttr {
        condition: CfgExpr,
        metas: Vec<Meta>,
    },
    /// `unsafe(meta)`
    Unsafe(Box<Meta>),
}

impl Clone for Literal {
    ghost is_clone = { λ literal copy. copy ≡ literal };

    fn clone(&self) -> Result<Literal, AllocError> {
        let rendered = self.rendered.clone()?;
        let string = self.string.clone()?;
        Ok(Literal {
            rendered,
            string,
            span: self.span,
        })
    }
}

impl Clone for TokenTree {
    ghost is_clone = { λ tokens copy. copy ≡ tokens };

    fn clone(&self) -> Result<TokenTree, AllocError> {
        let rendered = self.rendered.clone()?;
        Ok(TokenTree { rendered })
    }
}

// A copy of a path, if there is one.
fn clone_path(path: &Option<PathNode>) -> Result<Option<PathNode>, AllocError>
    ensures { IfOk result (λ copy. copy ≡ path.now) }
{
    match path {
        Some(PathNode::Readable(path)) => Ok(Some(PathNode::Readable(path.clone()?))),
        Some(PathNode::Unreadable) => Ok(Some(PathNode::Unreadable)),
        None => Ok(None),
    }
}

// A copy of a value, if there is one.
fn clone_value(value: &Option<Literal>) -> Result<Option<Literal>, AllocError>
    ensures { IfOk result (λ copy. copy ≡ value.now) }
{
    match value {
        Some(value) => Ok(Some(value.clone()?)),
        None => Ok(None),
    }
}

// A copy of a meta.
#[tactic(auto, using(crate::proofs::MetaLemmas::meta_views, std::proofs::lemmas::Grind::common_steps))]
fn clone_meta(meta: &Meta) -> Result<Meta, AllocError>
    ensures { IfOk result (λ copy. meta_view copy ≡ meta_view meta.now) }
{
    match meta {
        Meta::Path { path, ctxt } => {
            let path = clone_path(path)?;
            Ok(Meta::Path { path, ctxt: *ctxt })
        }
        Meta::KeyValue { path, value, ctxt } => {
            let path = clone_path(path)?;
            let value = clone_value(value)?;
            let ctxt = *ctxt;
            Ok(Meta::KeyValue { path, value, ctxt })
        }
        Meta::TokenTree { path, tokens, ctxt } => {
            let path = clone_path(path)?;
            let tokens = tokens.clone()?;
            let ctxt = *ctxt;
            Ok(Meta::TokenTree { path, tokens, ctxt })
        }
        Meta::Cfg(condition) => Ok(Meta::Cfg(condition.clone()?)),
        Meta::CfgAttr {
            condition,
            metas: inner,
        } => {
            let mut metas = Vec::new(*inner.allocator());
            for i in 0..inner.len() {
                let copy = clone_meta(&inner[i])?;
                metas.push(copy)?;
            }
            let condition = condition.clone()?;
            Ok(Meta::CfgAttr { condition, metas })
        }
        Meta::Unsafe(inner) => {
            let copy = clone_meta(inner)?;
            Ok(Meta::Unsafe(Box::new(*Box::allocator(inner), copy)?))
        }
    }
}

impl Clone for Meta {
    ghost is_clone = { λ meta copy. meta_view copy ≡ meta_view meta };

    fn clone(&self) -> Result<Meta, AllocError> {
        clone_meta(self)
    }
}
