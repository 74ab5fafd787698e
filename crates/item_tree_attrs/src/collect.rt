//! Attributes that are collected from metas.
ghost use Rattle.std.specs.Prelude.{◌≡◌, ◌↔◌, ◌<◌, ◌≤◌, length, map, option_map, Some, None, IsTrue, IfOk, OnOk};
ghost use Rattle.std.specs.Prelude.{IsErrOf};
ghost use Rattle.hir_input.specs.Attr.{meta_view, path_meta, key_value_meta, token_tree_meta};
ghost use Rattle.hir_input.specs.Cfg.{cfg_view, truth};
ghost use Rattle.hir_input.specs.declared.attr.AttrInput.TheVariants.{Literal as literal, TokenTree as token_tree};
ghost use Rattle.item_tree_attrs.specs.Collected.{attr_events, attr_limit, cfg_events, collection_of, collected_from};
ghost use Rattle.item_tree_attrs.specs.Collected.{cut_events, events, is_false, is_skipped, join, nothing_collected};
ghost use Rattle.item_tree_attrs.specs.Collected.{attr_path, IsUnit, JoinsLists};
ghost use Rattle.item_tree_attrs.specs.Inner.Collecting.{found_events, AddsCollected};
ghost use Rattle.item_tree_attrs.specs.declared.collect.AttrError.TheVariants.{OutOfMemory, TooMany};

use either::{Either, Left, Right};
use hir_input::ast::PathNode;
use hir_input::{
    Attr, AttrInput, CfgExpr, CfgOptions, Literal, Meta, ModPath, Name, PathKind, SyntaxContext,
    TokenTree,
};
use std::alloc::{AllocError, AllocFailed, Global};
use std::marker::Model;
use thiserror::Error;

/// Why attributes are refused. rust-analyzer has no such errors.
#[derive(Clone, Copy, Debug, PartialEq, Eq, Error)]
pub enum AttrError {
    /// More than 2^32 - 1 attributes of one owner.
    #[error("too many attributes")]
    TooMany,
    /// The allocator refused memory.
    #[error("out of memory")]
    OutOfMemory,
}

impl From<AllocError> for AttrError {
    ghost from_gives = { λ _ e. e ≡ OutOfMemory };

    fn from(_refused: AllocError) -> AttrError {
        AttrError::OutOfMemory
    }
}

impl<T: Drop> From<AllocFailed<T>> for AttrError {
    ghost from_gives = { λ _ e. e ≡ OutOfMemory };

    fn from(_refused: AllocFailed<T>) -> AttrError {
        AttrError::OutOfMemory
    }
}

/// The attributes of an owner, in order: u32::MAX at most. rust-analyzer's `AttrsOwned`.
#[derive(Debug)]
pub struct AttrsOwned {
    pub(crate) attrs: Vec<Attr>,
}

// (Written out: what is derived is proved anew, field by field, in each crate that drops one.)
impl Drop for AttrsOwned {
    fn drop(self) {
        let AttrsOwned { attrs: _ } = self;
    }
}

impl Model for AttrsOwned {
    ghost use Rattle.std.specs.Prelude.{List, ◌<◌, ◌^◌, length};
    ghost use Rattle.hir_input.specs.declared.attr.Attr.{Attr};

    ghost Value = { List Attr };

    ghost view = { λ a. a.attrs.items };

    ghost invariant = { λ a. length a.attrs.items < 2 ^ 32 };
}

impl PartialEq for AttrsOwned {
    ghost use Rattle.std.specs.Cmp.{partial_equiv_from_equiv};
    ghost use Rattle.std.specs.Cmp.Lexicographic.{pointwise, lists_equiv};
    ghost use Rattle.hir_input.specs.contracts.attr.AttrEq.TheImpl.Laws.{laws-law};

    ghost eq = { pointwise ⟦<Attr as PartialEq>⟧.eq };

    ghost laws = { partial_equiv_from_equiv (lists_equiv laws-law) };

    fn eq(&self, other: &AttrsOwned) -> bool {
        self.attrs == other.attrs
    }
}

impl Eq for AttrsOwned {
    ghost use Rattle.std.specs.Cmp.Lexicographic.{lists_equiv};
    ghost use Rattle.hir_input.specs.contracts.attr.AttrEq.TheImpl.Laws.{laws-law};

    ghost laws = { lists_equiv laws-law };
}

/// The attributes of an owner, or, where a cfg among its metas is false, that cfg and the attributes before it.
///
/// Stands for rust-analyzer's `AttrsOrCfg`.
#[derive(Debug, Drop, PartialEq, Eq)]
pub enum AttrsOrCfg {
    Enabled { attrs: AttrsOwned },
    CfgDisabled(Box<(CfgExpr, AttrsOwned)>),
}

impl AttrsOrCfg {
    /// Enabled, without attributes, in place of rust-analyzer's `AttrsOrCfg::default`. It takes no memory.
    ///
    /// It is the unit of `merge`, on both sides.
    pub fn empty(alloc: Global) -> AttrsOrCfg
        ensures value { collection_of result ≡ nothing_collected }
        ensures unit { IsUnit join (collection_of result) }
    {
        AttrsOrCfg::Enabled {
            attrs: AttrsOwned {
                attrs: Vec::new(alloc),
            },
        }
    }

    /// What the metas collect under these options, without the attributes whose path is one of the skipped
    /// names. rust-analyzer's `AttrsOrCfg::lower`.
    ///
    /// Where more than u32::MAX attributes are collected, it is refused: as `TooMany`, or as `OutOfMemory` if memory
    /// was refused first. Otherwise `OutOfMemory` is the only refusal.
    /// A list followed by another collects what `merge` makes of the two.
    #[tactic(auto, using(crate::proofs::Cutting::joins_lists, std::proofs::lemmas::Grind::common_steps))]
    pub fn lower(
        alloc: Global,
        metas: &[Meta],
        cfg_options: &CfgOptions,
        skipped: &[Name],
    ) -> Result<AttrsOrCfg, AttrError>
        ensures value { let all = collected_from cfg_options.now skipped.now
            (map meta_view metas.now) in
            IfOk result (λ attrs. collection_of attrs ≡ all) }
        ensures fits { let all = collected_from cfg_options.now skipped.now
            (map meta_view metas.now) in
            OnOk result (length all.attrs ≤ attr_limit) }
        ensures too_many { let all = collected_from cfg_options.now skipped.now
            (map meta_view metas.now) in
            IsErrOf result TooMany → attr_limit < length all.attrs }
        ensures joined { JoinsLists (collected_from cfg_options.now skipped.now) }
    {
        let mut attrs = Vec::new(alloc);
        let false_cfg = collect_all(alloc, metas, cfg_options, skipped, &mut attrs)?;
        if attrs.len() > u32::MAX as usize {
            return Err(AttrError::TooMany);
        }
        let attrs = AttrsOwned { attrs };
        match false_cfg {
            None => Ok(AttrsOrCfg::Enabled { attrs }),
            Some(cfg) => {
                let cfg = cfg.clone()?;
                Ok(AttrsOrCfg::CfgDisabled(Box::new(alloc, (cfg, attrs))?))
            }
        }
    }

    /// Whether it is enabled and has no attribute. rust-analyzer's `AttrsOrCfg::is_empty`.
    pub fn is_empty(&self) -> bool
        ensures { IsTrue result ↔ (collection_of self.now ≡ nothing_collected) }
    {
        match self {
            AttrsOrCfg::Enabled { attrs } => attrs.attrs.is_empty(),
            AttrsOrCfg::CfgDisabled(_) => false,
        }
    }
}

// An attribute, or a cfg that is false.
type Event<'a> = Either<Attr, &'a CfgExpr>;

// Whether an attribute of this path is left out.
fn is_left_out(path: &Option<PathNode>, skipped: &[Name]) -> bool
    ensures { result ≡ is_skipped skipped.now path.now }
{
    match path {
        Some(PathNode::Readable(path)) => match path.as_ident() {
            Some(name) => skipped.contains(name),
            None => false,
        },
        _ => false,
    }
}

// The path, or the name `[missing name]` where it is missing or not readable.
fn readable_path(alloc: Global, path: &Option<PathNode>) -> Result<ModPath, AllocError>
    ensures { IfOk result (λ found. found ≡ attr_path path.now) }
{
    if let Some(PathNode::Readable(path)) = path {
        return path.clone();
    }
    let text = String::from_str(alloc, "[missing name]")?;
    let mut names = Vec::with_capacity(alloc, 1)?;
    names.push(Name::new(text).unwrap())?;
    Ok(ModPath::from_segments(PathKind::Plain, names).unwrap())
}

// An attribute without input.
fn path_event<'a>(
    alloc: Global,
    path: &Option<PathNode>,
    ctxt: SyntaxContext,
    skipped: &[Name],
) -> Result<Option<Event<'a>>, AllocError>
    ensures { IfOk result (λ event. found_events event ≡ attr_events skipped.now path.now None ctxt) }
{
    if is_left_out(path, skipped) {
        return Ok(None);
    }
    let path = readable_path(alloc, path)?;
    Ok(Some(Left(Attr {
        path,
        input: None,
        ctxt,
    })))
}

// An attribute whose input is a literal, or is left out where the value is none.
fn key_value_event<'a>(
    alloc: Global,
    path: &Option<PathNode>,
    value: &Option<Literal>,
    ctxt: SyntaxContext,
    skipped: &[Name],
) -> Result<Option<Event<'a>>, AllocError>
    ensures { let events = attr_events skipped.now path.now (option_map literal value.now) ctxt in
        IfOk result (λ event. found_events event ≡ events) }
{
    let Some(value) = value else {
        return path_event(alloc, path, ctxt, skipped);
    };
    if is_left_out(path, skipped) {
        return Ok(None);
    }
    let path = readable_path(alloc, path)?;
    let input = Some(AttrInput::Literal(value.clone()?));
    Ok(Some(Left(Attr { path, input, ctxt })))
}

// An attribute whose input is a token tree.
fn token_tree_event<'a>(
    alloc: Global,
    path: &Option<PathNode>,
    tokens: &TokenTree,
    ctxt: SyntaxContext,
    skipped: &[Name],
) -> Result<Option<Event<'a>>, AllocError>
    ensures { let events = attr_events skipped.now path.now (Some (token_tree tokens.now)) ctxt in
        IfOk result (λ event. found_events event ≡ events) }
{
    if is_left_out(path, skipped) {
        return Ok(None);
    }
    let path = readable_path(alloc, path)?;
    let input = Some(AttrInput::TokenTree(tokens.clone()?));
    Ok(Some(Left(Attr { path, input, ctxt })))
}

// Whether a cfg is false.
fn is_disabled(cfg: &CfgExpr, cfg_options: &CfgOptions) -> bool
    ensures { result ≡ is_false (truth cfg_options.now (cfg_view cfg.now)) }
{
    cfg_options.check(cfg) == Some(false)
}

// A cfg, if it is false.
fn cfg_event<'a>(cfg: &'a CfgExpr, cfg_options: &CfgOptions) -> Option<Event<'a>>
    ensures { found_events result ≡ cfg_events cfg_options.now (cfg_view cfg.now) }
{
    if is_disabled(cfg, cfg_options) {
        Some(Right(cfg))
    } else {
        None
    }
}

// Keeps an attribute, and hands back a cfg.
fn take<'a>(
    event: Option<Event<'a>>,
    attrs: &mut Vec<Attr>,
) -> Result<Option<&'a CfgExpr>, AllocError>
    ensures { let one = cut_events (found_events event.entry) in
        IfOk result (λ met. AddsCollected attrs.old.items attrs.new.items met one) }
{
    match event {
        Some(Left(attr)) => {
            attrs.push(attr)?;
            Ok(None)
        }
        Some(Right(cfg)) => Ok(Some(cfg)),
        None => Ok(None),
    }
}

// Collects from a meta, up to a false cfg.
#[cycle(collect)]
#[tactic(auto, using(std::proofs::lemmas::Grind::common_steps))]
fn collect<'a>(
    alloc: Global,
    meta: &'a Meta,
    cfg_options: &CfgOptions,
    skipped: &[Name],
    attrs: &mut Vec<Attr>,
) -> Result<Option<&'a CfgExpr>, AllocError>
    ensures { let all = cut_events (events cfg_options.now skipped.now (meta_view meta.now)) in
        IfOk result (λ met. AddsCollected attrs.old.items attrs.new.items met all) }
{
    match meta {
        Meta::Path { path, ctxt } => take(path_event(alloc, path, *ctxt, skipped)?, attrs),
        Meta::KeyValue { path, value, ctxt } => {
            take(key_value_event(alloc, path, value, *ctxt, skipped)?, attrs)
        }
        Meta::TokenTree { path, tokens, ctxt } => {
            take(
                token_tree_event(alloc, path, tokens, *ctxt, skipped)?,
                attrs,
            )
        }
        Meta::Cfg(cfg) => take(cfg_event(cfg, cfg_options), attrs),
        Meta::CfgAttr { condition, metas } => {
            if is_disabled(condition, cfg_options) {
                return Ok(None);
            }
            collect_all(alloc, metas, cfg_options, skipped, attrs)
        }
        Meta::Unsafe(inner) => collect(alloc, inner, cfg_options, skipped, attrs),
    }
}

// Collects from metas, up to the first false cfg.
#[cycle(collect)]
#[tactic(auto, using(std::proofs::lemmas::Grind::common_steps))]
fn collect_all<'a>(
    alloc: Global,
    metas: &'a [Meta],
    cfg_options: &CfgOptions,
    skipped: &[Name],
    attrs: &mut Vec<Attr>,
) -> Result<Option<&'a CfgExpr>, AllocError>
    ensures { let all = collected_from cfg_options.now skipped.now (map meta_view metas.now) in
        IfOk result (λ met. AddsCollected attrs.old.items attrs.new.items met all) }
{
    for meta in metas {
        if let Some(cfg) = collect(alloc, meta, cfg_options, skipped, attrs)? {
            return Ok(Some(cfg));
        }
    }
    Ok(None)
}
