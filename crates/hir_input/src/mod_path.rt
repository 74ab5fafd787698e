//! Module paths.
ghost use Rattle.std.specs.Prelude.{◌≡◌, ◌↔◌, IsTrue, option_map};
ghost use Rattle.std.specs.Option.{SomeIff};
ghost use Rattle.hir_input.specs.Path.{HasWords, ident_of};

use crate::ids::Crate;
use crate::name::Name;
use std::alloc::AllocError;
use std::hash::{Hash, Hasher};
use std::marker::Model;

/// What a path starts from.
///
/// Stands for rust-analyzer's `PathKind`.
#[derive(Clone, Copy, Debug, PartialEq, Eq, Hash)]
pub enum PathKind {
    /// A name: `a::b`.
    Plain,
    /// `super` so many times, or `self` for 0.
    Super(u32),
    /// `crate`.
    Crate,
    /// `::`.
    Abs,
    /// `$crate`, of a macro that this crate defines.
    DollarCrate(Crate),
}

/// A path by its kind and the names after it. A plain path has at least one name.
///
/// Stands for rust-analyzer's `ModPath`. Two paths are equal, and hash alike, where their kinds and names are.
#[derive(Debug)]
pub struct ModPath {
    kind: PathKind,
    segments: Vec<Name>,
}

// (Written out: what is derived is proved anew, field by field, in each crate that drops one.)
impl Drop for ModPath {
    fn drop(self) {
        let ModPath {
            kind: _,
            segments: _,
        } = self;
    }
}

impl Model for ModPath {
    ghost use Rattle.hir_input.specs.Path.{Path, HasWords};

    ghost Value = { Path };

    ghost view = { λ p. record { kind = p.kind; names = p.segments.items } };

    ghost invariant = { λ p. HasWords p.kind p.segments.items };
}

impl ModPath {
    /// The path of this kind with these names, or `None` for a plain path without names. rust-analyzer's
    /// `ModPath::from_segments`, which makes that path too.
    pub fn from_segments(kind: PathKind, segments: Vec<Name>) -> Option<ModPath>
        ensures { SomeIff result (HasWords kind segments.items)
            (record { kind = kind; names = segments.items }) }
    {
        if matches!(kind, PathKind::Plain) && segments.is_empty() {
            return None;
        }
        Some(ModPath { kind, segments })
    }

    /// What the path starts from. rust-analyzer's field `ModPath::kind`.
    pub fn kind(&self) -> PathKind
        ensures { result ≡ self.now.kind }
    {
        self.kind
    }

    /// The names, in order. rust-analyzer's `ModPath::segments`.
    pub fn segments(&self) -> &[Name]
        ensures value { result.now ≡ self.now.names }
        ensures words { HasWords self.now.kind result.now }
    {
        self.segments.as_slice()
    }
}

impl ModPath {
    /// The name of a plain path of one name. rust-analyzer's `ModPath::as_ident`.
    pub fn as_ident(&self) -> Option<&Name>
        ensures { option_map (λ name. name.now) result ≡ ident_of self.now }
    {
        match (self.kind, self.segments.as_slice()) {
            (PathKind::Plain, [name]) => Some(name),
            _ => None,
        }
    }
}

impl Clone for ModPath {
    ghost is_clone = { λ path copy. copy ≡ path };

    fn clone(&self) -> Result<ModPath, AllocError> {
        let kind = self.kind;
        let segments = self.segments.clone()?;
        Ok(ModPath { kind, segments })
    }
}

#[tactic(auto, using(crate::proofs::PathEq::names_decide))]
impl PartialEq for ModPath {
    ghost use Rattle.std.specs.Prelude.{nat_eq};
    ghost use Rattle.std.specs.Ordering.{on, eq_of_both};
    ghost use Rattle.std.specs.Cmp.Lexicographic.{pointwise, nat_list_eq_equiv};
    ghost use Rattle.std.specs.Cmp.Rules.{comparing};
    ghost use Rattle.hir_input.specs.contracts.mod_path.PathKindEq.TheImpl.Laws.{laws-law};

    ghost eq = { eq_of_both (on (λ p. p.kind) ⟦<PathKind as PartialEq>⟧.eq)
        (on (λ p. p.names) (pointwise (pointwise nat_eq))) };

    ghost laws = { Prim.search (comparing, nat_list_eq_equiv, laws-law) depth 7 };

    fn eq(&self, other: &ModPath) -> bool
        ensures decides { IsTrue result ↔ (self.now ≡ other.now) }
        ensures gives { let names = on (λ p. p.names) (pointwise (pointwise nat_eq)) in
            result ≡ eq_of_both (on (λ p. p.kind) ⟦<PathKind as PartialEq>⟧.eq) names self.now other.now }
    {
        self.kind() == other.kind() && self.segments() == other.segments()
    }
}

impl Eq for ModPath {
    ghost use Rattle.std.specs.Cmp.Lexicographic.{nat_list_eq_equiv};
    ghost use Rattle.std.specs.Cmp.Rules.{comparing};
    ghost use Rattle.hir_input.specs.contracts.mod_path.PathKindEq.TheImpl.Laws.{laws-law};

    ghost laws = { Prim.search (comparing, nat_list_eq_equiv, laws-law) depth 7 };
}

impl Hash for ModPath {
    ghost use Rattle.std.specs.Prelude.{◌++◌, nat_eq};
    ghost use Rattle.std.specs.Cmp.Lexicographic.{pointwise};
    ghost use Rattle.std.specs.Hash as fed;
    ghost use Rattle.hir_input.specs.contracts.mod_path.PathKindHash.TheImpl.Laws as kinds;
    ghost use Rattle.hir_input.specs.contracts.name.NameHash.TheImpl.Laws as names;

    ghost hash_input = { λ p. ⟦<PathKind as Hash>⟧.hash_input p.kind ++ fed.slice fed.str p.names };

    ghost respects_eq = { (fed.and-Alike
        (fed.on_Alike (λ p. p.kind) {E = ⟦<PathKind as PartialEq>⟧.eq} {F = ⟦<PathKind as Hash>⟧.hash_input}
        (record { fed = kinds.respects_eq-law }))
        (fed.on_Alike (λ p. p.names) (fed.items_Alike {E = pointwise nat_eq} {F = fed.str}
        (record { fed = names.respects_eq-law })))).fed };

    fn hash<H: Hasher>(&self, state: &mut H) {
        self.kind().hash(state);
        self.segments().hash(state);
    }
}
