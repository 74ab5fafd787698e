//! What a path means below another.
ghost use Rattle.std.specs.Prelude.{◌≡◌, ◌+◌, ◌≤◌, ◌++◌, [], ◌∷◌, IfOk, IfSome, MatchOption, Some, None};
ghost use Rattle.hir_input.specs.Path.{HasWords};
ghost use Rattle.hir_input.specs.Words.{words, read_words};
ghost use Rattle.item_tree.specs.Inner.Expanding.{chain_of, supers_before, joined_kind};
ghost use Rattle.item_tree.specs.Imports.{super_count, supers_in, super_limit, is_self, read_chain, read_below};
ghost use Rattle.item_tree.specs.Imports.{read_star, kind_below};

use crate::use_tree::ImportKind;
use hir_input::{ModPath, Name, PathKind};
use std::alloc::{AllocError, Global};

/// The path that is meant, if one is.
type MeantPath = Result<Option<ModPath>, AllocError>;

// The names of `front`, and then those of `back`.
fn joined_names(alloc: Global, front: &[Name], back: &[Name]) -> Result<Vec<Name>, AllocError>
    ensures { IfOk result (λ names. names.items ≡ front.now ++ back.now) }
{
    let mut names = front.to_vec(alloc)?;
    names.extend_from_slice(back)?;
    Ok(names)
}

// The kind of what a path of kind `back` means behind one of kind `front` with these names.
fn joined_kind(front: PathKind, names: &[Name], back: PathKind) -> Option<PathKind>
    requires { super_count front + super_count back ≤ super_limit }
    ensures kind { result ≡ joined_kind front names.now back }
    ensures supers { IfSome result
        (λ kind. super_count kind ≡ super_count front + super_count back) }
{
    match (front, back) {
        (front, PathKind::Plain) => Some(front),
        (PathKind::Super(above), PathKind::Super(more)) if more > 0 && names.is_empty() => {
            Some(PathKind::Super(above + more))
        }
        _ => None,
    }
}

// The path that the words of `before` and then those of `path` mean, if they mean one.
#[tactic(auto, using(crate::proofs::Joins::read_join, crate::proofs::Joins::joined_made))]
fn join(alloc: Global, before: &ModPath, path: &ModPath) -> MeantPath
    requires { super_count before.now.kind + super_count path.now.kind ≤ super_limit }
    ensures reads { IfOk result
        (λ joined. joined ≡ read_words (words before.now ++ words path.now)) }
    ensures supers { IfOk result
        (λ joined. IfSome joined
        (λ q. super_count q.kind ≡ super_count before.now.kind + super_count path.now.kind)) }
    ensures words { HasWords path.now.kind path.now.names }
{
    let front = before.segments();
    let back = path.segments();
    let Some(kind) = joined_kind(before.kind(), front, path.kind()) else {
        return Ok(None);
    };
    let names = joined_names(alloc, front, back)?;
    Ok(ModPath::from_segments(kind, names))
}

// The path that the words of `path` mean.
#[tactic(auto, using(crate::proofs::Chains::read_chain_alone))]
fn meant_path(alloc: Global, path: &ModPath) -> MeantPath
    ensures reads { IfOk result (λ alone. alone ≡ read_chain (path.now ∷ [])) }
    ensures supers { IfOk result
        (λ alone. IfSome alone (λ q. super_count q.kind ≡ super_count path.now.kind)) }
    ensures words { HasWords path.now.kind path.now.names }
{
    let names = path.segments().to_vec(alloc)?;
    Ok(ModPath::from_segments(path.kind(), names))
}

// The path that `path` means as a prefix below `before`, if it means one.
#[tactic(auto, using(crate::proofs::Chains::read_chain_both))]
pub(crate) fn join_below(alloc: Global, before: Option<&ModPath>, path: &ModPath) -> MeantPath
    requires { supers_before before + super_count path.now.kind ≤ super_limit }
    ensures reads { IfOk result
        (λ joined. joined ≡ read_chain (chain_of before.entry ++ path.now ∷ [])) }
    ensures supers { IfOk result
        (λ joined. IfSome joined
        (λ q. super_count q.kind ≡ supers_before before.entry + super_count path.now.kind)) }
    ensures words { HasWords path.now.kind path.now.names }
{
    match before {
        None => meant_path(alloc, path),
        Some(before) => join(alloc, before, path),
    }
}

// Whether the path is `self` alone.
fn is_self(path: &ModPath) -> bool
    ensures { result ≡ is_self path.now }
{
    path.kind() == PathKind::Super(0) && path.segments().is_empty()
}

// The path that `path` means as a leaf below `before`, if it means one.
pub(crate) fn meaning(alloc: Global, before: Option<&ModPath>, path: &ModPath) -> MeantPath
    requires { supers_before before + super_count path.now.kind ≤ super_limit }
    ensures { IfOk result (λ meaning. meaning
        ≡ read_below (is_self path.now) (chain_of before.entry) path.now) }
{
    match before {
        Some(before) if is_self(path) => meant_path(alloc, before),
        _ => join_below(alloc, before, path),
    }
}

// The path that a star below `before` means, with a path in front of it or none.
pub(crate) fn star_meaning(
    alloc: Global,
    before: Option<&ModPath>,
    path: &Option<ModPath>,
) -> MeantPath
    requires { supers_before before + supers_in path.now ≤ super_limit }
    ensures { IfOk result (λ meaning. meaning ≡ read_star (chain_of before.entry) path.now) }
{
    match path {
        Some(path) => meaning(alloc, before, path),
        None => match before {
            Some(before) => meant_path(alloc, before),
            None => Ok(None),
        },
    }
}

// How `path` is imported as a leaf below `before`.
pub(crate) fn import_kind(before: Option<&ModPath>, path: &ModPath) -> ImportKind
    ensures { result ≡ kind_below (is_self path.now) (chain_of before.entry) }
{
    if before.is_some() && is_self(path) {
        ImportKind::TypeOnly
    } else {
        ImportKind::Plain
    }
}
