//! What holds of the types here. The functions do nothing.
ghost use Rattle.hir_input.specs.Equality.{DecidesEq, IsByValue, IsCopied, IsKey};

use crate::closure::ClosureError;
use crate::def_map::DefMapError;
use crate::kinds::{Namespace, Visibility};
use crate::numbers::NumbersError;
use crate::rows::ItemKey;
use crate::seeds::SeedsError;
use crate::sources::CrateSources;
use crate::targets::Target;
use crate::verdict::Verdict;
use std::hash::Hash;

// `==` is true exactly where two keys are one, a copy is its source, and equal keys are hashed alike.
fn item_keys()
    ensures { IsKey ⟦<ItemKey as PartialEq>⟧.eq ⟦<ItemKey as Clone>⟧.is_clone ⟦<ItemKey as Hash>⟧.hash_input }
{}

fn targets()
    ensures { IsKey ⟦<Target as PartialEq>⟧.eq ⟦<Target as Clone>⟧.is_clone ⟦<Target as Hash>⟧.hash_input }
{}

// The same of who sees a name, and in which namespace.
fn kinds()
    ensures namespaces { IsKey ⟦<Namespace as PartialEq>⟧.eq ⟦<Namespace as Clone>⟧.is_clone
        ⟦<Namespace as Hash>⟧.hash_input }
    ensures visibilities { IsKey ⟦<Visibility as PartialEq>⟧.eq ⟦<Visibility as Clone>⟧.is_clone
        ⟦<Visibility as Hash>⟧.hash_input }
{}

fn verdicts()
    ensures { IsByValue ⟦<Verdict as PartialEq>⟧.eq ⟦<Verdict as Clone>⟧.is_clone }
{}

fn copies()
    ensures sources { IsCopied ⟦<CrateSources<'static> as Clone>⟧.is_clone }
{}

fn refusals()
    ensures errors { IsByValue ⟦<DefMapError as PartialEq>⟧.eq ⟦<DefMapError as Clone>⟧.is_clone }
    ensures closures { IsByValue ⟦<ClosureError as PartialEq>⟧.eq ⟦<ClosureError as Clone>⟧.is_clone }
    ensures numbers { DecidesEq ⟦<NumbersError as PartialEq>⟧.eq }
    ensures numbers_copied { IsCopied ⟦<NumbersError as Clone>⟧.is_clone }
    ensures seeds { DecidesEq ⟦<SeedsError as PartialEq>⟧.eq }
    ensures seeds_copied { IsCopied ⟦<SeedsError as Clone>⟧.is_clone }
{}
