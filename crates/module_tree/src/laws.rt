//! What holds of the modules of every crate, and of the types here. The functions do nothing.
ghost use Rattle.std.specs.Prelude.{◌≡◌};
ghost use Rattle.hir_input.specs.Equality.{DecidesEq, IsCopied};
ghost use Rattle.module_tree.specs.Laws.{EndsOnceKnown, FoundStays, WantsUnknown};
ghost use Rattle.module_tree.specs.Modules.{most_modules};

use crate::data::{
    MOST_MODULES, ModuleChoice, ModuleId, ModuleOrigin, ModuleTreeError, UnresolvedReason,
};
use crate::known::KnownPath;

// Nothing is known of a path that is wanted.
fn wanted_is_unknown()
    ensures { WantsUnknown }
{}

// When more is known, what was found stays found; once no path is wanted, nothing changes.
fn known_more()
    ensures stays { FoundStays }
    ensures ends { EndsOnceKnown }
{}

fn limit()
    ensures { MOST_MODULES ≡ most_modules }
{}

// `==` is true exactly where two values are one.
fn equal_values()
    ensures ids { DecidesEq ⟦<ModuleId as PartialEq>⟧.eq }
    ensures origins { DecidesEq ⟦<ModuleOrigin as PartialEq>⟧.eq }
    ensures reasons { DecidesEq ⟦<UnresolvedReason as PartialEq>⟧.eq }
    ensures choices { DecidesEq ⟦<ModuleChoice as PartialEq>⟧.eq }
    ensures errors { DecidesEq ⟦<ModuleTreeError as PartialEq>⟧.eq }
    ensures known { DecidesEq ⟦<KnownPath as PartialEq>⟧.eq }
{}

// A copy is its source.
fn copies()
    ensures ids { IsCopied ⟦<ModuleId as Clone>⟧.is_clone }
    ensures origins { IsCopied ⟦<ModuleOrigin as Clone>⟧.is_clone }
    ensures reasons { IsCopied ⟦<UnresolvedReason as Clone>⟧.is_clone }
    ensures choices { IsCopied ⟦<ModuleChoice as Clone>⟧.is_clone }
    ensures errors { IsCopied ⟦<ModuleTreeError as Clone>⟧.is_clone }
    ensures known { IsCopied ⟦<KnownPath as Clone>⟧.is_clone }
{}
