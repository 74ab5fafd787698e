//! Paths of names, with two colons before each, as `::a::b`.
ghost use Rattle.std.specs.Prelude.{◌≡◌, ◌++◌, OnOk, string_bytes, flat_map};
ghost use Rattle.source_listing.specs.Paths as spec;
ghost use Rattle.source_rows.specs.Sources.{BeginsWith};

use hir_input::Name;
use std::alloc::AllocError;

/// Adds two colons and a name.
///
/// # Errors
///
/// Only if memory runs out. A part of them may then be added.
#[tactic(auto, using(source_rows::proofs::GrowingTexts::longer, source_rows::proofs::GrowingTexts::itself))]
pub fn push_segment(name: &str, path: &mut String) -> Result<(), AllocError>
    ensures text { OnOk result (string_bytes path.new ≡ string_bytes path.old
        ++ spec.bare_segment name.now) }
    ensures longer { BeginsWith (string_bytes path.old) (string_bytes path.new) }
{
    path.push_str("::")?;
    path.push_str(name)
}

/// Adds names, each behind two colons.
///
/// # Errors
///
/// Only if memory runs out. A part of them may then be added.
#[tactic(auto, using(crate::proofs::PushedTexts::grown, crate::proofs::PushedTexts::grown_on))]
pub fn push_scope(scope: &[&Name], path: &mut String) -> Result<(), AllocError>
    ensures text { let segments = flat_map (λ n. spec.bare_segment n.now) scope.now in
        OnOk result (string_bytes path.new ≡ string_bytes path.old ++ segments) }
    ensures longer { BeginsWith (string_bytes path.old) (string_bytes path.new) }
{
    for name in scope {
        push_segment(name.text(), path)?;
    }
    Ok(())
}

/// Whether a path is the one that is looked for, or ends as that does where it may begin anywhere.
pub fn is_sought_path(sought: &str, is_anywhere: bool, path: &str) -> bool
    ensures { result ≡ spec.is_sought_path sought.now is_anywhere path.now }
{
    if is_anywhere {
        path.as_bytes().ends_with(sought.as_bytes())
    } else {
        path == sought
    }
}
