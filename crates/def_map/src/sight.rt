//! Which modules stand in which, and who sees what.
ghost use Rattle.std.specs.Prelude.{◌≡◌};
ghost use Rattle.def_map.specs.Crates as spec;

use crate::kinds::Visibility;

/// The module that a module stands in.
pub(crate) fn parent_of(parents: &[Option<u32>], m: u32) -> Option<u32>
    ensures { result ≡ spec.parent_of parents.now m }
{
    *parents.get(m as usize)?
}

/// The module that stands so many modules above.
pub(crate) fn module_above(parents: &[Option<u32>], count: u32, m: u32) -> Option<u32>
    ensures { result ≡ spec.module_above parents.now count m }
{
    let mut above = m;
    for _ in 0..count {
        above = parent_of(parents, above)?;
    }
    Some(above)
}

/// Whether a module is another or in it.
pub(crate) fn is_within(parents: &[Option<u32>], m: u32, other: u32) -> bool
    ensures { result ≡ spec.is_module_within parents.now m other }
{
    let mut at = m;
    for _ in 0..m {
        if at == other {
            return true;
        }
        let Some(parent) = parent_of(parents, at) else {
            return false;
        };
        at = parent;
    }
    at == other
}

/// Whether what is so visible is seen in a module.
pub(crate) fn sees(parents: &[Option<u32>], m: u32, visibility: Visibility) -> bool
    ensures { result ≡ spec.module_sees parents.now m visibility }
{
    match visibility {
        Visibility::Public => true,
        Visibility::Module(other) => is_within(parents, m, other),
    }
}

/// The smaller of two visibilities.
pub(crate) fn smaller_visibility(
    parents: &[Option<u32>],
    a: Visibility,
    b: Visibility,
) -> Visibility
    ensures { result ≡ spec.narrower parents.now a b }
{
    match (a, b) {
        (Visibility::Public, other) => other,
        (Visibility::Module(m), Visibility::Public) => Visibility::Module(m),
        (Visibility::Module(m), Visibility::Module(other)) => {
            if is_within(parents, m, other) {
                Visibility::Module(m)
            } else {
                Visibility::Module(other)
            }
        }
    }
}
