//! The names that something stands in.
ghost use Rattle.std.specs.Prelude.{◌≡◌, ◌++◌, IfOk, map, option_copied, option_to_list};

use hir_input::Name;
use std::alloc::{AllocError, Global};
use tree_walk::Row;

/// The same names, lent for no longer.
///
/// # Errors
///
/// Only if memory runs out.
pub fn names_in<'r: 'a, 'a>(alloc: Global, scope: &[&'r Name]) -> Result<Vec<&'a Name>, AllocError>
    ensures { IfOk result (λ v. map (λ n. n.now) v.items ≡ map (λ n. n.now) scope.now) }
{
    let mut names = Vec::with_capacity(alloc, scope.len())?;
    for name in scope {
        names.push(*name)?;
    }
    Ok(names)
}

/// The modules around an item, and what its members stand in.
///
/// # Errors
///
/// Only if memory runs out.
pub fn names_around<'r: 'a, 'a>(
    alloc: Global,
    row: &Row<'r>,
    name: Option<&'a Name>,
) -> Result<Vec<&'a Name>, AllocError>
    ensures { let names = map (λ n. n.now) row.now.scope.value.items
        ++ option_to_list (option_copied name.entry) in
        IfOk result (λ v. map (λ n. n.now) v.items ≡ names) }
{
    let mut names = names_in(alloc, row.scope.as_slice())?;
    if let Some(name) = name {
        names.push(name)?;
    }
    Ok(names)
}
