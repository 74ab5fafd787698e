//! Lists.

ghost use Rattle.std.specs.Prelude.{◌≡◌, ◌++◌, MatchResult, option_to_list};

use std::alloc::AllocError;

/// Adds to a list what was read, if there is something.
///
/// # Errors
///
/// Only if memory runs out. Then the list is as it was.
pub fn push_some<T: Drop>(list: &mut Vec<T>, item: Option<T>) -> Result<(), AllocError>
    ensures { MatchResult result (λ _. list.new.items ≡ list.old.items ++ option_to_list item)
        (λ _. list.new.items ≡ list.old.items) }
{
    match item {
        Some(item) => {
            list.push(item)?;
            Ok(())
        }
        None => Ok(()),
    }
}
