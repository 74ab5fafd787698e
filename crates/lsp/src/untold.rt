//! Documents whose problems are not told yet, by their names.
ghost use Rattle.std.specs.Prelude.{◌≡◌, OnOk, map, string_bytes};
ghost use Rattle.lsp.specs.Untold as spec;

use std::alloc::AllocError;

/// Takes a name out.
pub(crate) fn take_name(names: &mut Vec<String>, uri: &str)
    ensures { map string_bytes names.new.items ≡ spec.without_name (map string_bytes names.old.items) uri.now }
{
    names.retain(|name| name.as_str() != uri);
}

/// Puts a name behind the others, once.
///
/// # Errors
///
/// Only if memory runs out.
pub(crate) fn put_name(names: &mut Vec<String>, name: String) -> Result<(), AllocError>
    ensures { OnOk result (map string_bytes names.new.items
        ≡ spec.with_name_last (map string_bytes names.old.items) (string_bytes name)) }
{
    take_name(names, &name);
    names.push(name)?;
    Ok(())
}
