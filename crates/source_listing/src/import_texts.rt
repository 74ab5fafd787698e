//! Imports as text.
ghost use Rattle.std.specs.Prelude.{◌≡◌, ◌++◌, OnErr, OnOk, string_bytes};
ghost use Rattle.item_tree.specs.UseText.{shown_rename};
ghost use Rattle.source_listing.specs.ImportTexts.{import_text};

use hir_input::Edition;
use item_tree::{ImportAlias, ImportKind};
use std::alloc::AllocError;
use tree_walk::Listed;

pub(crate) fn push_rename(
    edition: &Edition,
    alias: &Option<ImportAlias>,
    out: &mut String,
) -> Result<(), AllocError>
    ensures { let text = shown_rename edition.now.reserved.items alias.now in
        OnOk result (string_bytes out.new ≡ string_bytes out.old ++ text) }
{
    match alias {
        None => Ok(()),
        Some(ImportAlias::Underscore) => out.push_str(" as _"),
        Some(ImportAlias::Alias(name)) => {
            let name = name.display(edition);
            write!(out, " as {name}")
        }
    }
}

fn push_import_parts(edition: &Edition, import: &Listed, out: &mut String) -> Result<(), AllocError>
    ensures { let text = import_text edition.now.reserved.items import.now.kind import.now.path
        import.now.alias in
        OnOk result (string_bytes out.new ≡ string_bytes out.old ++ text) }
{
    let path = import.path.display(edition);
    write!(out, "{path}")?;
    match import.kind {
        ImportKind::Plain => push_rename(edition, &import.alias, out),
        ImportKind::Glob => out.push_str("::*"),
        ImportKind::TypeOnly => {
            out.push_str("::{self")?;
            push_rename(edition, &import.alias, out)?;
            out.push_str("}")
        }
    }
}

/// Adds an import as a use of it alone would be written.
///
/// # Errors
///
/// Only if memory runs out. Then the text stays as it was.
pub fn push_import_text(
    edition: &Edition,
    import: &Listed,
    out: &mut String,
) -> Result<(), AllocError>
    ensures text { let text = import_text edition.now.reserved.items import.now.kind import.now.path
        import.now.alias in
        OnOk result (string_bytes out.new ≡ string_bytes out.old ++ text) }
    ensures same { OnErr result (string_bytes out.new ≡ string_bytes out.old) }
{
    // What a display leaves where memory runs out is not told: so a text of its own.
    let mut text = String::new(*out.allocator());
    push_import_parts(edition, import, &mut text)?;
    out.push_str(&text)
}
