//! The files that the crates of a package begin with.
ghost use Rattle.std.specs.Prelude.{◌≡◌, ◌∷◌, [], if◌then◌else◌, IfOk, codes, map};
ghost use Rattle.std.specs.Prelude.{option_copied, option_map, string_bytes, unwrap_or};
ghost use Rattle.std.specs.List.{list_any};
ghost use Rattle.toml.specs.View.{table_view, view};
ghost use Rattle.cargo_manifest.specs.declared.error.Expected.TheVariants.{Tables};
ghost use Rattle.cargo_manifest.specs.Dependencies.{rust_name as rust_name_of};
ghost use Rattle.cargo_manifest.specs.Inner.{ReadsAs, package_fields_view};
ghost use Rattle.cargo_manifest.specs.Readings.{items_value, value_read};
ghost use Rattle.cargo_manifest.specs.Roots as spec;
ghost use Rattle.cargo_manifest.specs.Views.{root_view, texts_view};

use crate::error::{Expected, ManifestError, in_key};
use crate::features::is_text_among;
use crate::package_fields::Fields;
use crate::read::{items_of, member, misfit, required_text, table_of, text_at};
use crate::texts::{only, rust_name, text_between};
use hir_input::EditionYear;
use std::alloc::{AllocError, Global};
use toml::{Table, Value};

/// What a crate of a package is.
#[derive(Clone, Copy, Debug, PartialEq, Eq)]
pub enum RootKind {
    Library,
    Binary,
}

/// The file that a crate begins with, as far as a manifest tells it.
#[derive(Debug, Drop)]
pub struct Root {
    pub kind: RootKind,
    /// The name of the crate: of a library as Rust has it, of a binary as the manifest has it.
    pub name: String,
    /// Where the file may be, from the folder of the manifest. If there is more than one path, exactly one has a file.
    pub paths: Vec<String>,
    /// Whether the manifest declares it. Then there has to be a file; else there is a crate only if there is one.
    pub is_declared: bool,
}

fn library_name(alloc: Global, package_name: &str, name: Option<&str>) -> Result<String, AllocError>
    ensures { IfOk result (λ text. string_bytes text
        ≡ unwrap_or (option_copied name.entry) (rust_name_of package_name.now)) }
{
    match name {
        Some(name) => String::from_str(alloc, name),
        None => rust_name(alloc, package_name),
    }
}

fn library_root(
    alloc: Global,
    package_name: &str,
    name: Option<&str>,
    path: Option<&str>,
    is_declared: bool,
) -> Result<Root, AllocError>
    ensures { IfOk result (λ root. root_view root
        ≡ spec.library_root package_name.now (option_copied name.entry) (option_copied path.entry) is_declared) }
{
    Ok(Root {
        kind: RootKind::Library,
        name: library_name(alloc, package_name, name)?,
        paths: only(alloc, path.unwrap_or("src/lib.rs"))?,
        is_declared,
    })
}

fn library_of(alloc: Global, package_name: &str, value: &Value) -> Result<Root, ManifestError>
    ensures { ReadsAs root_view result (spec.library_value package_name.now (view value.now)) }
{
    let table = table_of(alloc, value)?;
    let name = text_at(alloc, table, "name")?;
    let path = text_at(alloc, table, "path")?;
    Ok(library_root(alloc, package_name, name, path, true)?)
}

// The library that `[lib]` declares.
pub(crate) fn library_at(
    alloc: Global,
    package_name: &str,
    table: &Table,
) -> Result<Option<Root>, ManifestError>
    ensures { ReadsAs (option_map root_view) result
        (value_read (codes "lib") (spec.library_value package_name.now) (table_view table.now)) }
{
    match member(table, "lib") {
        Some(value) => Ok(Some(in_key(alloc, "lib", library_of(alloc, package_name, value))?)),
        None => Ok(None),
    }
}

fn main_paths(alloc: Global, is_main: bool) -> Result<Vec<String>, AllocError>
    ensures { IfOk result (λ paths. texts_view paths ≡ (if is_main then spec.main_path ∷ [] else [])) }
{
    if is_main {
        only(alloc, "src/main.rs")
    } else {
        Ok(Vec::new(alloc))
    }
}

fn binary_paths(
    alloc: Global,
    package_name: &str,
    name: &str,
    path: Option<&str>,
) -> Result<Vec<String>, AllocError>
    ensures { IfOk result (λ paths. texts_view paths
        ≡ spec.binary_paths package_name.now name.now (option_copied path.entry)) }
{
    if let Some(path) = path {
        return only(alloc, path);
    }
    let mut paths = main_paths(alloc, name == package_name)?;
    paths.push(text_between(alloc, "src/bin/", name, ".rs")?)?;
    paths.push(text_between(alloc, "src/bin/", name, "/main.rs")?)?;
    Ok(paths)
}

fn binary_of(alloc: Global, package_name: &str, value: &Value) -> Result<Root, ManifestError>
    ensures { ReadsAs root_view result (spec.binary_value package_name.now (view value.now)) }
{
    let table = value
        .as_table()
        .ok_or_else(|| misfit(alloc, Expected::Tables))?;
    let name = required_text(alloc, table, "name")?;
    let path = text_at(alloc, table, "path")?;
    Ok(Root {
        kind: RootKind::Binary,
        name: String::from_str(alloc, name)?,
        paths: binary_paths(alloc, package_name, name, path)?,
        is_declared: true,
    })
}

fn binaries_of(alloc: Global, package_name: &str, value: &Value) -> Result<Vec<Root>, ManifestError>
    ensures { ReadsAs (λ v. map root_view v.items) result
        (items_value Tables (spec.binary_value package_name.now) (view value.now)) }
{
    let items = items_of(alloc, value, Expected::Tables)?;
    let mut found = Vec::with_capacity(alloc, items.len())?;
    for item in items {
        let root = binary_of(alloc, package_name, item)?;
        found.push(root)?;
    }
    Ok(found)
}

// The binaries that `[[bin]]` declares.
pub(crate) fn binaries_at(
    alloc: Global,
    package_name: &str,
    table: &Table,
) -> Result<Option<Vec<Root>>, ManifestError>
    ensures { ReadsAs (option_map (λ v. map root_view v.items)) result
        (value_read (codes "bin") (items_value Tables (spec.binary_value package_name.now)) (table_view table.now)) }
{
    match member(table, "bin") {
        Some(value) => Ok(Some(in_key(alloc, "bin", binaries_of(alloc, package_name, value))?)),
        None => Ok(None),
    }
}

// Whether binaries are looked for that are not declared.
pub(crate) fn finds_binaries(fields: &Fields<'_>, declares: bool) -> bool
    ensures { result ≡ spec.finds_binaries (package_fields_view fields.now) declares }
{
    match fields.autobins {
        Some(finds) => finds,
        None => !declares || fields.edition != Some(EditionYear::E2015),
    }
}

fn is_main(package_name: &str, root: &Root) -> bool
    ensures { result ≡ spec.is_main package_name.now (root_view root.now) }
{
    root.name.as_str() == package_name || is_text_among(&root.paths, "src/main.rs")
}

fn has_main(package_name: &str, roots: &[Root]) -> bool
    ensures { result ≡ list_any (spec.is_main package_name.now) (map root_view roots.now) }
{
    roots.iter().any(|root| is_main(package_name, root))
}

fn main_root(alloc: Global, package_name: &str) -> Result<Root, AllocError>
    ensures { IfOk result (λ root. root_view root ≡ spec.main_root package_name.now) }
{
    Ok(Root {
        kind: RootKind::Binary,
        name: String::from_str(alloc, package_name)?,
        paths: only(alloc, "src/main.rs")?,
        is_declared: false,
    })
}

fn library_roots(
    alloc: Global,
    fields: &Fields<'_>,
    declared: Option<Root>,
) -> Result<Vec<Root>, AllocError>
    ensures { IfOk result (λ roots. map root_view roots.items
        ≡ spec.library_roots (package_fields_view fields.now) (option_map root_view declared)) }
{
    let mut roots = Vec::new(alloc);
    if let Some(root) = declared {
        roots.push(root)?;
        return Ok(roots);
    }
    if fields.autolib.unwrap_or(true) {
        roots.push(library_root(alloc, fields.name, None, None, false)?)?;
    }
    Ok(roots)
}

// All roots, behind the library's.
pub(crate) fn roots_of(
    alloc: Global,
    fields: &Fields<'_>,
    library: Option<Root>,
    mut declared: Vec<Root>,
    finds: bool,
) -> Result<Vec<Root>, AllocError>
    ensures { IfOk result (λ roots. map root_view roots.items ≡ spec.roots_of (package_fields_view fields.now)
        (option_map root_view library) (map root_view declared.items) finds) }
{
    let has_main = has_main(fields.name, &declared);
    let mut roots = library_roots(alloc, fields, library)?;
    roots.append(&mut declared)?;
    if finds && !has_main {
        roots.push(main_root(alloc, fields.name)?)?;
    }
    Ok(roots)
}
