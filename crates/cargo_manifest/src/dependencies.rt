//! The crates that a package knows.
ghost use Rattle.std.specs.Prelude.{◌≡◌, IfOk, map, option_copied};
ghost use Rattle.toml.specs.Data.{as_str, as_table};
ghost use Rattle.toml.specs.View.{table_view, view};
ghost use Rattle.cargo_manifest.specs.Dependencies as spec;
ghost use Rattle.cargo_manifest.specs.Inner.{ReadsAs, section_view, workspace_view};
ghost use Rattle.cargo_manifest.specs.Readings.{each_member, table_members};
ghost use Rattle.cargo_manifest.specs.Views.{dependency_view};

use crate::error::{Expected, ManifestError, in_key};
use crate::read::{flag_at, misfit, table_at, table_of, text_at, workspace_value};
use crate::texts::{copy_of, rust_name};
use std::alloc::{AllocError, Global};
use toml::{Table, Value};

/// What a dependency is for.
#[derive(Clone, Copy, Debug, PartialEq, Eq)]
pub enum DependencyKind {
    /// For the package's crates: of `[dependencies]`.
    Normal,
    /// For its tests, examples and benchmarks too: of `[dev-dependencies]`.
    Development,
    /// For its build script alone: of `[build-dependencies]`.
    Build,
}

/// A crate that a package knows.
#[derive(Debug, Drop)]
pub struct Dependency {
    /// Its key in the manifest.
    pub key: String,
    /// The key as Rust has it, with `_` in the place of `-`. The crate is known by it, unless it is not renamed and its
    /// own manifest names its library otherwise.
    pub name: String,
    /// The name of its package, where a `package` tells it: the dependency is renamed. It is that of the workspace
    /// where the dependency is `workspace = true` and the workspace's file is given.
    pub package_name: Option<String>,
    pub kind: DependencyKind,
    /// The triple or the `cfg(..)` of the `[target]` that it is for.
    pub target: Option<String>,
    pub is_optional: bool,
}

// Where dependencies stand.
#[derive(Clone, Copy)]
pub(crate) struct Section<'a> {
    pub(crate) workspace: Option<&'a Table>,
    pub(crate) kind: DependencyKind,
    pub(crate) target: Option<&'a str>,
}

fn make_dependency(
    alloc: Global,
    section: &Section<'_>,
    key: &str,
    package_name: Option<&str>,
    is_optional: bool,
) -> Result<Dependency, AllocError>
    ensures { IfOk result (λ d. dependency_view d
        ≡ spec.known_crate (section_view section.now) key.now (option_copied package_name.entry) is_optional) }
{
    Ok(Dependency {
        key: String::from_str(alloc, key)?,
        name: rust_name(alloc, key)?,
        package_name: copy_of(alloc, package_name)?,
        kind: section.kind,
        target: copy_of(alloc, section.target)?,
        is_optional,
    })
}

// The package that the workspace has for a dependency.
fn workspace_package<'w>(workspace: Option<&'w Table>, key: &str) -> Option<&'w str>
    ensures { option_copied result ≡ spec.workspace_package (workspace_view workspace.entry) key.now }
{
    workspace_value(workspace, "dependencies")?
        .get(key)?
        .get("package")?
        .as_str()
}

fn detailed_dependency(
    alloc: Global,
    section: &Section<'_>,
    key: &str,
    table: &Table,
) -> Result<Dependency, ManifestError>
    ensures { ReadsAs dependency_view result
        (spec.detailed_crate (section_view section.now) key.now (table_view table.now)) }
{
    let inherits = flag_at(alloc, table, "workspace")?.unwrap_or(false);
    let package_name = text_at(alloc, table, "package")?;
    let is_optional = flag_at(alloc, table, "optional")?.unwrap_or(false);
    if inherits {
        let package_name = workspace_package(section.workspace, key);
        return Ok(make_dependency(alloc, section, key, package_name, is_optional)?);
    }
    Ok(make_dependency(alloc, section, key, package_name, is_optional)?)
}

fn dependency_of(
    alloc: Global,
    section: &Section<'_>,
    key: &str,
    value: &Value,
) -> Result<Dependency, ManifestError>
    ensures { let d = view value.now in ReadsAs dependency_view result
        (spec.dependency_by (section_view section.now) key.now (as_str d) (as_table d)) }
{
    if let Some(_version) = value.as_str() {
        return Ok(make_dependency(alloc, section, key, None, false)?);
    }
    match value.as_table() {
        Some(table) => detailed_dependency(alloc, section, key, table),
        None => Err(misfit(alloc, Expected::Dependency)),
    }
}

// The dependencies of a section's table.
fn dependencies_of(
    alloc: Global,
    section: &Section<'_>,
    table: &Table,
) -> Result<Vec<Dependency>, ManifestError>
    ensures { ReadsAs (λ v. map dependency_view v.items) result
        (each_member (spec.dependency_at (section_view section.now)) (table_view table.now)) }
{
    let mut found = Vec::new(alloc);
    for (key, value) in table.iter() {
        let one = in_key(alloc, key, dependency_of(alloc, section, key, value))?;
        found.push(one)?;
    }
    Ok(found)
}

// Those of a section, which may be absent.
fn section_at(
    alloc: Global,
    section: &Section<'_>,
    key: &str,
    table: &Table,
) -> Result<Vec<Dependency>, ManifestError>
    ensures { ReadsAs (λ v. map dependency_view v.items) result
        (table_members key.now (spec.dependency_at (section_view section.now)) (table_view table.now)) }
{
    match table_at(alloc, table, key)? {
        Some(inside) => in_key(alloc, key, dependencies_of(alloc, section, inside)),
        None => Ok(Vec::new(alloc)),
    }
}

fn sections(
    alloc: Global,
    workspace: Option<&Table>,
    target: Option<&str>,
    table: &Table,
) -> Result<Vec<Dependency>, ManifestError>
    ensures { ReadsAs (λ v. map dependency_view v.items) result
        (spec.sections (workspace_view workspace.entry) (option_copied target.entry) (table_view table.now)) }
{
    let normal = Section {
        workspace,
        kind: DependencyKind::Normal,
        target,
    };
    let development = Section {
        kind: DependencyKind::Development,
        ..normal
    };
    let build = Section {
        kind: DependencyKind::Build,
        ..normal
    };
    let mut all = section_at(alloc, &normal, "dependencies", table)?;
    let mut more = section_at(alloc, &development, "dev-dependencies", table)?;
    let mut most = section_at(alloc, &build, "build-dependencies", table)?;
    all.append(&mut more)?;
    all.append(&mut most)?;
    Ok(all)
}

fn of_target(
    alloc: Global,
    workspace: Option<&Table>,
    target: &str,
    value: &Value,
) -> Result<Vec<Dependency>, ManifestError>
    ensures { ReadsAs (λ v. map dependency_view v.items) result
        (spec.target_sections (workspace_view workspace.entry) target.now (view value.now)) }
{
    sections(alloc, workspace, Some(target), table_of(alloc, value)?)
}

fn of_targets(
    alloc: Global,
    workspace: Option<&Table>,
    table: &Table,
) -> Result<Vec<Dependency>, ManifestError>
    ensures { ReadsAs (λ v. map dependency_view v.items) result
        (each_member (spec.target_sections (workspace_view workspace.entry)) (table_view table.now)) }
{
    let mut all = Vec::new(alloc);
    for (target, value) in table.iter() {
        let mut found = in_key(alloc, target, of_target(alloc, workspace, target, value))?;
        all.append(&mut found)?;
    }
    Ok(all)
}

// All that a manifest has.
pub(crate) fn dependencies_in(
    alloc: Global,
    workspace: Option<&Table>,
    table: &Table,
) -> Result<Vec<Dependency>, ManifestError>
    ensures { ReadsAs (λ v. map dependency_view v.items) result
        (spec.dependencies_in (workspace_view workspace.entry) (table_view table.now)) }
{
    let mut all = sections(alloc, workspace, None, table)?;
    let Some(targets) = table_at(alloc, table, "target")? else {
        return Ok(all);
    };
    let mut some = in_key(alloc, "target", of_targets(alloc, workspace, targets))?;
    all.append(&mut some)?;
    Ok(all)
}
