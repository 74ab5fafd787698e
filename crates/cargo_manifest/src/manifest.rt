//! A manifest, read.
ghost use Rattle.std.specs.Prelude.{◌≡◌, IfOk, map, option_copied, option_map};
ghost use Rattle.toml.specs.{Parse.parse_document, View.table_view};
ghost use Rattle.cargo_manifest.specs.Inner.{ReadsAs, package_fields_view, workspace_view};
ghost use Rattle.cargo_manifest.specs.Manifests as spec;
ghost use Rattle.cargo_manifest.specs.Readings.{no_toml};
ghost use Rattle.cargo_manifest.specs.Views.{dependency_view, feature_view, manifest_view, root_view, roots_view};

use crate::dependencies::{Dependency, dependencies_in};
use crate::error::{ManifestError, in_key};
use crate::features::{Feature, add_all_implied, written_features};
use crate::package_fields::{Fields, fields_of};
use crate::read::member;
use crate::roots::{Root, binaries_at, finds_binaries, library_at, roots_of};
use hir_input::EditionYear;
use std::alloc::{AllocError, Global};
use toml::Table;

/// What a manifest tells of its package.
#[derive(Debug, Drop)]
pub struct Manifest {
    /// The name of the package.
    pub name: String,
    /// 2015 where there is none. It is not known where it is `workspace = true` and no file of a workspace is given
    /// that has it.
    pub edition: Option<EditionYear>,
    /// The library's, the declared binaries' in order, and that of `src/main.rs`.
    pub roots: Vec<Root>,
    /// Whether each `NAME.rs` and `NAME/main.rs` in the folder `src/bin` is the root of a binary too, but those that a
    /// declared binary has by its name or path.
    pub lists_bin_folder: bool,
    /// The written ones by their names, and then the optional dependencies that are features of their name.
    pub features: Vec<Feature>,
    /// Those of the manifest by kind and key, and then those of each `[target]`.
    pub dependencies: Vec<Dependency>,
}

fn read_table(alloc: Global, text: &str) -> Result<Table, ManifestError>
    ensures { ReadsAs (λ t. table_view t) result (spec.or_refused no_toml (parse_document text.now)) }
{
    match toml::table_from_str(alloc, text) {
        Ok(table) => Ok(table),
        Err(error) if error.is_memory() => Err(ManifestError::OutOfMemory),
        Err(error) => Err(ManifestError::NotToml(error)),
    }
}

fn read_workspace(alloc: Global, text: Option<&str>) -> Result<Option<Table>, ManifestError>
    ensures { ReadsAs (option_map table_view) result (spec.workspace_table (option_copied text.entry)) }
{
    let Some(text) = text else {
        return Ok(None);
    };
    match toml::table_from_str(alloc, text) {
        Ok(table) => Ok(Some(table)),
        Err(error) if error.is_memory() => Err(ManifestError::OutOfMemory),
        Err(error) => Err(ManifestError::WorkspaceNotToml(error)),
    }
}

fn manifest_of(
    alloc: Global,
    fields: &Fields<'_>,
    library: Option<Root>,
    binaries: Option<Vec<Root>>,
    dependencies: Vec<Dependency>,
    mut features: Vec<Feature>,
) -> Result<Manifest, AllocError>
    ensures { IfOk result (λ m. manifest_view m
        ≡ spec.facts_of (package_fields_view fields.now) (option_map root_view library)
        (option_map roots_view binaries) (map dependency_view dependencies.items)
        (map feature_view features.items)) }
{
    let lists_bin_folder = finds_binaries(fields, binaries.is_some());
    let declared = binaries.unwrap_or(Vec::new(alloc));
    let roots = roots_of(alloc, fields, library, declared, lists_bin_folder)?;
    add_all_implied(alloc, &mut features, &dependencies)?;
    let name = String::from_str(alloc, fields.name)?;
    let edition = fields.edition;
    Ok(Manifest {
        name,
        edition,
        roots,
        lists_bin_folder,
        features,
        dependencies,
    })
}

// What a manifest tells beside what `[package]` has.
fn facts_behind(
    alloc: Global,
    workspace: Option<&Table>,
    table: &Table,
    fields: &Fields<'_>,
) -> Result<Manifest, ManifestError>
    ensures { ReadsAs manifest_view result
        (spec.facts_behind (workspace_view workspace.entry) (table_view table.now) (package_fields_view fields.now)) }
{
    let library = library_at(alloc, fields.name, table)?;
    let binaries = binaries_at(alloc, fields.name, table)?;
    let dependencies = dependencies_in(alloc, workspace, table)?;
    let features = written_features(alloc, table)?;
    Ok(manifest_of(alloc, fields, library, binaries, dependencies, features)?)
}

fn facts_in(
    alloc: Global,
    workspace: Option<&Table>,
    table: &Table,
) -> Result<Manifest, ManifestError>
    ensures { ReadsAs manifest_view result
        (spec.facts_in (workspace_view workspace.entry) (table_view table.now)) }
{
    let value = member(table, "package").ok_or(ManifestError::NoPackage)?;
    let fields = in_key(alloc, "package", fields_of(alloc, workspace, value))?;
    facts_behind(alloc, workspace, table, &fields)
}

impl Manifest {
    /// What the text of a `Cargo.toml` tells. What it leaves to its workspace by `workspace = true` is read of the
    /// text of the workspace's file, where that is given, and else not known; a manifest that is the root of its
    /// workspace is that file itself. Keys that tell nothing here are passed over. Of two things that are wrong the
    /// first is told: of `[package]`, `[lib]`, `[[bin]]`, dependencies and `[features]`, in this order.
    ///
    /// As the Cargo Book has it, in "The Manifest Format", "Cargo Targets", "Features" and "Specifying Dependencies".
    ///
    /// # Errors
    ///
    /// `NotToml` or `WorkspaceNotToml` with the place, `NoPackage` or `WrongType`; `OutOfMemory` if memory runs out.
    pub fn from_text(
        alloc: Global,
        text: &str,
        workspace: Option<&str>,
    ) -> Result<Manifest, ManifestError>
        ensures { ReadsAs manifest_view result (spec.manifest_facts text.now (option_copied workspace.entry)) }
    {
        let table = read_table(alloc, text)?;
        let workspace = read_workspace(alloc, workspace)?;
        facts_in(alloc, workspace.as_ref(), &table)
    }
}
