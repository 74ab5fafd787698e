//! Features, and those that optional dependencies are.
ghost use Rattle.std.specs.Prelude.{◌≡◌, IfOk, OnOk, map, string_bytes};
ghost use Rattle.toml.specs.View.{table_view, view};
ghost use Rattle.cargo_manifest.specs.Features as spec;
ghost use Rattle.cargo_manifest.specs.Inner.{ReadsAs};
ghost use Rattle.cargo_manifest.specs.Readings.{each_member, texts_value};
ghost use Rattle.cargo_manifest.specs.Views.{dependency_view, feature_view, texts_view};

use crate::dependencies::Dependency;
use crate::error::{ManifestError, in_key};
use crate::read::{table_at, texts_of};
use std::alloc::{AllocError, Global};
use toml::Table;

/// A feature of a package.
#[derive(Debug, Drop)]
pub struct Feature {
    pub name: String,
    /// What it enables, as the manifest writes it: `x`, `dep:x`, `x/y` or `x?/y`.
    pub entries: Vec<String>,
}

fn features_of(alloc: Global, table: &Table) -> Result<Vec<Feature>, ManifestError>
    ensures { ReadsAs (λ v. map feature_view v.items) result
        (each_member spec.feature_at (table_view table.now)) }
{
    let mut found = Vec::new(alloc);
    for (key, value) in table.iter() {
        let entries = in_key(alloc, key, texts_of(alloc, value))?;
        let name = String::from_str(alloc, key)?;
        found.push(Feature { name, entries })?;
    }
    Ok(found)
}

// Those that are written.
pub(crate) fn written_features(alloc: Global, table: &Table) -> Result<Vec<Feature>, ManifestError>
    ensures { ReadsAs (λ v. map feature_view v.items) result (spec.written_features (table_view table.now)) }
{
    match table_at(alloc, table, "features")? {
        Some(inside) => in_key(alloc, "features", features_of(alloc, inside)),
        None => Ok(Vec::new(alloc)),
    }
}

pub(crate) fn has_feature(features: &[Feature], name: &str) -> bool
    ensures { result ≡ spec.has_feature (map feature_view features.now) name.now }
{
    features.iter().any(|feature| feature.name.as_str() == name)
}

pub(crate) fn is_text_among(texts: &Vec<String>, text: &str) -> bool
    ensures { result ≡ spec.is_text_among (texts_view texts.now) text.now }
{
    texts.iter().any(|one| one.as_str() == text)
}

fn has_entry(features: &[Feature], entry: &str) -> bool
    ensures { result ≡ spec.has_entry (map feature_view features.now) entry.now }
{
    features
        .iter()
        .any(|feature| is_text_among(&feature.entries, entry))
}

fn dependency_entry(alloc: Global, key: &str) -> Result<String, AllocError>
    ensures { IfOk result (λ entry. string_bytes entry ≡ spec.dependency_entry key.now) }
{
    let mut entry = String::from_str(alloc, "dep:")?;
    entry.push_str(key)?;
    Ok(entry)
}

fn add_implied(
    alloc: Global,
    features: &mut Vec<Feature>,
    dependency: &Dependency,
) -> Result<(), AllocError>
    ensures { OnOk result (map feature_view features.new.items
        ≡ spec.with_implied (map feature_view features.old.items) (dependency_view dependency.now)) }
{
    if !dependency.is_optional || has_feature(features, &dependency.key) {
        return Ok(());
    }
    let entry = dependency_entry(alloc, &dependency.key)?;
    if has_entry(features, &entry) {
        return Ok(());
    }
    let name = String::from_str(alloc, &dependency.key)?;
    let mut entries = Vec::new(alloc);
    entries.push(entry)?;
    features.push(Feature { name, entries })?;
    Ok(())
}

// Adds those that optional dependencies are.
pub(crate) fn add_all_implied(
    alloc: Global,
    features: &mut Vec<Feature>,
    dependencies: &[Dependency],
) -> Result<(), AllocError>
    ensures { OnOk result (map feature_view features.new.items
        ≡ spec.all_features (map feature_view features.old.items) (map dependency_view dependencies.now)) }
{
    for dependency in dependencies {
        add_implied(alloc, features, dependency)?;
    }
    Ok(())
}
