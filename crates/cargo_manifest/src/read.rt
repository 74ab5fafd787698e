//! Values by their keys.
ghost use Rattle.std.specs.Prelude.{◌≡◌, option_copied, option_map, string_bytes};
ghost use Rattle.toml.specs.Data.{as_array, as_str, get_member};
ghost use Rattle.toml.specs.View.{array_view, table_view, view};
ghost use Rattle.cargo_manifest.specs.declared.error.Expected.TheVariants.{Texts};
ghost use Rattle.cargo_manifest.specs.Dependencies.{workspace_value as workspace_form};
ghost use Rattle.cargo_manifest.specs.Inner.{IsMisfit, ReadsAs, workspace_view};
ghost use Rattle.cargo_manifest.specs.Readings.{expecting, flag_value, value_read, required_text as required_form};
ghost use Rattle.cargo_manifest.specs.Readings.{table_value, text_value, texts_value};
ghost use Rattle.cargo_manifest.specs.Views.{texts_view};

use crate::error::{Expected, ManifestError, in_key};
use std::alloc::Global;
use toml::value::Array;
use toml::{Table, Value};

// The value itself is not what it has to be.
pub(crate) fn misfit(alloc: Global, expected: Expected) -> ManifestError
    ensures { IsMisfit expected result }
{
    let keys = String::new(alloc);
    ManifestError::WrongType { keys, expected }
}

// What stands at a key.
pub(crate) fn member<'v>(table: &'v Table, key: &str) -> Option<&'v Value>
    ensures { option_map (λ v. view v.now) result ≡ get_member key.now (table_view table.now) }
{
    table.get(key)
}

fn text_of<'v>(alloc: Global, value: &'v Value) -> Result<&'v str, ManifestError>
    ensures { ReadsAs (λ text. text.now) result (text_value (view value.now)) }
{
    value.as_str().ok_or_else(|| misfit(alloc, Expected::Text))
}

fn flag_of(alloc: Global, value: &Value) -> Result<bool, ManifestError>
    ensures { ReadsAs (λ flag. flag) result (flag_value (view value.now)) }
{
    value.as_bool().ok_or_else(|| misfit(alloc, Expected::Flag))
}

pub(crate) fn table_of<'v>(alloc: Global, value: &'v Value) -> Result<&'v Table, ManifestError>
    ensures { ReadsAs (λ table. table_view table.now) result (table_value (view value.now)) }
{
    value
        .as_table()
        .ok_or_else(|| misfit(alloc, Expected::Table))
}

// The text at a key, if anything stands there.
pub(crate) fn text_at<'v>(
    alloc: Global,
    table: &'v Table,
    key: &str,
) -> Result<Option<&'v str>, ManifestError>
    ensures { ReadsAs option_copied result (value_read key.now text_value (table_view table.now)) }
{
    match member(table, key) {
        Some(value) => Ok(Some(in_key(alloc, key, text_of(alloc, value))?)),
        None => Ok(None),
    }
}

// The truth value at a key, if anything stands there.
pub(crate) fn flag_at(
    alloc: Global,
    table: &Table,
    key: &str,
) -> Result<Option<bool>, ManifestError>
    ensures { ReadsAs (λ flag. flag) result (value_read key.now flag_value (table_view table.now)) }
{
    match member(table, key) {
        Some(value) => Ok(Some(in_key(alloc, key, flag_of(alloc, value))?)),
        None => Ok(None),
    }
}

// The table at a key, if anything stands there.
pub(crate) fn table_at<'v>(
    alloc: Global,
    table: &'v Table,
    key: &str,
) -> Result<Option<&'v Table>, ManifestError>
    ensures { ReadsAs (option_map (λ table. table_view table.now)) result
        (value_read key.now table_value (table_view table.now)) }
{
    match member(table, key) {
        Some(value) => Ok(Some(in_key(alloc, key, table_of(alloc, value))?)),
        None => Ok(None),
    }
}

// The text at a key, where it has to be.
pub(crate) fn required_text<'v>(
    alloc: Global,
    table: &'v Table,
    key: &str,
) -> Result<&'v str, ManifestError>
    ensures { ReadsAs (λ text. text.now) result (required_form key.now (table_view table.now)) }
{
    match text_at(alloc, table, key)? {
        Some(text) => Ok(text),
        None => Err(misfit(alloc, Expected::Text).in_key(alloc, key)),
    }
}

// The items of a list.
pub(crate) fn items_of<'v>(
    alloc: Global,
    value: &'v Value,
    expected: Expected,
) -> Result<&'v Array, ManifestError>
    ensures { ReadsAs (λ array. array_view array.now) result (expecting expected (as_array (view value.now))) }
{
    value.as_array().ok_or_else(|| misfit(alloc, expected))
}

fn item_text(alloc: Global, value: &Value) -> Result<String, ManifestError>
    ensures { ReadsAs string_bytes result (expecting Texts (as_str (view value.now))) }
{
    match value.as_str() {
        Some(text) => Ok(String::from_str(alloc, text)?),
        None => Err(misfit(alloc, Expected::Texts)),
    }
}

// The texts of a list.
pub(crate) fn texts_of(alloc: Global, value: &Value) -> Result<Vec<String>, ManifestError>
    ensures { ReadsAs texts_view result (texts_value (view value.now)) }
{
    let items = items_of(alloc, value, Expected::Texts)?;
    let mut texts = Vec::with_capacity(alloc, items.len())?;
    for item in items {
        let text = item_text(alloc, item)?;
        texts.push(text)?;
    }
    Ok(texts)
}

// What the workspace has at a key, if its table is given.
pub(crate) fn workspace_value<'w>(workspace: Option<&'w Table>, key: &str) -> Option<&'w Value>
    ensures { option_map (λ v. view v.now) result ≡ workspace_form (workspace_view workspace.entry) key.now }
{
    member(workspace?, "workspace")?.get(key)
}
