//! What `[package]` tells of roots.
ghost use Rattle.std.specs.Prelude.{◌≡◌, codes, option_and_then};
ghost use Rattle.toml.specs.Data.{as_bool, as_str, as_table, get_member};
ghost use Rattle.toml.specs.View.{table_view, view};
ghost use Rattle.cargo_manifest.specs.Inner.{ReadsAs, package_fields_view, workspace_view};
ghost use Rattle.cargo_manifest.specs.Manifests.{package_value};
ghost use Rattle.cargo_manifest.specs.Roots as spec;

use crate::error::{Expected, ManifestError, in_key};
use crate::read::{flag_at, member, misfit, required_text, table_of, workspace_value};
use hir_input::EditionYear;
use std::alloc::Global;
use toml::{Table, Value};

#[derive(Clone, Copy)]
pub(crate) struct Fields<'a> {
    pub(crate) name: &'a str,
    pub(crate) edition: Option<EditionYear>,
    pub(crate) autolib: Option<bool>,
    pub(crate) autobins: Option<bool>,
}

fn edition_of(text: &str) -> Option<EditionYear>
    ensures { result ≡ spec.edition_of text.now }
{
    match text {
        "2015" => Some(EditionYear::E2015),
        "2018" => Some(EditionYear::E2018),
        "2021" => Some(EditionYear::E2021),
        "2024" => Some(EditionYear::E2024),
        _ => None,
    }
}

fn workspace_edition(workspace: Option<&Table>) -> Option<EditionYear>
    ensures { result ≡ spec.workspace_edition (workspace_view workspace.entry) }
{
    edition_of(
        workspace_value(workspace, "package")?
            .get("edition")?
            .as_str()?,
    )
}

// Whether the value is to be that of the workspace.
fn inherits(table: &Table) -> Option<bool>
    ensures { result ≡ option_and_then as_bool (get_member (codes "workspace") (table_view table.now)) }
{
    member(table, "workspace")?.as_bool()
}

fn inherited_edition(
    alloc: Global,
    workspace: Option<&Table>,
    table: &Table,
) -> Result<Option<EditionYear>, ManifestError>
    ensures { ReadsAs (λ edition. edition) result (spec.inherited_edition (workspace_view workspace.entry)
        (option_and_then as_bool (get_member (codes "workspace") (table_view table.now)))) }
{
    match inherits(table) {
        Some(true) => Ok(workspace_edition(workspace)),
        _ => Err(misfit(alloc, Expected::Edition)),
    }
}

fn edition_in(
    alloc: Global,
    workspace: Option<&Table>,
    value: &Value,
) -> Result<Option<EditionYear>, ManifestError>
    ensures { let d = view value.now in ReadsAs (λ edition. edition) result
        (spec.edition_by (workspace_view workspace.entry) (as_str d) (as_table d)) }
{
    if let Some(text) = value.as_str() {
        let year = edition_of(text).ok_or_else(|| misfit(alloc, Expected::Edition))?;
        return Ok(Some(year));
    }
    match value.as_table() {
        Some(table) => inherited_edition(alloc, workspace, table),
        None => Err(misfit(alloc, Expected::Edition)),
    }
}

fn edition_field(
    alloc: Global,
    workspace: Option<&Table>,
    table: &Table,
) -> Result<Option<EditionYear>, ManifestError>
    ensures { ReadsAs (λ edition. edition) result
        (spec.edition_field (workspace_view workspace.entry) (table_view table.now)) }
{
    match member(table, "edition") {
        Some(value) => Ok(in_key(alloc, "edition", edition_in(alloc, workspace, value))?),
        None => Ok(Some(EditionYear::E2015)),
    }
}

// What the value of `package` tells.
pub(crate) fn fields_of<'a>(
    alloc: Global,
    workspace: Option<&Table>,
    value: &'a Value,
) -> Result<Fields<'a>, ManifestError>
    ensures { ReadsAs package_fields_view result (package_value (workspace_view workspace.entry) (view value.now)) }
{
    let table = table_of(alloc, value)?;
    let name = required_text(alloc, table, "name")?;
    let edition = edition_field(alloc, workspace, table)?;
    let autolib = flag_at(alloc, table, "autolib")?;
    let autobins = flag_at(alloc, table, "autobins")?;
    Ok(Fields {
        name,
        edition,
        autolib,
        autobins,
    })
}
