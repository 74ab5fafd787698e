//! Entries of outlines as JSON objects.
ghost use Rattle.std.specs.Prelude.{◌≡◌, ◌++◌, IfOk, OnOk, map, string_bytes};
ghost use Rattle.serde_json.specs.Data.{no_members, string};
ghost use Rattle.serde_json.specs.View.{items_view, members_view, view};
ghost use Rattle.tree_walk.specs.Listed.{listed_import};
ghost use Rattle.source_listing.specs.ImportTexts.{import_text};
ghost use Rattle.source_listing.specs.Inner.{entry_members, entry_view, file_of, kind_view, reserved_of, stand_members};
ghost use Rattle.source_listing.specs.Objects as spec;
ghost use Rattle.source_listing.specs.Outlines.{object_line};

use crate::entries::{Entry, EntryKind, entry_word};
use crate::import_texts::push_import_text;
use crate::printer::Printer;
use crate::values::{
    column_value, line_value, name_value, put_text, range_value, subject_value, visibility_value,
};
use hir_input::{Edition, Name};
use hir_input_json::member::Members;
use list_forms::value_line;
use serde_json::{Map, Value, put};
use source_rows::Spot;
use std::alloc::{AllocError, Global};
use tree_walk::Listed;

/// The id of an item; a tree has none for members and imports.
fn id_value(alloc: Global, kind: EntryKind<'_, '_>) -> Result<Value, AllocError>
    ensures { IfOk result (λ value. view value ≡ spec.entry_id (kind_view kind.entry)) }
{
    match kind {
        EntryKind::Item(id, _, _) => Ok(Value::String(id.to_string(alloc)?)),
        EntryKind::Member(_) | EntryKind::Import(_) => Ok(Value::Null),
    }
}

/// An import as a use of it alone would be written.
fn import_value(alloc: Global, edition: &Edition, import: &Listed) -> Result<Value, AllocError>
    ensures { let i = listed_import import.now in
        let form = string (import_text edition.now.reserved.items i.kind i.path i.alias) in
        IfOk result (λ value. view value ≡ form) }
{
    let mut text = String::new(alloc);
    push_import_text(edition, import, &mut text)?;
    Ok(Value::String(text))
}

/// What an entry without a name is told by.
fn path_value(
    alloc: Global,
    edition: &Edition,
    kind: EntryKind<'_, '_>,
) -> Result<Value, AllocError>
    ensures { let form = spec.entry_subject edition.now.reserved.items (kind_view kind.entry) in
        IfOk result (λ value. view value ≡ form) }
{
    match kind {
        EntryKind::Item(_, header, subject) => subject_value(alloc, edition, header, subject),
        EntryKind::Member(_) => Ok(Value::Null),
        EntryKind::Import(import) => import_value(alloc, edition, import),
    }
}

/// Gives an object the members that tell what an entry is.
fn put_entry(
    alloc: Global,
    edition: &Edition,
    entry: Entry<'_, '_>,
    members: &mut Members,
) -> Result<(), AllocError>
    requires { members_view members.old.entries ≡ no_members }
    ensures { let made = entry_members edition.now.reserved.items (entry_view entry.entry) in
        OnOk result (members_view members.new.entries ≡ made) }
{
    let visibility = visibility_value(alloc, edition, entry.visibility)?;
    put(members, alloc, "visibility", visibility)?;
    let path = path_value(alloc, edition, entry.kind)?;
    put(members, alloc, "path", path)?;
    let name = name_value(alloc, entry.name)?;
    put(members, alloc, "name", name)?;
    put_text(alloc, "kind", entry_word(entry.kind), members)?;
    let id = id_value(alloc, entry.kind)?;
    put(members, alloc, "id", id)
}

/// Adds the members that tell where something stands.
fn put_stand(alloc: Global, spot: Option<Spot>, members: &mut Members) -> Result<(), AllocError>
    ensures { let old = members_view members.old.entries in
        OnOk result (members_view members.new.entries ≡ stand_members spot old) }
{
    let range = range_value(alloc, spot)?;
    put(members, alloc, "range", range)?;
    put(members, alloc, "line", line_value(spot))?;
    put(members, alloc, "column", column_value(spot))
}

/// The object of an entry around these.
pub(crate) fn object(
    alloc: Global,
    edition: &Edition,
    entry: Entry<'_, '_>,
    inner: Vec<Value>,
) -> Result<Value, AllocError>
    ensures { let form = spec.entry_object edition.now.reserved.items (entry_view entry.entry)
        (items_view inner.items) in
        IfOk result (λ object. view object ≡ form) }
{
    let mut members = Map::new(alloc);
    put_entry(alloc, edition, entry, &mut members)?;
    put_stand(alloc, entry.spot, &mut members)?;
    put(&mut members, alloc, "children", Value::Array(inner))?;
    put(&mut members, alloc, "active", Value::Bool(entry.is_active))?;
    Ok(Value::Object(members))
}

/// Names, from the outermost on.
fn names_value(alloc: Global, names: &[&Name]) -> Result<Value, AllocError>
    ensures { IfOk result (λ value. view value ≡ spec.names_form (map (λ n. n.now) names.now)) }
{
    let mut values = Vec::new(alloc);
    for name in names {
        values.push(Value::try_from_str(alloc, name.text())?)?;
    }
    Ok(Value::Array(values))
}

/// The object of an entry that stands alone, in a file and in these names.
fn flat_object(
    alloc: Global,
    edition: &Edition,
    path: &str,
    scope: &[&Name],
    entry: Entry<'_, '_>,
) -> Result<Value, AllocError>
    ensures { let form = spec.flat_object path.now edition.now.reserved.items (map (λ n. n.now) scope.now)
        (entry_view entry.entry) in
        IfOk result (λ object. view object ≡ form) }
{
    let mut members = Map::new(alloc);
    put_entry(alloc, edition, entry, &mut members)?;
    put_stand(alloc, entry.spot, &mut members)?;
    put_text(alloc, "file", path, &mut members)?;
    put(&mut members, alloc, "scope", names_value(alloc, scope)?)?;
    put(&mut members, alloc, "active", Value::Bool(entry.is_active))?;
    Ok(Value::Object(members))
}

impl Printer<'_> {
    /// The object of an entry in these names, on a line.
    #[tactic(auto, unfolding(crate::specs::Outlines::object_line))]
    pub(crate) fn push_object_line(
        &self,
        alloc: Global,
        scope: &[&Name],
        entry: Entry<'_, '_>,
        out: &mut String,
    ) -> Result<(), AllocError>
        ensures { let line = object_line (file_of self.now).path (reserved_of self.now) (map (λ n. n.now) scope.now)
            (entry_view entry.entry) in
            OnOk result (string_bytes out.new ≡ string_bytes out.old ++ line) }
    {
        let object = flat_object(alloc, self.edition, self.path, scope, entry)?;
        let line = value_line(alloc, &object)?;
        out.push_str(&line)
    }
}
