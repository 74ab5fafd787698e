//! How a change is told.
ghost use Rattle.std.specs.Prelude.{◌≡◌, ◌++◌, IfOk, OnOk, option_copied, string_bytes};
ghost use Rattle.list_forms.specs.declared.lines.Form.TheVariants.{Json};
ghost use Rattle.serde_json.specs.View.{view};
ghost use Rattle.source_changes.specs.Told as spec;
ghost use Rattle.source_changes.specs.Views.{lined_view};
ghost use Rattle.source_changes.specs.ChangeViews.{row_change_view};
ghost use Rattle.source_rows.specs.Views.{source_view};

use crate::change_kind::{ChangeKind, change_word};
use crate::row_changes::Change;
use hir_input_json::write::object::{of_text, with, with_text};
use line_index::{LineIndex, Position};
use list_forms::{
    BOLD, FAINT, Form, GREEN, RED, USUAL, YELLOW, column_number, line_number, push_color,
    push_colored, value_line,
};
use serde_json::Value;
use source_rows::{Source, push_place};
use std::alloc::{AllocError, Global};

/// A file, with what finds the lines of its places.
#[derive(Drop)]
pub(crate) struct Side<'a> {
    pub(crate) path: &'a str,
    pub(crate) lines: LineIndex<'a>,
}

pub(crate) fn side_from<'a>(source: Source<'a>) -> Side<'a>
    ensures { lined_view result ≡ source_view source.entry }
{
    Side {
        path: source.path,
        lines: LineIndex::new(source.text),
    }
}

fn change_color(kind: ChangeKind) -> &'static str
    ensures { result.now ≡ spec.change_color kind }
{
    match kind {
        ChangeKind::Removed => RED,
        ChangeKind::Added => GREEN,
        ChangeKind::Changed => YELLOW,
    }
}

fn change_name(kind: ChangeKind) -> &'static str
    ensures { result.now ≡ spec.change_name kind }
{
    match kind {
        ChangeKind::Removed => "removed",
        ChangeKind::Added => "added",
        ChangeKind::Changed => "changed",
    }
}

/// The place in a file, or the file.
fn push_head(path: &str, position: Option<Position>, out: &mut String) -> Result<(), AllocError>
    ensures { OnOk result (string_bytes out.new ≡ string_bytes out.old
        ++ spec.head_text path.now position) }
{
    match position {
        Some(position) => push_place(path, position, out),
        None => {
            out.push_str(path)?;
            out.push_str(": ")
        }
    }
}

/// A change, or what became of a file.
#[derive(Clone, Copy)]
struct Told<'a> {
    path: &'a str,
    position: Option<Position>,
    kind: ChangeKind,
    label: Option<&'a str>,
}

#[tactic(auto, unfolding(list_forms::specs::Colors::colored_text))]
fn push_line(is_colored: bool, told: Told<'_>, out: &mut String) -> Result<(), AllocError>
    ensures { let t = told.entry in
        let line = spec.told_line is_colored t.path.now t.position t.kind (option_copied t.label) in
        OnOk result (string_bytes out.new ≡ string_bytes out.old ++ line) }
{
    push_color(is_colored, FAINT, out)?;
    push_head(told.path, told.position, out)?;
    push_color(is_colored, USUAL, out)?;
    push_colored(
        is_colored,
        change_color(told.kind),
        change_word(told.kind),
        out,
    )?;
    push_colored(is_colored, BOLD, told.label.unwrap_or("file"), out)?;
    out.push_str("\n")
}

fn item_value(alloc: Global, label: Option<&str>) -> Result<Value, AllocError>
    ensures { IfOk result (λ value. view value ≡ spec.item_form (option_copied label.entry)) }
{
    match label {
        None => Ok(Value::Null),
        Some(label) => Value::try_from_str(alloc, label),
    }
}

fn object_of(alloc: Global, told: Told<'_>) -> Result<Value, AllocError>
    ensures { let t = told.entry in
        let object = spec.change_object t.path.now t.position t.kind (option_copied t.label) in
        IfOk result (λ value. view value ≡ object) }
{
    let members = of_text(alloc, "path", told.path)?;
    let members = with_text(alloc, members, "change", change_name(told.kind))?;
    let members = with(alloc, members, "item", item_value(alloc, told.label)?)?;
    let members = with(alloc, members, "line", line_number(told.position))?;
    Ok(Value::Object(with(alloc, members, "column", column_number(told.position))?))
}

#[tactic(auto, using(crate::proofs::NoFloats::change_none))]
fn push_object(alloc: Global, told: Told<'_>, out: &mut String) -> Result<(), AllocError>
    ensures { let t = told.entry in
        let text = spec.change_text Json t.path.now t.position t.kind (option_copied t.label) in
        OnOk result (string_bytes out.new ≡ string_bytes out.old ++ text) }
{
    let object = object_of(alloc, told)?;
    let line = value_line(alloc, &object)?;
    out.push_str(&line)
}

fn push_told(alloc: Global, form: Form, told: Told<'_>, out: &mut String) -> Result<(), AllocError>
    ensures { let t = told.entry in
        let text = spec.change_text form t.path.now t.position t.kind (option_copied t.label) in
        OnOk result (string_bytes out.new ≡ string_bytes out.old ++ text) }
{
    match form {
        Form::Line { is_colored } => push_line(is_colored, told, out),
        Form::Json => push_object(alloc, told, out),
    }
}

impl<'a> Side<'a> {
    /// The text of a change.
    pub(crate) fn push(
        &mut self,
        alloc: Global,
        form: Form,
        change: &Change<'_>,
        out: &mut String,
    ) -> Result<(), AllocError>
        ensures text { let text = spec.row_text form (lined_view self.old)
            (row_change_view change.now) in
            OnOk result (string_bytes out.new ≡ string_bytes out.old ++ text) }
        ensures same { lined_view self.new ≡ lined_view self.old }
    {
        let told = Told {
            path: self.path,
            position: Some(self.lines.position(change.at)),
            kind: change.kind,
            label: Some(change.label),
        };
        push_told(alloc, form, told, out)
    }
}

/// What became of a file, as `compare` tells of items: the `removed file` of a line, or an object with a null in place
/// of an item.
///
/// # Errors
///
/// Only if memory runs out.
pub fn file_change(
    alloc: Global,
    path: &str,
    kind: ChangeKind,
    form: Form,
) -> Result<String, AllocError>
    ensures { IfOk result (λ text. string_bytes text ≡ spec.file_text form path.now kind) }
{
    let mut text = String::new(alloc);
    let told = Told {
        path,
        position: None,
        kind,
        label: None,
    };
    push_told(alloc, form, told, &mut text)?;
    Ok(text)
}
