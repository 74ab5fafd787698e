//! What is wrong with a document, as the protocol tells it.
ghost use Rattle.std.specs.Prelude.{◌≡◌, ◌++◌, IfErr, IfOk, OnOk, false, map, string_bytes};
ghost use Rattle.serde_json.specs.View.{items_view, view};
ghost use Rattle.serde_json.specs.Written.{compact_text, has_float};
ghost use Rattle.source_imports.specs.Views.{repeated_import_view};
ghost use Rattle.itemtree_commands.specs.Trees.{IsTextUnread};
ghost use Rattle.lsp.specs.Diagnostics as spec;
ghost use Rattle.lsp.specs.Views.{document_view};

use crate::document::Document;
use crate::position::{Span, span_value};
use crate::text::LinedText;
use item_tree::LowerError;
use itemtree_commands::{Options, SourceError, problems, repeated_imports};
use line_index::Units;
use rust_paths::TextRange;
use serde_json::{Map, Value, json, put};
use source_imports::RepeatedImport;
use source_listing::problem_message;
use source_problems::SourceProblem;
use source_rows::Spot;
use std::alloc::{AllocError, Global};

/// Errors are of this severity.
const ERROR: usize = 1;

/// Warnings are of this severity.
const WARNING: usize = 2;

/// The object of what is told of a range.
fn told_value(
    alloc: Global,
    span: Span,
    message: &str,
    severity: usize,
) -> Result<Value, AllocError>
    ensures { IfOk result (λ value. view value ≡ spec.told_object span message.now severity) }
{
    let range = span_value(alloc, span)?;
    let mut members = Map::new(alloc);
    put(&mut members, alloc, "range", range)?;
    put(
        &mut members,
        alloc,
        "message",
        Value::try_from_str(alloc, message)?,
    )?;
    put(&mut members, alloc, "severity", Value::from(severity))?;
    put(
        &mut members,
        alloc,
        "source",
        Value::try_from_str(alloc, "itemtree")?,
    )?;
    Ok(Value::Object(members))
}

/// The object of a problem, which stands at its place: editors mark the word there.
fn diagnostic(
    alloc: Global,
    units: Units,
    text: &LinedText,
    problem: SourceProblem,
) -> Result<Value, AllocError>
    ensures { IfOk result (λ value. view value ≡ spec.diagnostic units text.now problem) }
{
    let start = text.place(units, problem.at);
    let span = Span { start, end: start };
    told_value(alloc, span, problem_message(problem.kind), ERROR)
}

/// What is said of an import that repeats an earlier one.
fn repeat_message(alloc: Global, repeat: &RepeatedImport) -> Result<String, AllocError>
    ensures { IfOk result (λ text. string_bytes text
        ≡ spec.repeat_message (repeated_import_view repeat.now)) }
{
    let mut message = String::new(alloc);
    message.push_str(&repeat.text)?;
    message.push_str(" is imported again")?;
    if let Some(first) = repeat.first {
        let line = first.position.line;
        write!(message, ", first in line {line}")?;
    }
    Ok(message)
}

/// The bytes of an import: those of its use tree.
fn repeat_bytes(spot: Option<Spot>) -> TextRange
    ensures { result ≡ spec.repeat_bytes spot }
{
    match spot {
        Some(spot) => spot.range,
        None => TextRange { start: 0, end: 0 },
    }
}

/// The object of an import that repeats an earlier one.
fn repeat_diagnostic(
    alloc: Global,
    units: Units,
    text: &LinedText,
    repeat: &RepeatedImport,
) -> Result<Value, AllocError>
    ensures { IfOk result (λ value. view value
        ≡ spec.repeat_diagnostic units text.now (repeated_import_view repeat.now)) }
{
    let message = repeat_message(alloc, repeat)?;
    let span = text.span(units, repeat_bytes(repeat.spot));
    told_value(alloc, span, &message, WARNING)
}

/// Adds the objects of imports that repeat earlier ones.
fn push_repeats(
    alloc: Global,
    units: Units,
    text: &LinedText,
    repeats: &[RepeatedImport],
    values: &mut Vec<Value>,
) -> Result<(), AllocError>
    ensures { let own = map (spec.repeat_diagnostic units text.now) (map repeated_import_view repeats.now) in
        OnOk result (map view values.new.items ≡ map view values.old.items ++ own) }
{
    for repeat in repeats {
        values.push(repeat_diagnostic(alloc, units, text, repeat)?)?;
    }
    Ok(())
}

/// The objects of problems.
fn diagnostics(
    alloc: Global,
    units: Units,
    text: &LinedText,
    problems: &[SourceProblem],
) -> Result<Vec<Value>, AllocError>
    ensures { IfOk result (λ values. map view values.items ≡ map (spec.diagnostic units text.now) problems.now) }
{
    let mut values = Vec::with_capacity(alloc, problems.len())?;
    for problem in problems {
        values.push(diagnostic(alloc, units, text, *problem)?)?;
    }
    Ok(values)
}

/// The parameters of a notification about a document of a name.
fn notice_params(
    alloc: Global,
    uri: &str,
    version: Option<i64>,
    diagnostics: Vec<Value>,
) -> Result<Value, AllocError>
    ensures { IfOk result (λ value. view value
        ≡ spec.notice_params uri.now version (map view diagnostics.items)) }
{
    let mut members = Map::new(alloc);
    if let Some(version) = version {
        put(&mut members, alloc, "version", Value::from(version))?;
    }
    put(&mut members, alloc, "uri", Value::try_from_str(alloc, uri)?)?;
    put(
        &mut members,
        alloc,
        "diagnostics",
        Value::Array(diagnostics),
    )?;
    Ok(Value::Object(members))
}

/// The notification of what is wrong with a document of a name.
pub(crate) fn notice(
    alloc: Global,
    uri: &str,
    version: Option<i64>,
    diagnostics: Vec<Value>,
) -> Result<Value, AllocError>
    ensures { IfOk result (λ value. view value ≡ spec.notice uri.now version (map view diagnostics.items)) }
{
    let params = notice_params(alloc, uri, version, diagnostics)?;
    let mut members = Map::new(alloc);
    put(&mut members, alloc, "params", params)?;
    put(
        &mut members,
        alloc,
        "method",
        Value::try_from_str(alloc, "textDocument/publishDiagnostics")?,
    )?;
    put(
        &mut members,
        alloc,
        "jsonrpc",
        Value::try_from_str(alloc, "2.0")?,
    )?;
    Ok(Value::Object(members))
}

/// What is wrong with a document: with one that is not Rust, nothing.
fn problems_of(
    alloc: Global,
    options: &Options,
    document: &Document,
) -> Result<Vec<SourceProblem>, SourceError>
    ensures { let d = document_view document.now in
        IfOk result (λ v. spec.AreTold options.now d.is_rust d.text v.items) }
{
    if document.is_rust {
        problems(alloc, document.text.text(), options)
    } else {
        Ok(Vec::new(alloc))
    }
}

/// The imports of a document that repeat earlier ones: of one that is not Rust, or has no lists, none.
fn repeats_of(
    alloc: Global,
    options: &Options,
    document: &Document,
) -> Result<Vec<RepeatedImport>, SourceError>
    ensures { let d = document_view document.now in
        IfOk result (λ v. spec.AreRepeatsTold options.now d.is_rust d.text (map repeated_import_view v.items)) }
{
    if !document.is_rust {
        return Ok(Vec::new(alloc));
    }
    match repeated_imports(alloc, document.text.text(), options) {
        Ok(found) => Ok(found),
        Err(SourceError::Lower(LowerError::OutOfMemory)) => {
            Err(SourceError::Lower(LowerError::OutOfMemory))
        }
        Err(_) => Ok(Vec::new(alloc)),
    }
}

/// The text of a value without a float.
fn plain_text(alloc: Global, value: &Value) -> Result<String, AllocError>
    requires { has_float (view value.now) ≡ false }
    ensures { IfOk result (λ text. string_bytes text ≡ compact_text (view value.now)) }
{
    value.to_string(alloc)
}

/// The text of the notification of what is wrong with the document of a name.
///
/// # Errors
///
/// `TooLong` where the text has more than 2^32 bytes, and that memory runs out.
pub(crate) fn notice_text(
    alloc: Global,
    options: &Options,
    units: Units,
    uri: &str,
    document: &Document,
) -> Result<String, SourceError>
    ensures { let d = document_view document.now in
        IfOk result (λ text. spec.IsNoticeOf options.now units uri.now d (string_bytes text)) }
{
    let problems = problems_of(alloc, options, document)?;
    let repeats = repeats_of(alloc, options, document)?;
    let mut told = diagnostics(alloc, units, &document.text, &problems)?;
    push_repeats(alloc, units, &document.text, &repeats, &mut told)?;
    let value = notice(alloc, uri, document.version, told)?;
    let text = plain_text(alloc, &value)?;
    Ok(text)
}

/// The text of the notification that nothing is wrong with a document that is closed.
#[tactic(auto, using(crate::proofs::NoFloats::notice_none))]
pub(crate) fn closed_text(alloc: Global, uri: &str) -> Result<String, AllocError>
    ensures { IfOk result (λ text. string_bytes text ≡ spec.closed_notice uri.now) }
{
    let value = notice(alloc, uri, None, Vec::new(alloc))?;
    value.to_string(alloc)
}
