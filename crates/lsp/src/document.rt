//! Open documents.
ghost use Rattle.std.specs.Prelude.{◌≡◌, codes, option_and_then, option_map, string_bytes, OnOk};
ghost use Rattle.serde_json.specs.View.{view};
ghost use Rattle.hir_input_json.specs.Forms.{required_at as required_form, text_form};
ghost use Rattle.hir_input_json.specs.Held.{IsLeftWithout, object_held};
ghost use Rattle.hir_input_json.specs.Reads.{Reads};
ghost use Rattle.lsp.specs.Documents as spec;
ghost use Rattle.lsp.specs.Views.{document_view, documents_view, document_entry_view};

use crate::text::LinedText;
use hir_input_json::member::{Members, field, members_of, required_at, take_member};
use hir_input_json::{Fault, ReadIn};
use serde_json::Value;
use std::alloc::{AllocError, Global};
use std::collections::BTreeMap;

/// An open document.
#[derive(Drop)]
pub(crate) struct Document {
    pub(crate) text: LinedText,
    /// Whether its text is Rust.
    pub(crate) is_rust: bool,
    /// The version that the client gave last, if it gave one.
    pub(crate) version: Option<i64>,
}

/// The open documents, by their names.
pub(crate) type Documents = BTreeMap<String, Document>;

/// Whether a text is Rust, by what the client calls its language, or else by its name.
fn is_rust(language: &str, uri: &str) -> bool
    ensures { result ≡ spec.is_rust language.now uri.now }
{
    language == "rust" || uri.as_bytes().ends_with(b".rs")
}

/// Takes a text out that has to be there.
pub(crate) fn text_at(alloc: Global, members: &mut Members, key: &str) -> Result<String, Fault>
    ensures reads { Reads string_bytes result (required_form key.now text_form (object_held members.old)) }
    ensures left { IsLeftWithout key.now members.old members.new }
{
    match take_member(members, key) {
        Some(Value::String(text)) => Ok(text),
        _ => Err(Fault::at(alloc, key)),
    }
}

/// The version of a document, where a whole number is given.
fn version_in(members: &Members) -> Option<i64>
    ensures { result ≡ spec.version_in (object_held members.now) }
{
    field(members, "version").and_then(Value::as_i64)
}

/// A document that is opened, with its name.
#[tactic(auto, using(hir_input_json::proofs::MemberObjects::field_without))]
fn opened_document(alloc: Global, value: Value) -> Result<(String, Document), Fault>
    ensures { Reads document_entry_view result (spec.opened_form (view value)) }
{
    let mut members = members_of(alloc, value)?;
    let uri = text_at(alloc, &mut members, "uri")?;
    let language = text_at(alloc, &mut members, "languageId")?;
    let text = text_at(alloc, &mut members, "text")?;
    let is_rust = is_rust(&language, &uri);
    let version = version_in(&members);
    let document = Document {
        text: LinedText::new(alloc, text)?,
        is_rust,
        version,
    };
    Ok((uri, document))
}

/// Takes a document out that is opened.
fn opened_at(alloc: Global, members: &mut Members, key: &str) -> Result<(String, Document), Fault>
    ensures reads { Reads document_entry_view result
        (required_form key.now spec.opened_form (object_held members.old)) }
    ensures left { OnOk result (IsLeftWithout key.now members.old members.new) }
{
    let found = required_at(alloc, members, key)?;
    opened_document(alloc, found).in_member(alloc, key)
}

/// The document that parameters open, with its name.
pub(crate) fn document_of(alloc: Global, params: Value) -> Result<(String, Document), Fault>
    ensures { Reads document_entry_view result (spec.open_form (view params)) }
{
    let mut members = members_of(alloc, params)?;
    opened_at(alloc, &mut members, "textDocument")
}

fn named_uri(alloc: Global, value: Value) -> Result<String, Fault>
    ensures { Reads string_bytes result (spec.uri_member_form (view value)) }
{
    let mut members = members_of(alloc, value)?;
    text_at(alloc, &mut members, "uri")
}

/// Takes the name of a document out.
pub(crate) fn named_at(alloc: Global, members: &mut Members, key: &str) -> Result<String, Fault>
    ensures reads { Reads string_bytes result (required_form key.now spec.uri_member_form (object_held members.old)) }
    ensures left { OnOk result (IsLeftWithout key.now members.old members.new) }
{
    let found = required_at(alloc, members, key)?;
    named_uri(alloc, found).in_member(alloc, key)
}

/// The name of the document that parameters are about.
fn asked_uri(alloc: Global, params: Value) -> Result<String, Fault>
    ensures { Reads string_bytes result (spec.uri_form (view params)) }
{
    let mut members = members_of(alloc, params)?;
    named_at(alloc, &mut members, "textDocument")
}

/// The name of the document that a notification is about, if it has one.
pub(crate) fn uri_in(params: &Value) -> Option<&str>
    ensures { option_map (λ uri. uri.now) result ≡ spec.uri_in (view params.now) }
{
    params
        .get("textDocument")
        .and_then(|document| document.get("uri"))
        .and_then(Value::as_str)
}

/// Its version, where a whole number is given.
pub(crate) fn named_version(params: &Value) -> Option<i64>
    ensures { result ≡ spec.named_version (view params.now) }
{
    params
        .get("textDocument")
        .and_then(|document| document.get("version"))
        .and_then(Value::as_i64)
}

/// The document of a name.
pub(crate) fn document_in<'d>(documents: &'d Documents, uri: &str) -> Option<&'d Document>
    ensures { option_map (λ d. document_view d.now) result
        ≡ spec.document_in (documents_view documents.now) uri.now }
{
    documents.get(uri)
}

/// The document of a name, which has to be open.
pub(crate) fn open_document<'d>(
    alloc: Global,
    documents: &'d Documents,
    uri: &str,
) -> Result<&'d Document, Fault>
    ensures { Reads (λ d. document_view d.now) result
        (spec.open_document (spec.document_in (documents_view documents.now) uri.now)) }
{
    match document_in(documents, uri) {
        Some(document) => Ok(document),
        None => Err(Fault::at(alloc, "uri").in_member(alloc, "textDocument")),
    }
}

/// The document that parameters are about, with its name.
pub(crate) fn asked_document(
    alloc: Global,
    documents: &Documents,
    params: Value,
) -> Result<(String, &Document), Fault>
    ensures { Reads (λ asked. (string_bytes asked.0, document_view asked.1.now)) result
        (spec.asked_document (documents_view documents.now) (view params)) }
{
    let uri = asked_uri(alloc, params)?;
    let document = open_document(alloc, documents, &uri)?;
    Ok((uri, document))
}

/// Closes the document of a name, if it is open.
pub(crate) fn close_document(documents: &mut Documents, uri: &str)
    ensures { documents_view documents.new ≡ spec.without_document (documents_view documents.old) uri.now }
{
    let _ = documents.remove(uri);
}

/// Opens a document, in the place of an earlier one of its name.
///
/// # Errors
///
/// Only if memory runs out.
pub(crate) fn put_document(
    documents: &mut Documents,
    uri: String,
    document: Document,
) -> Result<(), AllocError>
    ensures { OnOk result (documents_view documents.new
        ≡ spec.with_document (documents_view documents.old) (string_bytes uri) (document_view document)) }
{
    documents.insert(uri, document)?;
    Ok(())
}
