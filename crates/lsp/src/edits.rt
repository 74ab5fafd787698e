//! What notifications make of documents.
ghost use Rattle.std.specs.Prelude.{◌≡◌, option_map};
ghost use Rattle.serde_json.specs.View.{view};
ghost use Rattle.hir_input_json.specs.Reads.{Reads};
ghost use Rattle.lsp.specs.Documents.{document_in as spec_document_in, open_form};
ghost use Rattle.lsp.specs.Inner.{OnRead};
ghost use Rattle.lsp.specs.Servers as spec;
ghost use Rattle.lsp.specs.Views.{document_view, documents_view};

use crate::change::{changes_at, make_changes};
use crate::document::{Document, Documents, document_of, named_version, put_document};
use hir_input_json::Fault;
use hir_input_json::member::members_of;
use line_index::Units;
use serde_json::Value;
use std::alloc::Global;

/// Changes a document as parameters ask, by the units of the client.
fn change_text(
    alloc: Global,
    units: Units,
    document: &mut Document,
    params: Value,
) -> Result<(), Fault>
    ensures { let d = document_view document.old in
        Reads (λ _. document_view document.new) result (spec.changed_document units (view params) d) }
{
    let version = named_version(&params);
    let mut members = members_of(alloc, params)?;
    let changes = changes_at(alloc, &mut members)?;
    make_changes(alloc, units, changes, &mut document.text)?;
    document.version = version;
    Ok(())
}

/// Changes the document of a name; one whose changes cannot be read is closed.
pub(crate) fn change_document(
    alloc: Global,
    units: Units,
    documents: &mut Documents,
    uri: &str,
    params: Value,
) -> Result<(), Fault>
    ensures { let docs = documents_view documents.old in
        OnRead result (documents_view documents.new
        ≡ spec.changed_by docs uri.now
        (option_map (spec.changed_document units (view params)) (spec_document_in docs uri.now))) }
{
    let Some((name, mut document)) = documents.remove_entry(uri) else {
        return Ok(());
    };
    change_text(alloc, units, &mut document, params)?;
    put_document(documents, name, document)?;
    Ok(())
}

/// Opens the document of parameters.
pub(crate) fn open_document(
    alloc: Global,
    documents: &mut Documents,
    params: Value,
) -> Result<(), Fault>
    ensures { let docs = documents_view documents.old in
        OnRead result (documents_view documents.new ≡ spec.opened_documents docs (open_form (view params))) }
{
    let (uri, document) = document_of(alloc, params)?;
    put_document(documents, uri, document)?;
    Ok(())
}
