//! What is listed of a document.
ghost use Rattle.std.specs.Prelude.{◌≡◌, ◌⊎◌, Err, IfErr, IfOk, Ok, false, map, option_copied};
ghost use Rattle.serde_json.specs.Data.{array};
ghost use Rattle.serde_json.specs.View.{items_view, view};
ghost use Rattle.serde_json.specs.Written.{has_float};
ghost use Rattle.source_rows.specs.ListedViews.{reading_view};
ghost use Rattle.itemtree_commands.specs.Answers.{HasNoList};
ghost use Rattle.lsp.specs.Documents.{asked_document as asked};
ghost use Rattle.lsp.specs.Inner.{IsPlainOutcome, request_outcome_view, listed_reading};
ghost use Rattle.lsp.specs.Servers as spec;
ghost use Rattle.lsp.specs.Views.{document_view, documents_view};
ghost use Rattle.lsp.specs.declared.response.ResponseError.TheVariants.{OutOfMemory};

use crate::client::Client;
use crate::document::{Document, Documents, asked_document};
use crate::response::Outcome;
use crate::symbols::{Page, tree_symbols};
use itemtree_commands::{Options, SourceError, listed_tree};
use serde_json::Value;
use source_rows::{MendedFile, Reading};
use std::alloc::Global;

/// How headers and members of a listed text are read.
pub(crate) fn reading_of<'a>(
    options: &'a Options,
    text: &'a str,
    mended: Option<&'a MendedFile>,
) -> Reading<'a>
    ensures { reading_view result ≡ listed_reading options.now text.now (option_copied mended.entry) }
{
    Reading {
        text,
        mended,
        edition: options.edition.year,
        options: Some(&options.krate.cfg),
    }
}

/// The name of the document, for a client that does not know symbols in one another.
fn flat_in(client: Client, uri: &str) -> Option<&str>
    ensures { option_copied result ≡ spec.flat_in client uri.now }
{
    if client.is_hierarchical {
        None
    } else {
        Some(uri)
    }
}

/// A list of values.
fn list_value(values: Vec<Value>) -> Value
    ensures { view result ≡ array (items_view values.items) }
{
    Value::Array(values)
}

/// The symbols of a Rust document of a name.
#[tactic(auto, using(itemtree_commands::proofs::Refusals::no_list))]
pub(crate) fn document_symbols(
    alloc: Global,
    options: &Options,
    client: Client,
    uri: &str,
    document: &Document,
) -> Result<Value, SourceError>
    ensures symbols { let d = document_view document.now in
        IfOk result (λ value. spec.AreSymbolsOf options.now client uri.now d (Ok (view value))) }
    ensures plain { IfOk result (λ value. has_float (view value) ≡ false) }
    ensures refused { IfErr result (HasNoList options.now document.now.text) }
{
    let text = &document.text;
    let listed = listed_tree(alloc, text.text(), options)?;
    let page = Page {
        units: client.units,
        text,
        flat_in: flat_in(client, uri),
        tree: &listed.source.tree,
        reading: reading_of(options, text.text(), listed.mended.as_ref()),
        edition: &options.edition,
    };
    let symbols = tree_symbols(alloc, page, &listed.source.places)?;
    Ok(list_value(symbols))
}

/// The symbols of the document that parameters are about, which has none where it is not Rust.
pub(crate) fn asked_symbols(
    alloc: Global,
    options: &Options,
    client: Client,
    documents: &Documents,
    params: Value,
) -> Outcome
    ensures symbols { let out = request_outcome_view result in let ds = documents_view documents.now in
        (out ≡ Err OutOfMemory) ⊎ spec.AreAskedSymbols options.now client (asked ds (view params)) out }
    ensures plain { IsPlainOutcome result }
{
    let (uri, document) = asked_document(alloc, documents, params)?;
    if !document.is_rust {
        return Ok(list_value(Vec::new(alloc)));
    }
    let symbols = document_symbols(alloc, options, client, &uri, document)?;
    Ok(symbols)
}
