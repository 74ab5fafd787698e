//! How a conversation is opened.
ghost use Rattle.std.specs.Prelude.{◌≡◌, IfOk};
ghost use Rattle.serde_json.specs.View.{view};
ghost use Rattle.lsp.specs.Clients.{encoding};
ghost use Rattle.lsp.specs.Servers as spec;

use line_index::Units;
use serde_json::{Value, json};
use std::alloc::{AllocError, Global};

fn encoding(units: Units) -> &'static str
    ensures { result.now ≡ encoding units }
{
    match units {
        Units::Bytes => "utf-8",
        _ => "utf-16",
    }
}

/// The answer that opens a conversation.
pub(crate) fn initialize_value(alloc: Global, units: Units) -> Result<Value, AllocError>
    ensures { IfOk result (λ value. view value ≡ spec.initialize_data units) }
{
    let encoding = encoding(units);
    json!(in alloc; {
        "capabilities": {
            "documentHighlightProvider": true,
            "documentSymbolProvider": true,
            "foldingRangeProvider": true,
            "positionEncoding": encoding,
            "selectionRangeProvider": true,
            "textDocumentSync": {"change": 2, "openClose": true}
        },
        "serverInfo": {"name": "itemtree"}
    })
}
