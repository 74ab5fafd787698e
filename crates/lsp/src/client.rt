//! What a client can do.
ghost use Rattle.std.specs.Prelude.{◌≡◌, map, option_and_then, option_map};
ghost use Rattle.serde_json.specs.Find.{as_array, as_str};
ghost use Rattle.serde_json.specs.View.{items_view, view};
ghost use Rattle.lsp.specs.Clients as spec;

use line_index::Units;
use serde_json::Value;

/// What the characters of positions count, and whether symbols may stand in symbols.
#[derive(Clone, Copy, Debug)]
pub struct Client {
    pub units: Units,
    pub is_hierarchical: bool,
}

/// The value under each of these keys in turn.
fn value_inside<'v>(value: &'v Value, keys: &[&str]) -> Option<&'v Value>
    ensures { option_map (λ v. view v.now) result ≡ spec.value_inside (map (λ k. k.now) keys.now) (view value.now) }
{
    let mut found = value;
    for key in keys {
        found = found.get(*key)?;
    }
    Some(found)
}

fn is_text(value: &Value, text: &str) -> bool
    ensures { result ≡ spec.is_this_text text.now (as_str (view value.now)) }
{
    match value.as_str() {
        Some(found) => found == text,
        None => false,
    }
}

fn has_text(items: &[Value], text: &str) -> bool
    ensures { result ≡ spec.has_text text.now (items_view items.now) }
{
    for item in items {
        if is_text(item, text) {
            return true;
        }
    }
    false
}

/// Whether the client offers to count bytes.
fn offers_bytes(params: &Value) -> bool
    ensures { result ≡ spec.offers_bytes (view params.now) }
{
    let offered = value_inside(params, &["capabilities", "general", "positionEncodings"]);
    match offered.and_then(Value::as_array) {
        Some(encodings) => has_text(encodings, "utf-8"),
        None => false,
    }
}

fn is_hierarchical(params: &Value) -> bool
    ensures { result ≡ spec.is_hierarchical (view params.now) }
{
    let keys = [
        "capabilities",
        "textDocument",
        "documentSymbol",
        "hierarchicalDocumentSymbolSupport",
    ];
    value_inside(params, &keys)
        .and_then(Value::as_bool)
        .unwrap_or(false)
}

/// The client that opens a conversation by these parameters.
pub(crate) fn client_of(params: &Value) -> Client
    ensures { result ≡ spec.client_of (view params.now) }
{
    Client {
        units: if offers_bytes(params) {
            Units::Bytes
        } else {
            Units::Utf16
        },
        is_hierarchical: is_hierarchical(params),
    }
}
