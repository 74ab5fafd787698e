//! Symbols, and their objects.
ghost use Rattle.std.specs.Prelude.{◌≡◌, ◌≤◌, ◌+◌, ◌^◌, IfOk, length, string_bytes, option_copied};
ghost use Rattle.serde_json.specs.View.{items_view, view};
ghost use Rattle.source_rows.specs.ListedViews.{listed_view};
ghost use Rattle.lsp.specs.Symbols as spec;
ghost use Rattle.lsp.specs.Views.{symbol_view};

use crate::position::{Span, span_value};
use crate::text::LinedText;
use hir_input::{AstIdKind, Edition, Name};
use item_tree::RawVisibility;
use line_index::Units;
use rust_items::{ItemPlace, MemberKind};
use rust_paths::TextRange;
use serde_json::{Map, Value, put};
use source_listing::visibility_value;
use source_rows::{ListedMember, item_word};
use std::alloc::{AllocError, Global};

/// A symbol: its name, how it is seen, what it is called, and where it and its name stand.
#[derive(Drop)]
pub(crate) struct Symbol {
    pub(crate) name: String,
    pub(crate) detail: String,
    pub(crate) kind: u32,
    pub(crate) range: TextRange,
    pub(crate) selection: TextRange,
}

/// What the protocol calls an item of a kind, by number: uses, extern crates and macro calls are no symbols.
pub(crate) fn symbol_kind(kind: AstIdKind) -> Option<u32>
    ensures { result ≡ spec.protocol_kind kind }
{
    match kind {
        AstIdKind::Module => Some(2),
        AstIdKind::ExternBlock => Some(3),
        AstIdKind::Enum => Some(10),
        AstIdKind::Trait => Some(11),
        AstIdKind::Fn | AstIdKind::MacroDef | AstIdKind::MacroRules => Some(12),
        AstIdKind::Const | AstIdKind::Static => Some(14),
        AstIdKind::Impl => Some(19),
        AstIdKind::Struct | AstIdKind::Union => Some(23),
        AstIdKind::TypeAlias => Some(26),
        AstIdKind::ExternCrate | AstIdKind::MacroCall | AstIdKind::Use => None,
    }
}

fn member_symbol(kind: MemberKind) -> u32
    ensures { result ≡ spec.member_symbol kind }
{
    match kind {
        MemberKind::Function => 6,
        MemberKind::Field => 8,
        MemberKind::MacroCall => 12,
        MemberKind::Constant => 14,
        MemberKind::Variant => 22,
        MemberKind::TypeAlias => 26,
    }
}

/// The object of a symbol with others in it.
pub(crate) fn symbol_value(
    alloc: Global,
    units: Units,
    text: &LinedText,
    symbol: Symbol,
    inner: Vec<Value>,
) -> Result<Value, AllocError>
    ensures { let s = symbol_view symbol in
        IfOk result (λ value. view value ≡ spec.symbol_data units text.now s (items_view inner.items)) }
{
    let mut members = Map::new(alloc);
    let selection = span_value(alloc, text.span(units, symbol.selection))?;
    put(&mut members, alloc, "selectionRange", selection)?;
    let range = span_value(alloc, text.span(units, symbol.range))?;
    put(&mut members, alloc, "range", range)?;
    put(&mut members, alloc, "name", Value::String(symbol.name))?;
    put(&mut members, alloc, "kind", Value::from(symbol.kind))?;
    put(&mut members, alloc, "detail", Value::String(symbol.detail))?;
    put(&mut members, alloc, "children", Value::Array(inner))?;
    Ok(Value::Object(members))
}

/// The object of a range in the document of a name.
fn location(alloc: Global, uri: &str, span: Span) -> Result<Value, AllocError>
    ensures { IfOk result (λ value. view value ≡ spec.location uri.now span) }
{
    let mut members = Map::new(alloc);
    put(&mut members, alloc, "uri", Value::try_from_str(alloc, uri)?)?;
    put(&mut members, alloc, "range", span_value(alloc, span)?)?;
    Ok(Value::Object(members))
}

/// The object of a symbol that stands alone, in the document of a name.
pub(crate) fn information_value(
    alloc: Global,
    uri: &str,
    container: Option<&str>,
    span: Span,
    symbol: Symbol,
) -> Result<Value, AllocError>
    ensures { let information = spec.information uri.now (option_copied container.entry) span (symbol_view symbol) in
        IfOk result (λ value. view value ≡ information) }
{
    let mut members = Map::new(alloc);
    put(&mut members, alloc, "name", Value::String(symbol.name))?;
    put(&mut members, alloc, "location", location(alloc, uri, span)?)?;
    put(&mut members, alloc, "kind", Value::from(symbol.kind))?;
    let Some(container) = container else {
        return Ok(Value::Object(members));
    };
    let name = Value::try_from_str(alloc, container)?;
    put(&mut members, alloc, "containerName", name)?;
    Ok(Value::Object(members))
}

/// Words, and behind them that a cfg disables what they are of.
fn inactive_words(alloc: Global, words: &str) -> Result<String, AllocError>
    ensures { IfOk result (λ text. string_bytes text ≡ spec.inactive_words words.now) }
{
    if words.is_empty() {
        return String::from_str(alloc, "inactive");
    }
    let mut text = String::from_str(alloc, words)?;
    text.push_str(", inactive")?;
    Ok(text)
}

/// A visibility as it was written, and whether a cfg disables what has it.
pub(crate) fn detail_words(
    alloc: Global,
    edition: &Edition,
    visibility: Option<&RawVisibility>,
    is_active: bool,
) -> Result<String, AllocError>
    ensures { let words = spec.detail_words edition.now.reserved.items (option_copied visibility.entry) is_active in
        IfOk result (λ text. string_bytes text ≡ words) }
{
    let value = visibility_value(alloc, edition, visibility)?;
    let words = value.as_str().unwrap_or("");
    if is_active {
        String::from_str(alloc, words)
    } else {
        inactive_words(alloc, words)
    }
}

/// What an item without a name is called: an impl by its header, another by its kind.
fn header_or_kind(alloc: Global, kind: AstIdKind, header: &str) -> Result<String, AllocError>
    ensures { IfOk result (λ text. string_bytes text ≡ spec.header_or_kind kind header.now) }
{
    let mut text = String::from_str(alloc, item_word(kind))?;
    if header.is_empty() {
        return Ok(text);
    }
    text.push_str(" ")?;
    text.push_str(header)?;
    Ok(text)
}

/// What an item is called.
pub(crate) fn symbol_name(
    alloc: Global,
    kind: AstIdKind,
    header: &str,
    name: Option<&Name>,
) -> Result<String, AllocError>
    ensures { let called = spec.symbol_name kind header.now (option_copied name.entry) in
        IfOk result (λ text. string_bytes text ≡ called) }
{
    match name {
        Some(name) => String::from_str(alloc, name.text()),
        None => header_or_kind(alloc, kind, header),
    }
}

/// Where the name of an item stands; one without a name is told where it begins.
pub(crate) fn item_selection(place: ItemPlace) -> TextRange
    ensures { result ≡ spec.item_selection place }
{
    let start = place.range.start;
    place.name.unwrap_or(TextRange { start, end: start })
}

/// How long a name is in a text, with the `r#` in front of it, if that stands there.
fn written_length(text: &str, at: usize, name: &str) -> usize
    ensures { result ≡ spec.written_length text.now at name.now }
{
    let bytes = text.as_bytes();
    if at <= bytes.len() && bytes[at..].starts_with(b"r#") {
        return 2 + name.len();
    }
    name.len()
}

/// Where the name of a member stands.
pub(crate) fn member_selection(text: &str, member: &ListedMember) -> TextRange
    ensures { result ≡ spec.member_selection text.now (listed_view member.now) }
{
    let length = written_length(text, member.at, member.name.text());
    TextRange {
        start: member.at,
        end: member.at.saturating_add(length).min(text.len()),
    }
}

/// The symbol of a member.
pub(crate) fn listed_symbol(
    alloc: Global,
    text: &str,
    edition: &Edition,
    member: &ListedMember,
) -> Result<Symbol, AllocError>
    ensures { let s = spec.listed_symbol text.now edition.now.reserved.items (listed_view member.now) in
        IfOk result (λ symbol. symbol_view symbol ≡ s) }
{
    Ok(Symbol {
        name: String::from_str(alloc, member.name.text())?,
        detail: detail_words(alloc, edition, Some(&member.visibility), member.is_active)?,
        kind: member_symbol(member.kind),
        range: member.range,
        selection: member_selection(text, member),
    })
}
