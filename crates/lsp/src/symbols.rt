//! The symbols of a document.
ghost use Rattle.std.specs.Prelude.{◌≡◌, ◌++◌, IfOk, None, OnOk, Some, flat_map, map, option_copied};
ghost use Rattle.serde_json.specs.View.{view};
ghost use Rattle.item_tree.specs.Shown.{IsContained};
ghost use Rattle.item_tree.specs.Walk.{AreContained, count_at};
ghost use Rattle.source_rows.specs.ListedViews.{reading_view};
ghost use Rattle.source_rows.specs.Places.{AreDistinct, place_of};
ghost use Rattle.lsp.specs.Inner.{page_view, symbols_at};
ghost use Rattle.source_listing.specs.Views.{shown_item_view};
ghost use Rattle.lsp.specs.Symbols as spec;
ghost use Rattle.lsp.specs.Views.{symbol_view};

use crate::symbol::{
    Symbol, detail_words, information_value, item_selection, listed_symbol, symbol_kind,
    symbol_name, symbol_value,
};
use crate::text::LinedText;
use hir_input::Edition;
use item_tree::{ItemTree, ModItemId};
use line_index::Units;
use rust_items::ItemPlace;
use serde_json::Value;
use source_listing::{Item, item_of};
use source_rows::{Places, Reading};
use std::alloc::{AllocError, Global};
use tree_walk::{children, is_file_enabled};

/// What symbols are told of.
#[derive(Clone, Copy)]
pub(crate) struct Page<'a> {
    pub(crate) units: Units,
    pub(crate) text: &'a LinedText,
    /// The name of the document, where each symbol stands alone.
    pub(crate) flat_in: Option<&'a str>,
    pub(crate) tree: &'a ItemTree,
    pub(crate) reading: Reading<'a>,
    pub(crate) edition: &'a Edition,
}

/// The symbol of an item that stands there.
fn item_symbol(
    alloc: Global,
    page: Page<'_>,
    item: Item<'_>,
    kind: u32,
    place: ItemPlace,
) -> Result<Symbol, AllocError>
    ensures { let p = page_view page.entry in
        let symbol = spec.item_symbol p.reading p.reserved (shown_item_view item.entry) kind place in
        IfOk result (λ s. symbol_view s ≡ symbol) }
{
    let header = page.reading.header(alloc, item.id.kind, Some(place))?;
    Ok(Symbol {
        name: symbol_name(alloc, item.id.kind, &header, item.name)?,
        detail: detail_words(alloc, page.edition, item.visibility, item.is_active)?,
        kind,
        range: place.range,
        selection: item_selection(place),
    })
}

/// Adds a symbol with what is told of those in it: around that, or in front of it.
fn push_told(
    alloc: Global,
    page: Page<'_>,
    container: Option<&str>,
    symbol: Symbol,
    mut inner: Vec<Value>,
    out: &mut Vec<Value>,
) -> Result<(), AllocError>
    ensures { let told = spec.with_symbol (page_view page.entry) (option_copied container.entry)
        (symbol_view symbol) (map view inner.items) in
        OnOk result (map view out.new.items ≡ map view out.old.items ++ told) }
{
    let Some(uri) = page.flat_in else {
        out.push(symbol_value(alloc, page.units, page.text, symbol, inner)?)?;
        return Ok(());
    };
    let span = page.text.span(page.units, symbol.range);
    out.push(information_value(alloc, uri, container, span, symbol)?)?;
    out.append(&mut inner)?;
    Ok(())
}

/// The symbols of the members of an item that is called so and stands there.
fn member_values(
    alloc: Global,
    page: Page<'_>,
    name: &str,
    place: ItemPlace,
    is_active: bool,
) -> Result<Vec<Value>, AllocError>
    ensures { let symbols = spec.member_symbols (page_view page.entry) name.now is_active place in
        IfOk result (λ values. map view values.items ≡ symbols) }
{
    let members = page.reading.members(alloc, Some(place), is_active)?;
    let mut values = Vec::with_capacity(alloc, members.len())?;
    for member in &members {
        let symbol = listed_symbol(alloc, page.text.text(), page.edition, member)?;
        push_told(
            alloc,
            page,
            Some(name),
            symbol,
            Vec::new(alloc),
            &mut values,
        )?;
    }
    Ok(values)
}

/// Adds the symbols of items, in what is called so, or in nothing.
#[cycle(symbols)]
fn push_symbols(
    alloc: Global,
    page: Page<'_>,
    places: &mut Places<'_>,
    ids: &[ModItemId],
    container: Option<&str>,
    is_active: bool,
    out: &mut Vec<Value>,
) -> Result<(), AllocError>
    requires distinct { AreDistinct places.old }
    requires contained { AreContained page.tree.now ids.now }
    ensures symbols { let at = symbols_at (page_view page.entry) places.old page.entry.tree.now
        (option_copied container.entry) is_active in
        OnOk result (map view out.new.items ≡ map view out.old.items ++ flat_map at ids.now) }
    ensures same { places.new ≡ places.old }
{
    for id in ids {
        push_symbol(alloc, page, places, *id, container, is_active, out)?;
    }
    Ok(())
}

/// Adds the symbol of an item, if it is one and its place is known, and those of its members and of the items in it.
#[cycle(symbols)]
fn push_symbol(
    alloc: Global,
    page: Page<'_>,
    places: &mut Places<'_>,
    id: ModItemId,
    container: Option<&str>,
    is_active: bool,
    out: &mut Vec<Value>,
) -> Result<(), AllocError>
    requires distinct { AreDistinct places.old }
    requires contained { IsContained page.tree.now id }
    ensures symbols { let at = symbols_at (page_view page.entry) places.old page.entry.tree.now
        (option_copied container.entry) is_active in
        OnOk result (map view out.new.items ≡ map view out.old.items ++ at id) }
    ensures same { places.new ≡ places.old }
{
    let item = item_of(page.tree, id, is_active);
    let Some(kind) = symbol_kind(item.id.kind) else {
        return Ok(());
    };
    let Some(place) = places.find(item.id) else {
        return Ok(());
    };
    let symbol = item_symbol(alloc, page, item, kind, place)?;
    let mut inner = member_values(alloc, page, &symbol.name, place, item.is_active)?;
    let ids = children(page.tree, id);
    let name = Some(symbol.name.as_str());
    push_symbols(alloc, page, places, ids, name, item.is_active, &mut inner)?;
    push_told(alloc, page, container, symbol, inner, out)
}

/// The symbols of a tree, each around those of its members and of the items in it, or in front of them.
///
/// The places are those that the reader gave with the syntax of the tree.
///
/// # Errors
///
/// Only if memory runs out.
#[tactic(auto, using(item_tree::proofs::Walking::ids_contained))]
pub(crate) fn tree_symbols(
    alloc: Global,
    page: Page<'_>,
    places: &[ItemPlace],
) -> Result<Vec<Value>, AllocError>
    requires { AreDistinct places.now }
    ensures { let symbols = spec.tree_symbols (page_view page.entry) places.now page.entry.tree.now in
        IfOk result (λ values. map view values.items ≡ symbols) }
{
    let mut symbols = Vec::new(alloc);
    let mut places = Places::new(places);
    let (ids, is_active) = (page.tree.top_level_items(), is_file_enabled(page.tree));
    push_symbols(alloc, page, &mut places, ids, None, is_active, &mut symbols)?;
    Ok(symbols)
}
