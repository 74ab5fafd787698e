//! The items of a block in the body of a function, and the blocks in its expressions.
ghost use Rattle.std.specs.Prelude.{◌≡◌, ℕ, All, IfOk, OnOk, Some, map, option_copied, option_map};
ghost use Rattle.std.specs.List.{list_any};
ghost use Rattle.rust_leaves.specs.Clipped.{clipped_front};
ghost use Rattle.rust_leaves.specs.Views.{front_view};
ghost use Rattle.rust_items.specs.MemberPlaces.{FitsMoved};
ghost use Rattle.rust_items.specs.Members.{range_moved_by};
ghost use Rattle.tree_walk.specs.Views.{row_view};
ghost use Rattle.source_tags.specs.BlockItems as spec;
ghost use Rattle.source_tags.specs.Inner.{FitsPlace, FitsText, block_item_view, condition_wanted, fn_block_view};
ghost use Rattle.source_tags.specs.Inner.{holder_view};

use hir_input::ast::Visibility;
use hir_input::{AstIdKind, CfgOptions, EditionYear, FileAstId, Name};
use item_tree::{RawVisibility, visibility_from_ast};
use rust_cursor::{Cursor, push_some};
use rust_items::{ItemPlace, TextRange, Wanted, WantedMetas, read_block};
use rust_leaves::{Front, wanted_front};
use rust_paths::name;
use source_listing::meta_cfgs::are_enabled;
use source_listing::scopes::names_in;
use source_rows::text_at;
use std::alloc::{AllocError, Global};
use std::rc::Rc;
use tree_walk::{Row, Subject};

/// A block in the body of a function.
#[derive(Clone, Copy)]
pub(crate) struct FnBlock<'a> {
    /// The word for the function.
    pub(crate) word: &'a str,
    /// The names from the outermost around it on, its own last.
    pub(crate) scope: &'a [&'a Name],
    /// Whether no cfg disables it, nor what it stands in.
    pub(crate) is_active: bool,
    /// Where the text of the block begins.
    pub(crate) base: usize,
    pub(crate) text: &'a str,
}

/// What is read of an item.
#[derive(Drop)]
pub(crate) struct BlockItem {
    name: Option<Name>,
    /// Who sees it, if that is told.
    visibility: Option<RawVisibility>,
    /// Whether no cfg in front of it disables it.
    is_enabled: bool,
}

/// A module or an extern block around an item.
#[derive(Drop)]
pub(crate) struct Holder {
    /// Where it ends.
    end: usize,
    /// The name of a module.
    name: Option<Name>,
    /// Whether no cfg in front of it disables it.
    is_enabled: bool,
}

// ---- where items stand

/// The same without its id, which nothing asks for.
fn bare_place(place: ItemPlace) -> ItemPlace
    ensures { result ≡ spec.bare_place place }
{
    ItemPlace {
        id: FileAstId {
            kind: place.id.kind,
            hash: 0,
            number: 0,
        },
        range: place.range,
        name: place.name,
        body: place.body,
    }
}

/// Where the items of a block stand in its text.
#[tactic(auto, using(crate::proofs::Blocks::bare_block, crate::proofs::Blocks::places_fit))]
pub(crate) fn block_places(
    alloc: Global,
    text: &str,
    edition: EditionYear,
) -> Result<Vec<ItemPlace>, AllocError>
    ensures places { IfOk result (λ v. v.items ≡ spec.block_places edition text.now) }
    ensures fit { IfOk result (λ v. (by : ℕ) → FitsText by text.now → All (FitsPlace by) v.items) }
{
    let read = read_block(alloc, text, edition)?;
    let mut places = Vec::with_capacity(alloc, read.places.len())?;
    for place in &read.places {
        places.push(bare_place(*place))?;
    }
    Ok(places)
}

fn moved_range(range: TextRange, by: usize) -> TextRange
    requires { FitsMoved by (Some range) }
    ensures { result ≡ range_moved_by by range }
{
    TextRange {
        start: by + range.start,
        end: by + range.end,
    }
}

fn moved_some(range: Option<TextRange>, by: usize) -> Option<TextRange>
    requires { FitsMoved by range }
    ensures { result ≡ option_map (range_moved_by by) range }
{
    match range {
        Some(range) => Some(moved_range(range, by)),
        None => None,
    }
}

/// Where an item stands in a text with so many bytes in front.
pub(crate) fn moved_place(place: ItemPlace, by: usize) -> ItemPlace
    requires { FitsPlace by place }
    ensures { result ≡ spec.place_moved_by by place }
{
    ItemPlace {
        id: place.id,
        range: moved_range(place.range, by),
        name: moved_some(place.name, by),
        body: moved_some(place.body, by),
    }
}

// ---- the blocks in expressions

/// Whether a macro is called.
fn is_call_here(cursor: &Cursor<'_>) -> bool
    ensures { result ≡ spec.is_call_here cursor.now }
{
    if !cursor.is_at_identifier() {
        return false;
    }
    let second = cursor.second();
    second.symbol() == b'!' && second.second().is_at_open()
}

fn is_around_any(place: usize, places: &[ItemPlace]) -> bool
    ensures { result ≡ list_any (spec.stands_around place) places.now }
{
    places
        .iter()
        .any(|item| item.range.start <= place && place < item.range.end)
}

/// Braces that stand in none of these items.
fn own_braces(places: &[ItemPlace], start: usize, end: usize) -> Option<TextRange>
    ensures { result ≡ spec.own_braces places.now start end }
{
    if is_around_any(start, places) {
        None
    } else {
        Some(TextRange { start, end })
    }
}

/// Passes over what a macro is given, braces, or a token.
#[tactic(auto, unfolding(crate::specs::BlockItems::braces_turn))]
fn take_braces(cursor: &mut Cursor<'_>, places: &[ItemPlace]) -> Option<TextRange>
    ensures { spec.braces_turn places.now cursor.old ≡ (result, cursor.new) }
{
    if is_call_here(cursor) {
        cursor.bump();
        cursor.bump();
        cursor.pass_tree();
        return None;
    }
    if cursor.symbol() != b'{' {
        cursor.bump();
        return None;
    }
    let start = cursor.at();
    cursor.pass_tree();
    own_braces(places, start, cursor.last_end())
}

/// The outermost braces in those of a block with these items.
#[tactic(auto, unfolding(crate::specs::BlockItems::inner_blocks, rust_cursor::specs::Elements::turns), using(rust_cursor::proofs::Turns::turns_stop))]
pub(crate) fn inner_blocks(
    alloc: Global,
    text: &str,
    edition: EditionYear,
    places: &[ItemPlace],
) -> Result<Vec<TextRange>, AllocError>
    ensures { IfOk result (λ v. v.items ≡ spec.inner_blocks edition places.now text.now) }
{
    let mut cursor = Cursor::new(text, edition);
    let _is_block = cursor.eat(b'{');
    let mut blocks = Vec::new(alloc);
    let most = Cursor::most_turns();
    for _turn in 0..most {
        if cursor.is_empty() {
            break;
        }
        let past = cursor.last_end();
        let block = take_braces(&mut cursor, places);
        push_some(&mut blocks, block)?;
        cursor.pass_beyond(past);
    }
    Ok(blocks)
}

// ---- what is read of an item

/// What stands in front of an item: its visibility, and its conditions.
#[tactic(auto, unfolding(rust_leaves::specs::Clipped::with_value))]
fn item_front(alloc: Global, item: &str, edition: EditionYear) -> Result<Front, AllocError>
    ensures { IfOk result (λ h. front_view h
        ≡ clipped_front condition_wanted (spec.block_item_front edition item.now)) }
{
    let mut cursor = Cursor::new(item, edition);
    let wanted = Wanted {
        bodies: false,
        metas: WantedMetas::Conditions,
    };
    wanted_front(alloc, &mut cursor, wanted)
}

fn item_name(
    alloc: Global,
    text: &str,
    edition: EditionYear,
    range: Option<TextRange>,
) -> Result<Option<Name>, AllocError>
    ensures { IfOk result (λ n. n ≡ spec.block_item_name edition range text.now) }
{
    match range {
        Some(range) => name(alloc, &mut Cursor::new(text_at(text, range), edition)),
        None => Ok(None),
    }
}

fn item_visibility(
    alloc: Global,
    kind: AstIdKind,
    visibility: Option<&Visibility>,
) -> Result<Option<RawVisibility>, AllocError>
    ensures { IfOk result
        (λ v. v ≡ spec.block_item_visibility kind (option_copied visibility.entry)) }
{
    match kind {
        AstIdKind::MacroRules => Ok(None),
        _ => Ok(Some(visibility_from_ast(alloc, visibility)?)),
    }
}

/// What is read of an item that stands there in the text of a block.
#[tactic(auto, unfolding(rust_leaves::specs::Clipped::clipped_front))]
pub(crate) fn block_item(
    alloc: Global,
    text: &str,
    edition: EditionYear,
    options: &CfgOptions,
    place: ItemPlace,
) -> Result<BlockItem, AllocError>
    ensures { IfOk result (λ i. block_item_view i
        ≡ spec.block_item edition options.now text.now place) }
{
    let front = item_front(alloc, text_at(text, place.range), edition)?;
    Ok(BlockItem {
        name: item_name(alloc, text, edition, place.name)?,
        visibility: item_visibility(alloc, place.id.kind, front.visibility.as_ref())?,
        is_enabled: are_enabled(alloc, &front.attrs, options)?,
    })
}

// ---- what stands around an item

/// Leaves what ends before a place.
pub(crate) fn leave(place: usize, holders: &mut Vec<Holder>)
    ensures { map holder_view holders.new.items
        ≡ spec.still_around place (map holder_view holders.old.items) }
{
    holders.retain(|holder| place < holder.end);
}

/// Adds what holds items to what stands around those that follow it.
pub(crate) fn enter(
    place: ItemPlace,
    item: BlockItem,
    holders: &mut Vec<Holder>,
) -> Result<(), AllocError>
    ensures { OnOk result (map holder_view holders.new.items
        ≡ spec.holders_behind place.id.kind place.range.end (block_item_view item)
        (map holder_view holders.old.items)) }
{
    let BlockItem {
        name,
        visibility: _,
        is_enabled,
    } = item;
    let name = match place.id.kind {
        AstIdKind::Module => name,
        AstIdKind::ExternBlock => None,
        _ => return Ok(()),
    };
    holders.push(Holder {
        end: place.range.end,
        name,
        is_enabled,
    })?;
    Ok(())
}

/// The names of modules.
pub(crate) fn module_names<'a>(
    alloc: Global,
    holders: &'a [Holder],
) -> Result<Vec<&'a Name>, AllocError>
    ensures { IfOk result (λ v. map (λ n. n.now) v.items
        ≡ spec.modules_of (map holder_view holders.now)) }
{
    let mut names = Vec::new(alloc);
    for holder in holders {
        push_some(&mut names, holder.name.as_ref())?;
    }
    Ok(names)
}

/// The word for the innermost of what an item stands in: the function, or one of these modules.
pub(crate) fn word_inside<'a>(word: &'a str, modules: &[&Name]) -> &'a str
    ensures { result.now ≡ spec.word_inside word.now (map (λ n. n.now) modules.now) }
{
    if modules.is_empty() { word } else { "module" }
}

fn all_enabled(holders: &[Holder]) -> bool
    ensures { result ≡ spec.all_enabled (map holder_view holders.now) }
{
    for holder in holders {
        if !holder.is_enabled {
            return false;
        }
    }
    true
}

/// The row of an item of a block in these.
pub(crate) fn block_row<'r>(
    alloc: Global,
    block: FnBlock<'r>,
    holders: &'r [Holder],
    item: &'r BlockItem,
    place: ItemPlace,
) -> Result<Row<'r>, AllocError>
    ensures { let row = spec.block_row (fn_block_view block.entry) (map holder_view holders.entry.now)
        (block_item_view item.entry.now) in
        IfOk result (λ r. row_view r ≡ row place) }
{
    let mut scope = names_in(alloc, block.scope)?;
    scope.append(&mut module_names(alloc, holders)?)?;
    Ok(Row {
        level: 0,
        scope: Rc::new(alloc, scope)?,
        id: place.id,
        name: item.name.as_ref(),
        subject: Subject::Nothing,
        visibility: item.visibility.as_ref(),
        is_active: block.is_active && all_enabled(holders) && item.is_enabled,
    })
}
