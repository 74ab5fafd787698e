//! Blocks.

ghost use Rattle.std.specs.Prelude.{◌≡◌, [], length, IfOk, OnOk, map, option_map};
ghost use Rattle.hir_input.specs.Attr.{meta_view};
ghost use Rattle.hir_input.specs.Syntax.{block_view, item_view, items_of, stmt_view, tail_view};
ghost use Rattle.rust_leaves.specs.Views.{call_read_view, front_view};
ghost use Rattle.rust_items.specs.Blocks as spec;
ghost use Rattle.rust_items.specs.Found.{Finds, log_view};
ghost use Rattle.rust_items.specs.LineEnds.{place_by};
ghost use Rattle.rust_items.specs.Places.{ArePlaces, IsWritten};
ghost use Rattle.rust_items.specs.Views.{body_view, block_part_view};

use crate::externs::is_list_end;
use crate::ids::{Supply, number_stmts, number_tail};
use crate::items::{MOST_DEPTH, behind_front};
use crate::line_ends::{LineEnds, has_return, with_feeds};
use crate::log::{Log, Problem, ProblemKind};
use crate::source_file::{ItemPlace, ids_of, places};
use crate::turn::{Extent, push_item};
use hir_input::ast::{BlockExpr, Item, Stmt, Tail};
use hir_input::{AstIdKind, EditionYear, FileAstId, Meta};
use rust_cursor::Cursor;
use rust_leaves::{
    Call, Wanted, WantedMetas, front_behind, is_item, pass_statement, statement_call,
};
use rust_metas::{inner_attributes, outer_attributes};
use rust_paths::TextRange;
use std::alloc::{AllocError, Global};

/// A part of a block.
#[derive(Drop)]
pub(crate) enum Part {
    Nothing,
    Stmt(Stmt),
    Tail(Tail),
}

/// The parts of a block.
#[derive(Drop)]
pub(crate) struct Body {
    pub stmts: Vec<Stmt>,
    pub tail: Tail,
}

fn item_part(item: Option<Item>) -> Part
    ensures { block_part_view result ≡ spec.item_part (option_map item_view item) }
{
    match item {
        Some(item) => Part::Stmt(Stmt::Item(item)),
        None => Part::Nothing,
    }
}

fn other_part(is_last: bool) -> Part
    ensures { block_part_view result ≡ spec.other_part is_last }
{
    if is_last {
        Part::Tail(Tail::Other)
    } else {
        Part::Stmt(Stmt::Other)
    }
}

/// A statement that is neither an item nor a macro call, or such an expression where it stands last.
#[tactic(auto, unfolding(crate::specs::Blocks::other_read))]
fn take_other(cursor: &mut Cursor<'_>, is_top: bool) -> Part
    ensures { spec.other_read is_top cursor.old ≡ (block_part_view result, cursor.new) }
{
    let is_let = cursor.word() == "let";
    let is_ended = pass_statement(cursor);
    let is_last = !is_let && (!is_ended && is_list_end(cursor, is_top));
    other_part(is_last)
}

fn is_operand(cursor: &Cursor<'_>) -> bool
    ensures { result ≡ spec.is_operand cursor.now }
{
    matches!(cursor.symbol(), b'.' | b'?')
}

/// Adds a macro call.
fn push_call<'t>(
    log: &mut Log<'t>,
    start: usize,
    end: usize,
    body: Option<TextRange>,
    name: &'t str,
) -> Result<(), AllocError>
    ensures { OnOk result (log_view log.new
        ≡ spec.and_named_call start end body name.now (log_view log.old)) }
{
    let extent = Extent {
        depth: 0,
        start,
        end,
        body,
    };
    push_item(log, extent, AstIdKind::MacroCall, name, None, true)
}

fn stmt_of<'t>(
    call: Call<'t>,
    start: usize,
    end: usize,
    log: &mut Log<'t>,
) -> Result<Part, AllocError>
    ensures { IfOk result (λ part. spec.stmt_of_call start end (call_read_view call.entry)
        (log_view log.old) ≡ (block_part_view part, log_view log.new)) }
{
    push_call(log, start, end, call.body, call.name)?;
    Ok(Part::Stmt(Stmt::MacroCall(call.node)))
}

fn tail_of<'t>(
    call: Call<'t>,
    start: usize,
    end: usize,
    log: &mut Log<'t>,
) -> Result<Part, AllocError>
    ensures { IfOk result (λ part. spec.tail_of_call start end (call_read_view call.entry)
        (log_view log.old) ≡ (block_part_view part, log_view log.new)) }
{
    push_call(log, start, end, call.body, call.name)?;
    Ok(Part::Tail(Tail::MacroCall(call.node)))
}

/// What a macro call is, by what stands behind it.
#[tactic(auto, unfolding(crate::specs::Blocks::call_found))]
fn call_part<'t>(
    cursor: &mut Cursor<'t>,
    is_top: bool,
    start: usize,
    call: Call<'t>,
    log: &mut Log<'t>,
) -> Result<Part, AllocError>
    ensures { Finds block_part_view
        (spec.call_found is_top start (call_read_view call.entry) (log_view log.old) cursor.old)
        result (log_view log.new) cursor.new }
{
    let end = cursor.last_end();
    if cursor.symbol() == b';' {
        cursor.bump();
        return stmt_of(call, start, end, log);
    }
    if is_list_end(cursor, is_top) {
        return tail_of(call, start, end, log);
    }
    if call.is_braced && !is_operand(cursor) {
        return stmt_of(call, start, end, log);
    }
    Ok(take_other(cursor, is_top))
}

/// A macro call, or another statement.
fn take_called<'t>(
    alloc: Global,
    cursor: &mut Cursor<'t>,
    is_top: bool,
    start: usize,
    attrs: Vec<Meta>,
    log: &mut Log<'t>,
) -> Result<Part, AllocError>
    ensures { Finds block_part_view
        (spec.taken_call is_top start (map meta_view attrs.items) (log_view log.old) cursor.old)
        result (log_view log.new) cursor.new }
{
    match statement_call(alloc, cursor, attrs)? {
        Some(call) => call_part(cursor, is_top, start, call, log),
        None => Ok(take_other(cursor, is_top)),
    }
}

#[tactic(auto, using(crate::proofs::ClippedItems::behind_front_whole))]
fn take_item<'t>(
    alloc: Global,
    cursor: &mut Cursor<'t>,
    start: usize,
    attrs: Vec<Meta>,
    log: &mut Log<'t>,
) -> Result<Part, AllocError>
    ensures { Finds block_part_view
        (spec.taken_item start (map meta_view attrs.items) (log_view log.old) cursor.old) result
        (log_view log.new) cursor.new }
{
    let front = front_behind(alloc, cursor, start, attrs)?;
    let wanted = Wanted {
        bodies: true,
        metas: WantedMetas::All,
    };
    let item = behind_front(alloc, cursor, wanted, MOST_DEPTH, front, log)?;
    Ok(item_part(item))
}

/// A part of a block, behind its attributes.
#[tactic(auto, unfolding(crate::specs::Blocks::part_behind_attributes))]
fn take_behind<'t>(
    alloc: Global,
    cursor: &mut Cursor<'t>,
    is_top: bool,
    start: usize,
    attrs: Vec<Meta>,
    log: &mut Log<'t>,
) -> Result<Part, AllocError>
    ensures { Finds block_part_view
        (spec.part_behind_attributes is_top start (map meta_view attrs.items)
        (log_view log.old) cursor.old) result (log_view log.new) cursor.new }
{
    if cursor.is_at_end() {
        return Ok(Part::Nothing);
    }
    if is_item(cursor) {
        return take_item(alloc, cursor, start, attrs, log);
    }
    take_called(alloc, cursor, is_top, start, attrs, log)
}

/// A part of a block.
#[tactic(auto, unfolding(crate::specs::Blocks::part))]
fn take_part<'t>(
    alloc: Global,
    cursor: &mut Cursor<'t>,
    is_top: bool,
    log: &mut Log<'t>,
) -> Result<Part, AllocError>
    ensures { Finds block_part_view (spec.part is_top (log_view log.old) cursor.old) result
        (log_view log.new) cursor.new }
{
    if cursor.is_at_end() {
        log.push_problem(ProblemKind::Unmatched, cursor.at())?;
        cursor.bump();
        return Ok(Part::Nothing);
    }
    if cursor.symbol() == b';' {
        cursor.bump();
        return Ok(Part::Nothing);
    }
    let start = cursor.at();
    let attrs = outer_attributes(alloc, cursor)?;
    take_behind(alloc, cursor, is_top, start, attrs, log)
}

fn push_part(body: &mut Body, part: Part) -> Result<(), AllocError>
    ensures { OnOk result (body_view body.new
        ≡ spec.and_part (body_view body.old) (block_part_view part)) }
{
    match part {
        Part::Nothing => Ok(()),
        Part::Stmt(stmt) => {
            body.stmts.push(stmt)?;
            Ok(())
        }
        Part::Tail(tail) => {
            body.tail = tail;
            Ok(())
        }
    }
}

/// The parts of a block, up to its `}`, or up to the end of the text.
#[tactic(auto, using(crate::proofs::Parts::parts_stop))]
fn parts<'t>(
    alloc: Global,
    cursor: &mut Cursor<'t>,
    is_top: bool,
    log: &mut Log<'t>,
) -> Result<Body, AllocError>
    ensures { Finds body_view (spec.parts is_top (log_view log.old) cursor.old) result
        (log_view log.new) cursor.new }
{
    let mut body = Body {
        stmts: Vec::new(alloc),
        tail: Tail::Nothing,
    };
    let most = Cursor::most_turns();
    for _turn in 0..most {
        if is_list_end(cursor, is_top) {
            return Ok(body);
        }
        let past = cursor.last_end();
        let part = take_part(alloc, cursor, is_top, log)?;
        push_part(&mut body, part)?;
        cursor.pass_beyond(past);
    }
    Ok(body)
}

/// The parts of a block with their ids.
fn numbered_body(mut body: Body, ids: &[FileAstId]) -> Body
    ensures stmts { let stmts = map stmt_view body.stmts.items in
        map stmt_view result.stmts.items ≡ (spec.stmts_with_ids stmts ids.now).0 }
    ensures tail { let left = (spec.stmts_with_ids (map stmt_view body.stmts.items) ids.now).1 in
        tail_view result.tail ≡ spec.tail_with_id (tail_view body.tail) left }
{
    let mut supply = Supply { rest: ids };
    number_stmts(&mut body.stmts, &mut supply);
    number_tail(&mut body.tail, &mut supply);
    body
}

/// What was read of a block.
#[derive(Debug, Drop)]
pub struct SourceBlock {
    pub block: BlockExpr,
    /// The places of its items and its macro calls, in preorder.
    pub places: Vec<ItemPlace>,
    /// What is wrong with it, in order.
    pub problems: Vec<Problem>,
}

/// What is read of a block's text with line feeds alone.
#[tactic(auto, unfolding(crate::specs::Blocks::found_of))]
fn block_of(
    alloc: Global,
    text: &str,
    edition: EditionYear,
    ends: &LineEnds,
) -> Result<SourceBlock, AllocError>
    ensures { IfOk result (λ read. spec.IsBlockOf edition text.now
        (place_by ends.now.len ends.now.returns.items) read) }
{
    let mut cursor = Cursor::new(text, edition);
    let is_top = !cursor.eat(b'{');
    let attrs = inner_attributes(alloc, &mut cursor)?;
    let mut log = Log::new(alloc);
    let body = parts(alloc, &mut cursor, is_top, &mut log)?;
    log.push_problem_at(ProblemKind::Unterminated, cursor.unended_token())?;
    let ids = ids_of(alloc, log.rows)?;
    let places = places(alloc, &ids, &log.spans, ends)?;
    let problems = ends.problems(alloc, &log.problems)?;
    let Body { stmts, tail } = numbered_body(body, &ids);
    Ok(SourceBlock {
        block: BlockExpr { attrs, stmts, tail },
        places,
        problems,
    })
}

/// What is read of a block's text, whichever line ends it has.
#[tactic(auto, using(crate::proofs::FilePlaces::same_block))]
fn read_text(alloc: Global, text: &str, edition: EditionYear) -> Result<SourceBlock, AllocError>
    ensures { IfOk result (λ read. spec.IsBlockRead edition text.now read) }
{
    if !has_return(text) {
        let ends = LineEnds::none(alloc, text);
        return block_of(alloc, text, edition, &ends);
    }
    let (feeds, ends) = with_feeds(alloc, text)?;
    block_of(alloc, &feeds, edition, &ends)
}

/// Reads a block expression from its text, with its braces; a text that begins with none is that between them. The
/// edition tells which words are names.
///
/// It answers for every text. Statements that are neither items nor macro calls are not read, nor are the blocks in
/// them. Places and spans count from the start of the text, and the ids count the items and the macro calls of this
/// block alone: those of the block in its file would need the file. What stands behind the block is ignored, but that
/// its last token is not ended.
///
/// # Errors
///
/// Only if memory runs out.
#[tactic(auto, using(crate::proofs::BlockPlaces::block_placed))]
pub fn read_block(
    alloc: Global,
    text: &str,
    edition: EditionYear,
) -> Result<SourceBlock, AllocError>
    ensures block { IfOk result (λ read. spec.IsBlockRead edition text.now read) }
    ensures placed { IfOk result (λ read. let items = items_of (block_view read.block) in
        ArePlaces (IsWritten text.now) 0 (length text.now) items read.places.items []) }
{
    read_text(alloc, text, edition)
}
