//! Statements: what begins one, and how far it goes.

ghost use Rattle.std.specs.Prelude.{◌≡◌};
ghost use Rattle.rust_leaves.specs.Statements as spec;

use crate::head::{Head, head_at};
use crate::modifiers::is_modifier;
use rust_cursor::Cursor;
use rust_lexer::TokenKind;

/// How a statement goes on.
#[derive(Clone, Copy)]
pub(crate) enum Scan {
    /// Up to a semicolon.
    Plain,
    /// With what stands before its block, and this. It is the last of so many blocks.
    Header(u8),
    /// The same, where a block that comes next is none of these.
    Inside(u8),
    /// In a pattern behind `let`, up to its `=`.
    Let(u8),
    /// In a pattern behind `for`, up to its `in`.
    For(u8),
}

/// A step of a statement.
#[derive(Clone, Copy)]
pub(crate) enum Step {
    /// Nothing more comes.
    Stop,
    /// A semicolon ended it.
    End,
    On(Scan),
}

fn leads_closure(cursor: &Cursor<'_>) -> bool
    ensures { result ≡ spec.leads_closure cursor.now }
{
    match cursor.word() {
        "move" => true,
        "async" => cursor.second().symbol() != b':',
        _ => false,
    }
}

#[tactic(auto, unfolding(crate::specs::Statements::names_value))]
fn names_value(behind: &Cursor<'_>) -> bool
    ensures { result ≡ spec.names_value behind.now }
{
    behind.is_at_identifier() && !leads_closure(behind)
}

fn is_other(head: Head) -> bool
    ensures { result ≡ spec.is_other head }
{
    matches!(head, Head::Other)
}

#[tactic(auto, unfolding(crate::specs::Statements::is_item_head))]
fn is_item_head(cursor: &Cursor<'_>) -> bool
    ensures { result ≡ spec.is_item_head cursor.now }
{
    if is_other(head_at(cursor)) {
        return false;
    }
    match cursor.word() {
        "const" | "static" => names_value(&cursor.second()),
        "use" => cursor.second().symbol() != b'|',
        _ => true,
    }
}

/// Whether an item comes next, behind its attributes, and no expression.
#[tactic(auto, unfolding(crate::specs::Statements::is_item))]
pub fn is_item(cursor: &Cursor<'_>) -> bool
    ensures { result ≡ spec.is_item cursor.now }
{
    if cursor.word() == "pub" || is_modifier(cursor) {
        return true;
    }
    is_item_head(cursor)
}

#[tactic(auto, unfolding(crate::specs::Statements::is_block_word))]
fn is_block_word(word: &str) -> bool
    ensures { result ≡ spec.is_block_word word.now }
{
    matches!(
        word,
        "async" | "const" | "gen" | "loop" | "move" | "try" | "unsafe"
    )
}

#[tactic(auto, unfolding(crate::specs::Statements::is_control_word))]
fn is_control_word(word: &str) -> bool
    ensures { result ≡ spec.is_control_word word.now }
{
    matches!(word, "if" | "match" | "while")
}

fn is_label_kind(kind: Option<TokenKind>) -> bool
    ensures { result ≡ spec.is_label_kind kind }
{
    matches!(kind, Some(TokenKind::Lifetime | TokenKind::RawLifetime))
}

#[tactic(auto, unfolding(crate::specs::Statements::behind_label))]
fn pass_label(cursor: &mut Cursor<'_>)
    ensures { cursor.new ≡ spec.behind_label cursor.old }
{
    if is_label_kind(cursor.kind()) {
        cursor.bump();
        cursor.bump();
    }
}

#[tactic(auto, unfolding(crate::specs::Statements::behind_block_word))]
fn pass_block_word(cursor: &mut Cursor<'_>)
    ensures { cursor.new ≡ spec.behind_block_word cursor.old }
{
    if is_block_word(cursor.word()) {
        cursor.bump();
    }
}

/// The place behind a label and the words in front of a block.
#[tactic(auto, unfolding(crate::specs::Statements::block_start))]
fn block_start<'t>(cursor: &Cursor<'t>) -> Cursor<'t>
    ensures { result ≡ spec.block_start cursor.now }
{
    let mut start = cursor.look_ahead();
    pass_label(&mut start);
    pass_block_word(&mut start);
    pass_block_word(&mut start);
    pass_block_word(&mut start);
    start
}

fn is_block_at(start: &Cursor<'_>) -> bool
    ensures { result ≡ spec.is_block_at start.now }
{
    start.symbol() == b'{' || is_control_word(start.word()) || start.is_lone_for()
}

#[tactic(auto, unfolding(crate::specs::Statements::is_open_mark))]
fn is_open_mark(symbol: u8) -> bool
    ensures { result ≡ spec.is_open_mark symbol }
{
    matches!(
        symbol,
        b'!' | b'%' | b'&' | b'*' | b'+' | b',' | b'-' | b'/' | b':' | b'<' | b'=' | b'^' | b'|'
    )
}

#[tactic(auto, unfolding(crate::specs::Statements::leads_inside))]
fn leads_inside(cursor: &Cursor<'_>) -> bool
    ensures { result ≡ spec.leads_inside cursor.now }
{
    is_block_word(cursor.word()) || is_open_mark(cursor.symbol())
}

/// One more than so many blocks, if these can be counted.
fn one_more_block(blocks: u8) -> u8
    ensures { result ≡ spec.one_more_block blocks }
{
    if blocks < 255 { blocks + 1 } else { blocks }
}

#[tactic(auto, unfolding(crate::specs::Statements::header_behind))]
fn header_behind(cursor: &Cursor<'_>, blocks: u8) -> Scan
    ensures { result ≡ spec.header_behind blocks cursor.now }
{
    if cursor.word() == "let" {
        return Scan::Let(blocks);
    }
    if cursor.is_lone_for() {
        return Scan::For(one_more_block(blocks));
    }
    if is_control_word(cursor.word()) {
        return Scan::Inside(one_more_block(blocks));
    }
    if leads_inside(cursor) {
        Scan::Inside(blocks)
    } else {
        Scan::Header(blocks)
    }
}

#[tactic(auto, unfolding(crate::specs::Statements::scan_behind))]
fn scan_behind(scan: Scan, cursor: &Cursor<'_>) -> Scan
    ensures { result ≡ spec.scan_behind scan cursor.now }
{
    match scan {
        Scan::Plain => Scan::Plain,
        Scan::Header(blocks) | Scan::Inside(blocks) => header_behind(cursor, blocks),
        Scan::Let(blocks) => {
            if cursor.symbol() == b'=' {
                Scan::Inside(blocks)
            } else {
                Scan::Let(blocks)
            }
        }
        Scan::For(blocks) => {
            if cursor.word() == "in" {
                Scan::Inside(blocks)
            } else {
                Scan::For(blocks)
            }
        }
    }
}

fn step_behind_block(cursor: &Cursor<'_>, blocks: u8) -> Step
    ensures { result ≡ spec.step_behind_block blocks cursor.now }
{
    if blocks > 1 {
        return Step::On(Scan::Header(blocks - 1));
    }
    match cursor.symbol() {
        b'.' | b'?' => Step::On(Scan::Plain),
        _ => Step::Stop,
    }
}

fn pass_else(cursor: &mut Cursor<'_>, blocks: u8) -> Step
    ensures { spec.behind_else blocks cursor.old ≡ (result, cursor.new) }
{
    if cursor.word() == "if" {
        cursor.bump();
        return Step::On(Scan::Inside(blocks));
    }
    Step::On(Scan::Header(blocks))
}

/// Takes `else` behind a block, if it comes next, and an `if` behind it.
#[tactic(auto, unfolding(crate::specs::Statements::behind_own_block))]
fn pass_behind_block(cursor: &mut Cursor<'_>, blocks: u8) -> Step
    ensures { spec.behind_own_block blocks cursor.old ≡ (result, cursor.new) }
{
    if cursor.word() == "else" {
        cursor.bump();
        return pass_else(cursor, blocks);
    }
    step_behind_block(cursor, blocks)
}

fn is_use_of(cursor: &Cursor<'_>) -> bool
    ensures { result ≡ spec.is_use_of cursor.now }
{
    cursor.symbol() == b'.' && cursor.second().word() == "use"
}

#[tactic(auto, unfolding(crate::specs::Statements::plain_step))]
fn plain_step(cursor: &mut Cursor<'_>, scan: Scan) -> Step
    ensures { spec.plain_step scan cursor.old ≡ (result, cursor.new) }
{
    let next = scan_behind(scan, cursor);
    if is_use_of(cursor) {
        cursor.bump();
        cursor.bump();
    } else {
        cursor.pass_tree();
    }
    Step::On(next)
}

/// Takes a token of a statement, or what stands in brackets.
#[tactic(auto, unfolding(crate::specs::Statements::part_step))]
fn part_step(cursor: &mut Cursor<'_>, scan: Scan) -> Step
    ensures { spec.part_step scan cursor.old ≡ (result, cursor.new) }
{
    match scan {
        Scan::Let(_) => {
            if cursor.is_pair(b'.', b'=') {
                cursor.bump();
                cursor.bump();
                return Step::On(scan);
            }
            plain_step(cursor, scan)
        }
        Scan::Header(blocks) => {
            if cursor.symbol() == b'{' {
                cursor.pass_tree();
                return pass_behind_block(cursor, blocks);
            }
            plain_step(cursor, scan)
        }
        _ => plain_step(cursor, scan),
    }
}

#[tactic(auto, unfolding(crate::specs::Statements::statement_step))]
fn statement_step(cursor: &mut Cursor<'_>, scan: Scan) -> Step
    ensures { spec.statement_step scan cursor.old ≡ (result, cursor.new) }
{
    if cursor.is_at_end() || cursor.begins_item() {
        return Step::Stop;
    }
    if cursor.symbol() == b';' {
        cursor.bump();
        return Step::End;
    }
    part_step(cursor, scan)
}

#[tactic(auto, using(crate::proofs::Steps::statement_turn))]
fn pass_from(cursor: &mut Cursor<'_>, from: Scan) -> bool
    ensures { spec.statement_up_to from cursor.old ≡ (result, cursor.new) }
{
    let mut scan = from;
    let most = Cursor::most_turns();
    for _turn in 0..most {
        match statement_step(cursor, scan) {
            Step::On(next) => scan = next,
            Step::Stop => return false,
            Step::End => return true,
        }
    }
    false
}

/// Takes a `let`, or another statement that is neither an item nor a macro call alone, and tells whether a semicolon
/// ended it.
///
/// Else it ends with its block, before a bracket that closes, or before a word that can begin an item only.
#[tactic(auto, unfolding(crate::specs::Statements::statement))]
pub fn pass_statement(cursor: &mut Cursor<'_>) -> bool
    ensures { spec.statement cursor.old ≡ (result, cursor.new) }
{
    let start = block_start(cursor);
    if is_block_at(&start) {
        *cursor = start;
        return pass_from(cursor, Scan::Header(0));
    }
    pass_from(cursor, Scan::Plain)
}
