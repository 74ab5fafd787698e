//! Variants and fields.

ghost use Rattle.std.specs.Prelude.{◌≡◌, map, option_map};
ghost use Rattle.hir_input.specs.Attr.{meta_view};
ghost use Rattle.rust_cursor.specs.Reader.{Gives};
ghost use Rattle.rust_items.specs.MemberParts as spec;
ghost use Rattle.rust_items.specs.MemberViews.{member_view};

use crate::member::{Member, MemberKind};
use hir_input::Meta;
use hir_input::ast::Visibility;
use rust_cursor::Cursor;
use rust_leaves::{Named, item_name};
use rust_metas::{WantedMetas, kept_outer_attributes};
use rust_paths::{TextRange, visibility};
use std::alloc::{AllocError, Global};

/// Where a token of a value stands.
#[derive(Clone, Copy)]
enum Stand {
    /// An operand begins.
    Begun,
    /// An operand has ended.
    Ended,
    /// Between the `|` of a closure's parameters.
    Parameters,
    /// A type begins, behind `as` or `->`.
    Type,
    /// It may have ended.
    TypeEnded,
}

/// Whether documentation, an attribute or `pub` comes next.
fn begins_marked_part(cursor: &Cursor<'_>) -> bool
    ensures { result ≡ spec.begins_marked_part cursor.now }
{
    cursor.is_at_doc()
        || cursor.symbol() == b'#' && cursor.second().symbol() == b'['
        || cursor.word() == "pub"
}

/// Whether a name and its colon come next.
fn is_name_with_colon(cursor: &Cursor<'_>) -> bool
    ensures { result ≡ spec.is_name_with_colon cursor.now }
{
    if !cursor.is_at_identifier() {
        return false;
    }
    let behind = cursor.second();
    behind.symbol() == b':' && !behind.is_pair(b':', b':')
}

/// Whether a field begins where a type may go on.
fn begins_field(cursor: &Cursor<'_>) -> bool
    ensures { result ≡ spec.begins_field cursor.now }
{
    begins_marked_part(cursor) || is_name_with_colon(cursor)
}

/// Whether a variant or a field begins where an operand has ended.
fn begins_part(cursor: &Cursor<'_>) -> bool
    ensures { result ≡ spec.begins_part cursor.now }
{
    begins_marked_part(cursor) || cursor.is_at_identifier() && cursor.can_end()
}

fn opens_generics(cursor: &Cursor<'_>, stand: Stand) -> bool
    ensures { result ≡ spec.opens_generics stand cursor.now }
{
    match stand {
        Stand::Ended | Stand::Parameters => false,
        Stand::Begun | Stand::Type | Stand::TypeEnded => cursor.symbol() == b'<',
    }
}

fn ended_operand(stand: Stand) -> Stand
    ensures { result ≡ spec.ended_operand stand }
{
    match stand {
        Stand::Begun => Stand::Ended,
        Stand::Type => Stand::TypeEnded,
        Stand::Ended | Stand::Parameters | Stand::TypeEnded => stand,
    }
}

fn going_on(stand: Stand) -> Stand
    ensures { result ≡ spec.going_on stand }
{
    match stand {
        Stand::Ended => Stand::Begun,
        Stand::TypeEnded => Stand::Type,
        Stand::Begun | Stand::Parameters | Stand::Type => stand,
    }
}

fn behind_mark(stand: Stand, symbol: u8) -> Stand
    ensures { result ≡ spec.behind_mark stand symbol }
{
    match stand {
        Stand::Begun => {
            if symbol == b'|' {
                Stand::Parameters
            } else {
                Stand::Begun
            }
        }
        Stand::Parameters => {
            if symbol == b'|' {
                Stand::Begun
            } else {
                Stand::Parameters
            }
        }
        Stand::Ended | Stand::TypeEnded => Stand::Begun,
        Stand::Type => Stand::Type,
    }
}

fn has_ended(stand: Stand) -> bool
    ensures { result ≡ spec.has_ended stand }
{
    matches!(stand, Stand::Ended | Stand::TypeEnded)
}

fn can_end_here(cursor: &Cursor<'_>) -> bool
    ensures { result ≡ spec.can_end_here cursor.now }
{
    cursor.is_at_open() || cursor.can_end() || cursor.symbol() == b'?'
}

fn is_pair_here(cursor: &Cursor<'_>, stand: Stand) -> bool
    ensures { result ≡ spec.is_pair_here stand cursor.now }
{
    if cursor.is_pair(b':', b':') || cursor.is_pair(b'-', b'>') {
        return true;
    }
    has_ended(stand) && (cursor.is_pair(b'<', b'<') || cursor.is_pair(b'|', b'|'))
}

fn stand_outside(cursor: &Cursor<'_>, stand: Stand) -> Stand
    ensures { result ≡ spec.stand_outside stand cursor.now }
{
    if cursor.word() == "as" || cursor.is_pair(b'-', b'>') {
        return Stand::Type;
    }
    if cursor.is_pair(b':', b':') {
        return going_on(stand);
    }
    if opens_generics(cursor, stand) || can_end_here(cursor) {
        return ended_operand(stand);
    }
    match cursor.symbol() {
        0 => going_on(stand),
        symbol => behind_mark(stand, symbol),
    }
}

/// Where what is behind the next token stands, or behind the brackets that it opens.
fn stand_behind(cursor: &Cursor<'_>, stand: Stand) -> Stand
    ensures { result ≡ spec.stand_behind stand cursor.now }
{
    match stand {
        Stand::Parameters => behind_mark(stand, cursor.symbol()),
        Stand::Begun | Stand::Ended | Stand::Type | Stand::TypeEnded => stand_outside(
            cursor, stand,
        ),
    }
}

fn pass_operand(cursor: &mut Cursor<'_>, stand: Stand)
    ensures { cursor.new ≡ spec.behind_operand stand cursor.old }
{
    if opens_generics(cursor, stand) {
        cursor.pass_angles();
        return;
    }
    if is_pair_here(cursor, stand) {
        cursor.bump();
        cursor.bump();
        return;
    }
    cursor.pass_tree();
}

fn is_parameters(stand: Stand) -> bool
    ensures { result ≡ spec.is_parameters stand }
{
    matches!(stand, Stand::Parameters)
}

fn is_part_end(cursor: &Cursor<'_>, stand: Stand) -> bool
    ensures { result ≡ spec.is_part_end stand cursor.now }
{
    if cursor.is_at_end() {
        return true;
    }
    cursor.symbol() == b',' && !is_parameters(stand) || has_ended(stand) && begins_part(cursor)
}

/// Passes over what is left of a variant or a field, behind its name or its type.
#[tactic(auto, unfolding(crate::specs::MemberParts::behind_value), using(crate::proofs::MemberSteps::operands_more, crate::proofs::MemberSteps::operands_stop),)]
fn pass_value(cursor: &mut Cursor<'_>)
    ensures { cursor.new ≡ spec.behind_value cursor.old }
{
    let most = Cursor::most_turns();
    let mut stand = Stand::Ended;
    for _turn in 0..most {
        if is_part_end(cursor, stand) {
            break;
        }
        let behind = stand_behind(cursor, stand);
        pass_operand(cursor, stand);
        stand = behind;
    }
}

fn is_type_end(cursor: &Cursor<'_>) -> bool
    ensures { result ≡ spec.is_type_end cursor.now }
{
    cursor.is_at_end() || matches!(cursor.symbol(), b',' | b'=') || begins_field(cursor)
}

fn pass_type_part(cursor: &mut Cursor<'_>)
    ensures { cursor.new ≡ spec.behind_type_part cursor.old }
{
    if cursor.symbol() == b'<' {
        cursor.pass_angles();
    } else {
        cursor.pass_tree();
    }
}

/// Passes over a field's type.
#[tactic(auto, unfolding(crate::specs::MemberParts::behind_type), using(crate::proofs::MemberSteps::types_more, crate::proofs::MemberSteps::types_stop),)]
fn pass_type(cursor: &mut Cursor<'_>)
    ensures { cursor.new ≡ spec.behind_type cursor.old }
{
    let most = Cursor::most_turns();
    for _turn in 0..most {
        if is_type_end(cursor) {
            break;
        }
        pass_type_part(cursor);
    }
}

fn pass_part(cursor: &mut Cursor<'_>, kind: MemberKind)
    ensures { cursor.new ≡ spec.behind_part kind cursor.old }
{
    match kind {
        MemberKind::Variant => pass_value(cursor),
        _ => {
            pass_type(cursor);
            pass_value(cursor);
        }
    }
}

fn part_of(
    kind: MemberKind,
    range: TextRange,
    attrs: Vec<Meta>,
    visibility: Option<Visibility>,
    named: Named<'_>,
) -> Option<Member>
    ensures { option_map member_view result
        ≡ spec.part_of kind range.start (map meta_view attrs.items) visibility named.entry.name
        named.entry.range range.end }
{
    match named.range {
        Some(name) => Some(Member {
            kind,
            identifier: named.name,
            name: Some(name),
            range,
            body: None,
            attrs,
            visibility,
        }),
        None => None,
    }
}

/// Takes a variant or a field with the comma behind it, or tokens that begin none.
#[tactic(auto, unfolding(crate::specs::MemberParts::part_member))]
pub(crate) fn part(
    alloc: Global,
    cursor: &mut Cursor<'_>,
    kind: MemberKind,
    metas: WantedMetas,
) -> Result<Option<Member>, AllocError>
    ensures { Gives (option_map member_view) (spec.part_member metas kind cursor.old) result
        cursor.new }
{
    let start = cursor.at();
    let attrs = kept_outer_attributes(alloc, cursor, metas)?;
    let visibility = visibility(alloc, cursor)?;
    cursor.eat_word("unsafe");
    let named = item_name(alloc, cursor)?;
    pass_part(cursor, kind);
    let end = cursor.last_end();
    cursor.eat(b',');
    let range = TextRange { start, end };
    Ok(part_of(kind, range, attrs, visibility, named))
}
