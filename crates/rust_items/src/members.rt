//! Lists of members.

ghost use Rattle.std.specs.Prelude.{◌≡◌, ◌+◌, ◌-◌, ◌<◌, ◌^◌, IfOk, map, option_map};
ghost use Rattle.rust_cursor.specs.Reader.{Gives};
ghost use Rattle.rust_items.specs.MemberLists as spec;
ghost use Rattle.rust_items.specs.Members.{moved_member, range_moved_by};
ghost use Rattle.rust_items.specs.MemberPlaces.{ArePlaced, FitsMoved, IsMemberPlaced};
ghost use Rattle.rust_items.specs.MemberViews.{member_view};

use crate::associated::associated_item;
use crate::cut::cut_out;
use crate::member::{Member, MemberKind};
use crate::part::part;
use hir_input::{AstIdKind, EditionYear};
use rust_cursor::{Cursor, push_some};
use rust_metas::{WantedMetas, kept_inner_attributes};
use rust_paths::TextRange;
use std::alloc::{AllocError, Global};

#[tactic(auto, unfolding(crate::specs::MemberLists::is_list_over))]
fn is_over(cursor: &Cursor<'_>) -> bool
    ensures { result ≡ spec.is_list_over cursor.now }
{
    cursor.is_empty() || cursor.symbol() == b'}'
}

/// Takes a member of an item of the kind, or tokens that begin none.
#[tactic(auto, unfolding(crate::specs::MemberLists::member_turn))]
fn turn(
    alloc: Global,
    cursor: &mut Cursor<'_>,
    kind: AstIdKind,
    metas: WantedMetas,
) -> Result<Option<Member>, AllocError>
    ensures { Gives (option_map member_view) (spec.member_turn metas kind cursor.old) result
        cursor.new }
{
    match kind {
        AstIdKind::Enum => part(alloc, cursor, MemberKind::Variant, metas),
        AstIdKind::Struct | AstIdKind::Union => part(alloc, cursor, MemberKind::Field, metas),
        _ => associated_item(alloc, cursor, metas),
    }
}

#[tactic(auto, unfolding(rust_cursor::specs::Elements::turns), using(rust_cursor::proofs::Turns::turns_stop))]
fn list(
    alloc: Global,
    cursor: &mut Cursor<'_>,
    kind: AstIdKind,
    metas: WantedMetas,
) -> Result<Vec<Member>, AllocError>
    ensures { Gives (λ v. map member_view v.items) (spec.member_list metas kind cursor.old)
        result cursor.new }
{
    let mut members = Vec::new(alloc);
    let most = Cursor::most_turns();
    for _turn in 0..most {
        if is_over(cursor) {
            break;
        }
        let past = cursor.last_end();
        let member = turn(alloc, cursor, kind, metas)?;
        push_some(&mut members, member)?;
        cursor.pass_beyond(past);
    }
    Ok(members)
}

/// The members in a text of an edition that begins with the `{` of an item.
#[tactic(auto, unfolding(crate::specs::MemberLists::members_from))]
fn members_in(
    alloc: Global,
    kind: AstIdKind,
    text: &str,
    edition: EditionYear,
    metas: WantedMetas,
) -> Result<Vec<Member>, AllocError>
    ensures { IfOk result
        (λ v. map member_view v.items ≡ spec.members_in metas edition kind text.now) }
{
    let mut cursor = Cursor::new(text, edition);
    if cursor.symbol() != b'{' {
        return Ok(Vec::new(alloc));
    }
    cursor.bump();
    let _attrs = kept_inner_attributes(alloc, &mut cursor, WantedMetas::Conditions)?;
    list(alloc, &mut cursor, kind, metas)
}

fn moved_range(range: TextRange, by: usize) -> TextRange
    requires start { by + range.start < 2 ^ 64 }
    requires end { by + range.end < 2 ^ 64 }
    ensures { result ≡ range_moved_by by range }
{
    TextRange {
        start: by + range.start,
        end: by + range.end,
    }
}

fn moved_name(name: Option<TextRange>, by: usize) -> Option<TextRange>
    requires { FitsMoved by name }
    ensures { result ≡ option_map (range_moved_by by) name }
{
    match name {
        Some(name) => Some(moved_range(name, by)),
        None => None,
    }
}

/// Moves a member to where it stands in a text with so many bytes in front.
#[tactic(auto, using(crate::proofs::MemberCuts::name_fits))]
fn move_member(member: &mut Member, by: usize)
    requires { IsMemberPlaced 0 (18446744073709551615 - by) (member_view member.old) }
    ensures { member_view member.new ≡ moved_member by (member_view member.old) }
{
    member.name = moved_name(member.name, by);
    member.range = moved_range(member.range, by);
    member.body = moved_name(member.body, by);
}

fn move_members(members: &mut [Member], by: usize)
    requires { ArePlaced 0 (18446744073709551615 - by) (map member_view members.old) }
    ensures { map member_view members.new
        ≡ map (moved_member by) (map member_view members.old) }
{
    for member in members.iter_mut() {
        move_member(member, by);
    }
}

/// Reads the members in the braces of an item of this kind, which are this range of a text of an edition.
///
/// It answers for every text: what is no member is passed over, and in a range that is none of the text is none. An
/// item of another kind than a trait, an impl, an enum, a struct or a union is read as a trait is. Their attributes are
/// those that are wanted.
///
/// # Errors
///
/// Only if memory runs out.
pub fn read_members(
    alloc: Global,
    kind: AstIdKind,
    text: &str,
    body: TextRange,
    edition: EditionYear,
    metas: WantedMetas,
) -> Result<Vec<Member>, AllocError>
    ensures read { IfOk result
        (λ v. map member_view v.items ≡ spec.members metas edition kind text.now body) }
    ensures placed { IfOk result (λ v. ArePlaced body.start body.end (map member_view v.items)) }
{
    match cut_out(text, body) {
        Some(braces) => {
            let mut members = members_in(alloc, kind, braces, edition, metas)?;
            move_members(&mut members, body.start);
            Ok(members)
        }
        None => Ok(Vec::new(alloc)),
    }
}
