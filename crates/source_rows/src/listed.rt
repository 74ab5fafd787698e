//! Members as lists tell them.
ghost use Rattle.std.specs.Prelude.{◌≡◌, IfOk, filter_map, map, option_copied, option_map};
ghost use Rattle.rust_items.specs.MemberViews.{member_view};
ghost use Rattle.source_rows.specs.Listed as spec;
ghost use Rattle.source_rows.specs.ListedViews.{closers_view, listed_view};

use crate::enabled::any_disables;
use crate::members::members_in;
use crate::mended::{told_place, told_range, told_some};
use crate::mended_file::MendedFile;
use hir_input::{CfgOptions, EditionYear, Name};
use item_tree::{RawVisibility, visibility_from_ast};
use rust_cursor::push_some;
use rust_items::{ItemPlace, Member, MemberKind, TextRange};
use std::alloc::{AllocError, Global};

/// A member of an item that has a name.
#[derive(Debug, Drop)]
pub struct ListedMember {
    pub kind: MemberKind,
    /// Without `r#`.
    pub name: Name,
    pub visibility: RawVisibility,
    /// Where its name begins.
    pub at: usize,
    /// Where it stands with its attributes, up to the comma of a variant or a field.
    pub range: TextRange,
    /// The braces of a function.
    pub body: Option<TextRange>,
    /// Where these stand in the text that is read.
    pub read_body: Option<TextRange>,
    /// Whether no cfg disables it, nor its item, nor what that stands in.
    pub is_active: bool,
}

/// What members are read from.
#[derive(Clone, Copy)]
pub(crate) struct Around<'a> {
    pub(crate) text: &'a str,
    /// The mended text, if that is read.
    pub(crate) mended: Option<&'a MendedFile>,
    pub(crate) edition: EditionYear,
    pub(crate) options: &'a CfgOptions,
    /// Whether no cfg disables the item, nor what it stands in.
    pub(crate) is_active: bool,
}

/// A member as a list tells it, if it has a name.
fn listed_member(
    alloc: Global,
    around: Around<'_>,
    member: Member,
) -> Result<Option<ListedMember>, AllocError>
    ensures { let closers = option_map closers_view (option_copied around.entry.mended) in
        let listed = spec.listed_member closers around.entry.options.now around.entry.is_active
        (member_view member) in
        IfOk result (λ m. option_map listed_view m ≡ listed) }
{
    let Some(place) = member.name else {
        return Ok(None);
    };
    let visibility = visibility_from_ast(alloc, member.visibility.as_ref())?;
    let is_active = around.is_active && !any_disables(&member.attrs, around.options);
    let (kind, range, body) = (member.kind, member.range, member.body);
    let Some(name) = member.into_identifier() else {
        return Ok(None);
    };
    Ok(Some(ListedMember {
        kind,
        name,
        visibility,
        at: told_place(around.mended, place.start),
        range: told_range(around.mended, range),
        body: told_some(around.mended, body),
        read_body: body,
        is_active,
    }))
}

/// Those of members that have names.
fn listed_of(
    alloc: Global,
    around: Around<'_>,
    members: Vec<Member>,
) -> Result<Vec<ListedMember>, AllocError>
    ensures { let closers = option_map closers_view (option_copied around.entry.mended) in
        let listed = spec.listed_member closers around.entry.options.now around.entry.is_active in
        IfOk result (λ v. map listed_view v.items ≡ filter_map listed (map member_view members.items)) }
{
    let mut out = Vec::with_capacity(alloc, members.len())?;
    for member in members {
        let listed = listed_member(alloc, around, member)?;
        push_some(&mut out, listed)?;
    }
    Ok(out)
}

/// The members of an item that have names.
pub(crate) fn listed_members(
    alloc: Global,
    around: Around<'_>,
    item: &ItemPlace,
) -> Result<Vec<ListedMember>, AllocError>
    ensures { let a = around.entry in
        let closers = option_map closers_view (option_copied a.mended) in
        let members = spec.listed_members closers a.edition a.options.now a.text.now item.now a.is_active in
        IfOk result (λ v. map listed_view v.items ≡ members) }
{
    let members = members_in(alloc, item.id.kind, around.text, item.body, around.edition)?;
    listed_of(alloc, around, members)
}
