//! What is seen in its module alone, by what is written of it: it is hidden.

ghost use Rattle.std.specs.Prelude.{◌≡◌, IfOk, None, Some, false, if◌then◌else◌, option_copied};
ghost use Rattle.rust_items.specs.MemberViews.{member_view};
ghost use Rattle.source_changes.specs.Hiding as spec;

use crate::inside::is_seen_beyond;
use hir_input::ast::Visibility;
use hir_input::{AstIdKind, EditionYear};
use rust_cursor::Cursor;
use rust_items::{ItemPlace, Member, MemberKind, TextRange};
use rust_leaves::{Wanted, WantedMetas, wanted_front};
use source_rows::{is_of_trait, text_at};
use std::alloc::{AllocError, Global};

/// Whether a visibility ends at the module around it.
fn ends_here(visibility: Option<&Visibility>) -> bool
    ensures { result ≡ spec.ends_here (option_copied visibility.entry) }
{
    match visibility {
        None | Some(Visibility::PubSelf) => true,
        Some(_) => false,
    }
}

/// Whether what stands there, with this value, is seen whatever its visibility.
fn reaches_out(text: &str, range: TextRange, value: Option<TextRange>) -> bool
    ensures { result ≡ spec.reaches_out text.now range value }
{
    match value {
        Some(value) => {
            let item = text_at(text, range);
            let inside = text_at(text, value);
            is_seen_beyond(item, inside)
        }
        None => false,
    }
}

/// Whether items of a kind may have a visibility.
fn has_visibility(kind: AstIdKind) -> bool
    ensures { result ≡ spec.has_visibility kind }
{
    !matches!(
        kind,
        AstIdKind::ExternBlock | AstIdKind::Impl | AstIdKind::MacroCall | AstIdKind::MacroRules
    )
}

fn item_value(item: &ItemPlace) -> Option<TextRange>
    ensures { result ≡ spec.item_value item.now.id.kind item.now.range item.now.body }
{
    match item.id.kind {
        AstIdKind::Fn => item.body,
        AstIdKind::Const | AstIdKind::Static => Some(item.range),
        _ => None,
    }
}

/// Whether the visibility of an item, which this is the text of, ends at its module.
#[tactic(auto, unfolding(rust_leaves::specs::Clipped::clipped_front, rust_leaves::specs::Clipped::with_value))]
fn is_for_its_module(alloc: Global, item: &str, edition: EditionYear) -> Result<bool, AllocError>
    ensures { IfOk result (λ is. is ≡ spec.is_for_its_module edition item.now) }
{
    let mut cursor = Cursor::new(item, edition);
    let wanted = Wanted {
        bodies: false,
        metas: WantedMetas::Conditions,
    };
    let front = wanted_front(alloc, &mut cursor, wanted)?;
    Ok(ends_here(front.visibility.as_ref()))
}

/// Whether an item can have a visibility and has none, or one that ends at its module.
pub(crate) fn is_item_hidden(
    alloc: Global,
    text: &str,
    edition: EditionYear,
    item: &ItemPlace,
) -> Result<bool, AllocError>
    ensures { IfOk result (λ is. is ≡ spec.is_item_hidden edition text.now item.now) }
{
    if !has_visibility(item.id.kind) {
        return Ok(false);
    }
    if reaches_out(text, item.range, item_value(item)) {
        return Ok(false);
    }
    is_for_its_module(alloc, text_at(text, item.range), edition)
}

fn of_impl(is_of_trait: bool) -> Option<bool>
    ensures { result ≡ (if is_of_trait then Some false else None) }
{
    if is_of_trait { Some(false) } else { None }
}

/// Whether the members of an item, which is hidden or not, are so too; nothing where each has a visibility of its own.
pub(crate) fn hides_members(
    alloc: Global,
    item: &str,
    edition: EditionYear,
    kind: AstIdKind,
    is_hidden: bool,
) -> Result<Option<bool>, AllocError>
    ensures { IfOk result
        (λ hidden. hidden ≡ spec.hides_members edition item.now kind is_hidden) }
{
    match kind {
        AstIdKind::Enum | AstIdKind::Trait => Ok(Some(is_hidden)),
        AstIdKind::Impl => Ok(of_impl(is_of_trait(alloc, item, edition)?)),
        _ => Ok(None),
    }
}

fn member_value(member: &Member) -> Option<TextRange>
    ensures { let m = member_view member.now in result ≡ spec.member_value m.kind m.range m.body }
{
    match member.kind {
        MemberKind::Function => member.body,
        MemberKind::Constant => Some(member.range),
        _ => None,
    }
}

fn is_hidden_itself(text: &str, member: &Member) -> bool
    ensures { let m = member_view member.now in result ≡ spec.is_hidden_itself text.now m.kind m }
{
    if let MemberKind::MacroCall = member.kind {
        return false;
    }
    !reaches_out(text, member.range, member_value(member)) && ends_here(member.visibility.as_ref())
}

/// Whether a member is hidden: as its item's members are, or else by itself.
pub(crate) fn is_member_hidden(hidden: Option<bool>, text: &str, member: &Member) -> bool
    ensures { result ≡ spec.is_member_hidden hidden text.now (member_view member.now) }
{
    match hidden {
        Some(is_hidden) => is_hidden,
        None => is_hidden_itself(text, member),
    }
}
