//! The items of a text and their members, as parts of it.

ghost use Rattle.std.specs.Prelude.{◌≡◌, ◌++◌, ◌∷◌, [], IfOk, OnOk, map, string_bytes};
ghost use Rattle.rust_items.specs.MemberViews.{member_view};
ghost use Rattle.source_rows.specs.Labels.{member_word};
ghost use Rattle.source_changes.specs.Hiding.{is_item_hidden};
ghost use Rattle.source_changes.specs.Parts as spec;
ghost use Rattle.source_changes.specs.Views.{outer_view, part_view};

use crate::hiding::{hides_members, is_item_hidden, is_member_hidden};
use crate::inside::hole_of;
use hir_input::{AstIdKind, EditionYear};
use rust_items::{ItemPlace, Member, MemberKind, TextRange};
use source_rows::{header, kind_texts, member_word, members_in, text_at, text_at_some};
use std::alloc::{AllocError, Global};

// Most labels are shorter than so many bytes: they take memory once.
const ROOM: usize = 64;

/// An item or a member of one, as a part of a text.
#[derive(Debug, Drop)]
pub struct Part {
    /// What it is called, as in `fn Circle::area`.
    pub label: String,
    /// Where it is told: at its name, or where it begins.
    pub at: usize,
    pub range: TextRange,
    /// A name that counts among the tokens around it.
    pub kept: Option<TextRange>,
    /// The braces whose tokens do not count.
    pub body: Option<TextRange>,
    /// Whether it is seen in its module alone, by what is written of it.
    pub is_hidden: bool,
}

/// A module around an item: where it ends, and its name.
#[derive(Clone, Copy)]
pub(crate) struct Around<'t> {
    pub end: usize,
    pub name: &'t str,
}

fn told_at(range: TextRange, name: Option<TextRange>) -> usize
    ensures { result ≡ spec.part_told_at range name }
{
    match name {
        Some(name) => name.start,
        None => range.start,
    }
}

fn kept_name(kind: MemberKind, name: Option<TextRange>) -> Option<TextRange>
    ensures { result ≡ spec.kept_name kind name }
{
    match kind {
        MemberKind::Variant | MemberKind::Field => name,
        _ => None,
    }
}

#[tactic(auto, using(crate::proofs::PartSteps::path_label))]
fn member_label(
    alloc: Global,
    text: &str,
    path: &str,
    member: &Member,
) -> Result<String, AllocError>
    ensures { let m = member_view member.now in
        IfOk result (λ out. string_bytes out
        ≡ spec.label (member_word m.kind) (spec.member_path text.now path.now m.name)) }
{
    let mut label = String::with_capacity(alloc, ROOM)?;
    label.push_str(member_word(member.kind))?;
    label.push_str(" ")?;
    label.push_str(path)?;
    label.push_str("::")?;
    label.push_str(text_at_some(text, member.name))?;
    Ok(label)
}

fn member_part(
    alloc: Global,
    text: &str,
    path: &str,
    hidden: Option<bool>,
    member: &Member,
) -> Result<Part, AllocError>
    ensures { IfOk result (λ part. part_view part
        ≡ spec.member_part text.now path.now hidden (member_view member.now)) }
{
    Ok(Part {
        label: member_label(alloc, text, path, member)?,
        at: told_at(member.range, member.name),
        range: member.range,
        kept: kept_name(member.kind, member.name),
        body: hole_of(text, member.range, member.body),
        is_hidden: is_member_hidden(hidden, text, member),
    })
}

fn push_members(
    alloc: Global,
    text: &str,
    path: &str,
    hidden: Option<bool>,
    members: &[Member],
    parts: &mut Vec<Part>,
) -> Result<(), AllocError>
    ensures { let more = map (spec.member_part text.now path.now hidden) (map member_view members.now) in
        OnOk result (map part_view parts.new.items ≡ map part_view parts.old.items ++ more) }
{
    for member in members {
        let part = member_part(alloc, text, path, hidden, member)?;
        parts.push(part)?;
    }
    Ok(())
}

fn impl_braces(kind: AstIdKind, body: Option<TextRange>) -> Option<TextRange>
    ensures { result ≡ spec.impl_braces kind body }
{
    match kind {
        AstIdKind::Impl => body,
        _ => None,
    }
}

fn push_name(
    alloc: Global,
    text: &str,
    edition: EditionYear,
    item: &ItemPlace,
    out: &mut String,
) -> Result<(), AllocError>
    ensures { let name = spec.part_name edition text.now item.now item.now.name in
        OnOk result (string_bytes out.new ≡ string_bytes out.old ++ name) }
{
    match item.name {
        Some(name) => out.push_str(text_at(text, name)),
        None => {
            let braces = impl_braces(item.id.kind, item.body);
            let header = header(alloc, text, edition, item.range, braces)?;
            out.push_str(&header)
        }
    }
}

fn push_path(around: &[Around<'_>], out: &mut String) -> Result<(), AllocError>
    ensures { OnOk result (string_bytes out.new ≡ string_bytes out.old
        ++ spec.modules_path (map outer_view around.now)) }
{
    for module in around {
        out.push_str(module.name)?;
        out.push_str("::")?;
    }
    Ok(())
}

fn item_path(
    alloc: Global,
    text: &str,
    edition: EditionYear,
    around: &[Around<'_>],
    item: &ItemPlace,
) -> Result<String, AllocError>
    ensures { IfOk result (λ out. string_bytes out
        ≡ spec.part_path edition text.now (map outer_view around.now) item.now) }
{
    let mut out = String::with_capacity(alloc, ROOM)?;
    push_path(around, &mut out)?;
    push_name(alloc, text, edition, item, &mut out)?;
    Ok(out)
}

/// Adds a word, and a text with a blank in front if it is not empty.
fn push_label(out: &mut String, word: &str, text: &str) -> Result<(), AllocError>
    ensures { OnOk result (string_bytes out.new ≡ string_bytes out.old
        ++ spec.label word.now text.now) }
{
    out.push_str(word)?;
    if text.is_empty() {
        return Ok(());
    }
    out.push_str(" ")?;
    out.push_str(text)
}

fn fn_body(kind: AstIdKind, body: Option<TextRange>) -> Option<TextRange>
    ensures { result ≡ spec.fn_body kind body }
{
    match kind {
        AstIdKind::Fn => body,
        _ => None,
    }
}

fn item_part(
    alloc: Global,
    text: &str,
    edition: EditionYear,
    path: &str,
    item: &ItemPlace,
) -> Result<Part, AllocError>
    ensures { IfOk result (λ part. part_view part
        ≡ spec.part_of_item edition text.now path.now item.now) }
{
    let is_hidden = is_item_hidden(alloc, text, edition, item)?;
    let mut label = String::with_capacity(alloc, ROOM)?;
    push_label(&mut label, kind_texts(item.id.kind).word, path)?;
    Ok(Part {
        label,
        at: told_at(item.range, item.name),
        range: item.range,
        kept: None,
        body: hole_of(text, item.range, fn_body(item.id.kind, item.body)),
        is_hidden,
    })
}

/// Adds the members of an item, which is hidden or not.
fn push_inside(
    alloc: Global,
    text: &str,
    edition: EditionYear,
    path: &str,
    item: &ItemPlace,
    is_hidden: bool,
    parts: &mut Vec<Part>,
) -> Result<(), AllocError>
    requires { is_hidden ≡ is_item_hidden edition text.now item.now }
    ensures { let more = spec.member_parts edition text.now path.now item.now in
        OnOk result (map part_view parts.new.items ≡ map part_view parts.old.items ++ more) }
{
    let (kind, own) = (item.id.kind, text_at(text, item.range));
    let hidden = hides_members(alloc, own, edition, kind, is_hidden)?;
    let members = members_in(alloc, kind, text, item.body, edition)?;
    push_members(alloc, text, path, hidden, &members, parts)
}

/// Adds an item, and behind it its members.
fn push_item(
    alloc: Global,
    text: &str,
    edition: EditionYear,
    around: &[Around<'_>],
    item: &ItemPlace,
    parts: &mut Vec<Part>,
) -> Result<(), AllocError>
    ensures { let more = spec.parts_of edition text.now (map outer_view around.now) item.now in
        OnOk result (map part_view parts.new.items ≡ map part_view parts.old.items ++ more) }
{
    let path = item_path(alloc, text, edition, around, item)?;
    let part = item_part(alloc, text, edition, &path, item)?;
    let is_hidden = part.is_hidden;
    parts.push(part)?;
    push_inside(alloc, text, edition, &path, item, is_hidden, parts)
}

/// The modules that end behind a place.
fn still_open<'t>(
    alloc: Global,
    place: usize,
    around: &[Around<'t>],
) -> Result<Vec<Around<'t>>, AllocError>
    ensures { IfOk result (λ v. map outer_view v.items
        ≡ spec.still_open place (map outer_view around.now)) }
{
    let mut left = Vec::new(alloc);
    for module in around {
        if place < module.end {
            left.push(*module)?;
        }
    }
    Ok(left)
}

/// Adds a module to those around what follows.
fn enter<'t>(
    text: &'t str,
    item: &ItemPlace,
    around: &mut Vec<Around<'t>>,
) -> Result<(), AllocError>
    ensures { OnOk result (map outer_view around.new.items
        ≡ spec.around_behind text.now (map outer_view around.old.items) item.now.id.kind item.now) }
{
    match item.id.kind {
        AstIdKind::Module => {
            around.push(Around {
                end: item.range.end,
                name: text_at_some(text, item.name),
            })?;
            Ok(())
        }
        _ => Ok(()),
    }
}

/// The items of a text of an edition, which stand so in preorder, and behind each its members.
///
/// # Errors
///
/// Only if memory runs out.
#[tactic(auto, using(crate::proofs::PartSteps::parts_more))]
pub fn parts(
    alloc: Global,
    text: &str,
    edition: EditionYear,
    items: &[ItemPlace],
) -> Result<Vec<Part>, AllocError>
    ensures { IfOk result (λ v. map part_view v.items ≡ spec.item_parts edition text.now items.now) }
{
    let mut parts = Vec::new(alloc);
    let mut around = Vec::new(alloc);
    for item in items {
        around = still_open(alloc, item.range.start, &around)?;
        push_item(alloc, text, edition, &around, item, &mut parts)?;
        enter(text, item, &mut around)?;
    }
    Ok(parts)
}
