//! Structs, and what an impl is of.

ghost use Rattle.std.specs.Prelude.{◌≡◌, IfOk, None, [], if◌then◌else◌, map, option_map};
ghost use Rattle.hir_input.specs.Attr.{meta_view};
ghost use Rattle.hir_input.specs.Syntax.{fields_view};
ghost use Rattle.rust_cursor.specs.Reader.{Gives};
ghost use Rattle.rust_leaves.specs.Clipped.{wanted_leaf, with_value};
ghost use Rattle.rust_leaves.specs.Kinds as kinds;
ghost use Rattle.rust_leaves.specs.Leaves as spec;
ghost use Rattle.rust_leaves.specs.Views.{field_view, leaf_view};

use crate::head::Head;
use crate::leaf::{Leaf, read_leaf};
use crate::named::{item_name, take_rest};
use crate::wanted::Wanted;
use hir_input::ast::{Item, Struct, StructKind, TupleField, Visibility};
use hir_input::{AstIdKind, Meta};
use rust_cursor::Cursor;
use rust_metas::{WantedMetas, kept_outer_attributes};
use rust_paths::{TreeStarts, visibility};
use std::alloc::{AllocError, Global};

/// Behind `impl`, whether the items are those of a trait, of an impl that ends at a place.
#[tactic(auto, unfolding(crate::specs::Leaves::has_trait))]
pub(crate) fn has_trait(header: &Cursor<'_>, end: usize) -> bool
    ensures { result ≡ spec.has_trait end header.now }
{
    let mut behind = header.look_ahead();
    behind.pass_angles();
    behind.is_trait_impl(end)
}

/// Whether what is left begins before a place.
fn is_before(cursor: &Cursor<'_>, end: usize) -> bool
    ensures { result ≡ spec.is_before end cursor.now }
{
    cursor.last_end() < end
}

fn visibility_if(test: bool, visibility: Option<Visibility>) -> Option<Visibility>
    ensures { result ≡ (if test then visibility else None) }
{
    if test { visibility } else { None }
}

#[tactic(auto, unfolding(crate::specs::Leaves::header_field))]
fn field(alloc: Global, cursor: &mut Cursor<'_>, end: usize) -> Result<TupleField, AllocError>
    ensures { Gives field_view (spec.header_field end cursor.old) result cursor.new }
{
    let _attrs = kept_outer_attributes(alloc, cursor, WantedMetas::Conditions)?;
    let visibility = visibility(alloc, cursor)?;
    let visibility = visibility_if(is_before(cursor, end), visibility);
    cursor.pass_field();
    cursor.eat(b',');
    Ok(TupleField { visibility })
}

fn are_over(cursor: &Cursor<'_>, end: usize) -> bool
    ensures { result ≡ spec.are_over end cursor.now }
{
    cursor.is_at_end() || !is_before(cursor, end)
}

#[tactic(auto, unfolding(crate::specs::Leaves::fields, rust_cursor::specs::Elements::turns), using(rust_cursor::proofs::Turns::turns_stop),)]
fn fields(alloc: Global, cursor: &mut Cursor<'_>, end: usize) -> Result<Vec<TupleField>, AllocError>
    ensures { Gives (λ v. map field_view v.items) (spec.fields end cursor.old) result cursor.new }
{
    let mut fields = Vec::new(alloc);
    let most = Cursor::most_turns();
    for _turn in 0..most {
        if are_over(cursor, end) {
            break;
        }
        let past = cursor.last_end();
        let field = field(alloc, cursor, end)?;
        fields.push(field)?;
        cursor.pass_beyond(past);
    }
    Ok(fields)
}

fn symbol_before(cursor: &Cursor<'_>, end: usize) -> u8
    ensures { result ≡ spec.symbol_within end cursor.now }
{
    if is_before(cursor, end) {
        return cursor.symbol();
    }
    0
}

fn header_end(end: usize, block: &Option<Cursor<'_>>) -> usize
    ensures { result ≡ spec.header_end end block.now }
{
    match block {
        Some(block) => block.last_end(),
        None => end,
    }
}

/// How the fields of a struct are written, behind its name, where the struct ends at a place, and with braces or not.
#[tactic(auto, unfolding(crate::specs::Leaves::struct_fields))]
fn struct_fields(
    alloc: Global,
    header: &Cursor<'_>,
    end: usize,
    block: &Option<Cursor<'_>>,
) -> Result<StructKind, AllocError>
    ensures { IfOk result (λ kind. fields_view kind ≡ spec.struct_fields end block.now header.now) }
{
    let mut behind = header.look_ahead();
    behind.pass_angles();
    let end = header_end(end, block);
    let symbol = symbol_before(&behind, end);
    if symbol == b'(' {
        behind.bump();
        return Ok(StructKind::Tuple(fields(alloc, &mut behind, end)?));
    }
    if symbol == b'{' || block.is_some() {
        return Ok(StructKind::Record);
    }
    Ok(StructKind::Unit)
}

#[tactic(auto, using(hir_input::proofs::SyntaxViews::item_views, crate::proofs::ClippedLeaves::structure_clipped))]
pub(crate) fn structure<'t>(
    alloc: Global,
    cursor: &mut Cursor<'t>,
    wanted: Wanted,
    attrs: Vec<Meta>,
    visibility: Option<Visibility>,
) -> Result<Option<Leaf<'t>>, AllocError>
    ensures { Gives (option_map leaf_view)
        (kinds.some_read (with_value (wanted_leaf wanted (map meta_view attrs.items))
        (kinds.structure [] visibility cursor.old))) result cursor.new }
{
    let named = item_name(alloc, cursor)?;
    let header = cursor.look_ahead();
    let rest = take_rest(alloc, cursor, wanted.bodies, Head::Struct)?;
    let kind = struct_fields(alloc, &header, cursor.last_end(), &rest.block)?;
    let item = Item::Struct(Struct {
        hash: 0,
        number: 0,
        attrs,
        name: named.name,
        visibility,
        kind,
        body: rest.body,
    });
    Ok(read_leaf!(alloc, AstIdKind::Struct, item, named, rest))
}
