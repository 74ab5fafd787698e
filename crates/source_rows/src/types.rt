//! The types that impls are of.
ghost use Rattle.std.specs.Prelude.{◌≡◌, IfOk, OnOk};
ghost use Rattle.rust_cursor.specs.Grammar.{reads};
ghost use Rattle.rust_paths.specs.Names as names;
ghost use Rattle.source_rows.specs.Types as spec;

use hir_input::{EditionYear, Name};
use rust_cursor::Cursor;
use rust_leaves::{Wanted, WantedMetas, wanted_front};
use rust_paths::{is_path_keyword, name};
use std::alloc::{AllocError, Global};

/// The type of an impl, as far as the header was read.
#[derive(Drop)]
pub(crate) struct TypeRead {
    /// Whether it is a path so far.
    is_path: bool,
    /// The last name of the path.
    name: Option<Name>,
    /// Whether a trait stands before it.
    of_trait: bool,
}

fn begun_type() -> TypeRead
    ensures { result ≡ spec.begun_type }
{
    TypeRead {
        is_path: true,
        name: None,
        of_trait: false,
    }
}

fn behind_trait() -> TypeRead
    ensures { result ≡ spec.behind_trait }
{
    TypeRead {
        is_path: true,
        name: None,
        of_trait: true,
    }
}

/// Whether the header ends before the next token.
fn is_type_over(cursor: &Cursor<'_>) -> bool
    ensures { result ≡ spec.is_type_over cursor.now }
{
    if cursor.is_empty() {
        return true;
    }
    if matches!(cursor.symbol(), b'{' | b';') {
        return true;
    }
    cursor.word() == "where"
}

/// Whether what comes next is a part of paths, but no name.
fn is_link(cursor: &Cursor<'_>) -> bool
    ensures { result ≡ spec.is_link cursor.now }
{
    cursor.symbol() == b':' || is_path_keyword(cursor.word())
}

/// Takes a name of a path, or passes over what is in none.
fn take_name(alloc: Global, cursor: &mut Cursor<'_>, read: &mut TypeRead) -> Result<(), AllocError>
    ensures { let next = reads names.name cursor.old in
        OnOk result (spec.type_named read.old next.0 next.1 ≡ (read.new, cursor.new)) }
{
    match name(alloc, cursor)? {
        Some(name) => {
            read.name = Some(name);
            Ok(())
        }
        None => {
            read.is_path = false;
            cursor.pass_tree();
            Ok(())
        }
    }
}

/// Goes a step on in a header.
fn take_step(alloc: Global, cursor: &mut Cursor<'_>, read: &mut TypeRead) -> Result<(), AllocError>
    ensures { OnOk result (spec.type_step read.old cursor.old ≡ (read.new, cursor.new)) }
{
    if cursor.is_lone_for() {
        cursor.bump();
        *read = behind_trait();
        return Ok(());
    }
    if cursor.symbol() == b'<' {
        cursor.pass_angles();
        return Ok(());
    }
    if is_link(cursor) {
        cursor.bump();
        return Ok(());
    }
    take_name(alloc, cursor, read)
}

/// The type of the header that comes next.
#[tactic(auto, unfolding(crate::specs::Types::type_read), using(crate::proofs::ImplHeaders::type_stop))]
fn type_read(alloc: Global, cursor: &mut Cursor<'_>) -> Result<TypeRead, AllocError>
    ensures { IfOk result (λ read. read ≡ spec.type_read cursor.old) }
{
    let mut read = begun_type();
    let most = Cursor::most_turns();
    for _turn in 0..most {
        if is_type_over(cursor) {
            break;
        }
        take_step(alloc, cursor, &mut read)?;
    }
    Ok(read)
}

fn path_name(read: TypeRead) -> Option<Name>
    ensures { result ≡ spec.path_name read }
{
    if read.is_path { read.name } else { None }
}

/// The type of an impl, which this is the text of.
#[tactic(auto, unfolding(crate::specs::Types::header_type, rust_leaves::specs::Clipped::with_value))]
fn header_type(alloc: Global, item: &str, edition: EditionYear) -> Result<TypeRead, AllocError>
    ensures { IfOk result (λ read. read ≡ spec.header_type edition item.now) }
{
    let mut cursor = Cursor::new(item, edition);
    let wanted = Wanted {
        bodies: false,
        metas: WantedMetas::Conditions,
    };
    let _front = wanted_front(alloc, &mut cursor, wanted)?;
    cursor.pass_angles();
    type_read(alloc, &mut cursor)
}

/// The name of the type of an impl, which this is the text of.
#[tactic(auto, unfolding(crate::specs::Types::type_name))]
pub(crate) fn type_name(
    alloc: Global,
    item: &str,
    edition: EditionYear,
) -> Result<Option<Name>, AllocError>
    ensures { IfOk result (λ name. name ≡ spec.type_name edition item.now) }
{
    let read = header_type(alloc, item, edition)?;
    Ok(path_name(read))
}

/// Whether an impl, which this is the text of, is of a trait.
///
/// # Errors
///
/// Only if memory runs out.
pub fn is_of_trait(alloc: Global, item: &str, edition: EditionYear) -> Result<bool, AllocError>
    ensures { IfOk result (λ is. is ≡ spec.is_of_trait edition item.now) }
{
    let read = header_type(alloc, item, edition)?;
    Ok(read.of_trait)
}
