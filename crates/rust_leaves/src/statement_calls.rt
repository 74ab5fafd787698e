//! Macro calls in the place of a statement.

ghost use Rattle.std.specs.Prelude.{map, option_map};
ghost use Rattle.hir_input.specs.Attr.{meta_view};
ghost use Rattle.rust_cursor.specs.Reader.{Gives};
ghost use Rattle.rust_leaves.specs.Statements as spec;
ghost use Rattle.rust_leaves.specs.Views.{call_read_view};

use crate::calls::{Callee, take_callee};
use crate::named::range_to;
use hir_input::ast::{MacroCall, PathNode};
use hir_input::{EditionYear, ExpandTo, Meta, SyntaxContext};
use rust_cursor::Cursor;
use rust_paths::TextRange;
use std::alloc::{AllocError, Global};

/// A macro call in the place of a statement.
#[derive(Drop)]
pub struct Call<'t> {
    pub node: MacroCall,
    /// The name that is hashed.
    pub name: &'t str,
    /// Whether its bracket is a brace.
    pub is_braced: bool,
    /// Where its braces stand.
    pub body: Option<TextRange>,
}

fn call_tree<'t>(
    alloc: Global,
    cursor: &mut Cursor<'t>,
    attrs: Vec<Meta>,
    path: Option<PathNode>,
    name: &'t str,
) -> Result<Call<'t>, AllocError>
    ensures { Gives call_read_view
        (spec.call_tree (map meta_view attrs.items) path name.now cursor.old) result cursor.new }
{
    let is_braced = cursor.symbol() == b'{';
    let excerpt = cursor.tree_body(alloc, true)?;
    let body = range_to(cursor.last_end(), &excerpt.block);
    let node = MacroCall {
        hash: 0,
        number: 0,
        attrs,
        path,
        expand_to: ExpandTo::Statements,
        ctxt: SyntaxContext::Root(EditionYear::E2024),
        body: excerpt.text,
    };
    Ok(Call {
        node,
        name,
        is_braced,
        body,
    })
}

/// Takes a macro call up to its bracket, or nothing where none is written.
///
/// # Errors
///
/// Only if memory runs out. The cursor may then stand anywhere.
#[tactic(auto, using(crate::proofs::Callees::call_taken))]
pub fn statement_call<'t>(
    alloc: Global,
    cursor: &mut Cursor<'t>,
    attrs: Vec<Meta>,
) -> Result<Option<Call<'t>>, AllocError>
    ensures { let read = spec.statement_call (map meta_view attrs.items) cursor.old in
        Gives (option_map call_read_view) read result cursor.new }
{
    match take_callee(alloc, cursor)? {
        Some(Callee { path, name }) => {
            let call = call_tree(alloc, cursor, attrs, path, name)?;
            Ok(Some(call))
        }
        None => Ok(None),
    }
}
