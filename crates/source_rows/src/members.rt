//! Members of items.
ghost use Rattle.std.specs.Prelude.{◌≡◌, IfOk, map};
ghost use Rattle.rust_items.specs.MemberViews.{member_view};
ghost use Rattle.source_rows.specs.Labels.{has_members};
ghost use Rattle.source_rows.specs.Listed as spec;

use crate::labels::kind_texts;
use hir_input::{AstIdKind, EditionYear};
use rust_items::{Member, TextRange, read_members};
use rust_metas::WantedMetas;
use std::alloc::{AllocError, Global};

fn has_members(kind: AstIdKind) -> bool
    ensures { result ≡ has_members kind }
{
    kind_texts(kind).scope.is_some()
}

/// The members of an item of a text, which has these braces: none, where items of its kind have none. Of their
/// attributes they have those that tell conditions.
///
/// # Errors
///
/// Only if memory runs out.
pub fn members_in(
    alloc: Global,
    kind: AstIdKind,
    text: &str,
    body: Option<TextRange>,
    edition: EditionYear,
) -> Result<Vec<Member>, AllocError>
    ensures { let read = spec.body_members edition kind text.now (has_members kind) body in
        IfOk result (λ v. map member_view v.items ≡ read) }
{
    if !has_members(kind) {
        return Ok(Vec::new(alloc));
    }
    match body {
        Some(body) => read_members(alloc, kind, text, body, edition, WantedMetas::Conditions),
        None => Ok(Vec::new(alloc)),
    }
}
