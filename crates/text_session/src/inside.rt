//! Edits inside bodies: the text is not read anew. What was read of it stays, and what stands behind the body is moved.
ghost use Rattle.std.specs.Prelude.{[], ◌∷◌, IfOk, IfSome, map};
ghost use Rattle.text_session.specs.Edits.{change_text, set_text, text_edit_view};
ghost use Rattle.text_session.specs.Inside.{IsInside, MakesAlone};

use crate::difference::difference;
use crate::edit::TextEdit;
use crate::retyped::{made_if_full, retype};
use crate::splice::fault;
use crate::texts::{SourceText, Texts, text_of};
use hir_input::HirFileId;
use item_tree_db::Sources;
use rust_edits::{BodyEdit, edit_inside};
use rust_items::TextRange;
use std::alloc::{AllocError, Global};

/// An edit inside a body of a text.
#[derive(Drop)]
pub(crate) struct Inside {
    pub(crate) edit: BodyEdit,
    /// The text with the edit, if the text itself has no room for it.
    pub(crate) made: Option<String>,
}

// What an edit leaves of a text, if there are no problems before it and behind it, and it lies inside a body.
#[tactic(auto, using(crate::proofs::SplicedTexts::fault_none))]
fn inside_of(
    alloc: Global,
    text: &SourceText,
    range: TextRange,
    typed: &str,
) -> Result<Option<Inside>, AllocError>
    ensures { IfOk result (λ found. IfSome found (IsInside text.now range typed.now)) }
{
    if !text.problems.is_empty() {
        return Ok(None);
    }
    if fault(&text.text, range, typed).is_some() {
        return Ok(None);
    }
    let Some(edit) = edit_inside(alloc, &text.places, &text.text, range, typed)? else {
        return Ok(None);
    };
    if !edit.keeps_problems {
        return Ok(None);
    }
    let made = made_if_full(alloc, &text.text, range, typed)?;
    Ok(Some(Inside { edit, made }))
}

// Replaces a range of the text of a file, if that is an edit inside a body.
fn change_inside(
    alloc: Global,
    sources: &mut Sources,
    texts: &mut Texts,
    file: HirFileId,
    range: TextRange,
    typed: &str,
) -> Result<bool, AllocError>
    ensures { let asked = change_text file.0 range typed.now ∷ [] in
        MakesAlone sources.old texts.old.entries asked sources.new texts.new.entries result }
{
    let Some(text) = text_of(texts, file.0) else {
        return Ok(false);
    };
    let Some(inside) = inside_of(alloc, text, range, typed)? else {
        return Ok(false);
    };
    let Some(_number) = sources.set_again(file) else {
        return Ok(false);
    };
    retype(texts, file.0, range, typed, inside.made, &inside.edit.shift);
    Ok(true)
}

// Sets a file to a text, if that is the text that it has, or an edit inside a body of it.
fn set_inside(
    alloc: Global,
    sources: &mut Sources,
    texts: &mut Texts,
    file: HirFileId,
    new: &str,
) -> Result<bool, AllocError>
    ensures { let asked = set_text file.0 new.now ∷ [] in
        MakesAlone sources.old texts.old.entries asked sources.new texts.new.entries result }
{
    let Some(text) = text_of(texts, file.0) else {
        return Ok(false);
    };
    if text.text.as_str() == new {
        return Ok(sources.set_again(file).is_some());
    }
    let Some((range, typed)) = difference(&text.text, new) else {
        return Ok(false);
    };
    change_inside(alloc, sources, texts, file, range, typed)
}

/// Makes edits, if they are one, and it changes a text inside a body or not at all. All memory is asked for before the
/// first change.
///
/// # Errors
///
/// Only if memory runs out. Then nothing is made.
pub(crate) fn edit_inside_body(
    alloc: Global,
    sources: &mut Sources,
    texts: &mut Texts,
    edits: &[TextEdit],
) -> Result<bool, AllocError>
    ensures { MakesAlone sources.old texts.old.entries (map text_edit_view edits.now) sources.new
        texts.new.entries result }
{
    match edits {
        [TextEdit::ChangeText { file, range, text }] => {
            change_inside(alloc, sources, texts, *file, *range, text)
        }
        [TextEdit::SetText { file, text }] => set_inside(alloc, sources, texts, *file, text),
        _ => Ok(false),
    }
}
