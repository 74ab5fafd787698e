//! What edits of a session mean: edits of the table, and what becomes of the texts of files.
ghost use Rattle.std.specs.Prelude.{◌≡◌, All, IfOk, IfErr, length, map, string_bytes};
ghost use Rattle.item_tree_db.specs.Edits.{edit_view as table_view};
ghost use Rattle.text_session.specs.Edits.{change_text, set_text, text_edit_view};
ghost use Rattle.text_session.specs.Inner.{LeavesPlaced, IsFailing, TellsFault};
ghost use Rattle.text_session.specs.Texts.{AreMeant, FailsAt, FileTexts, IsReading, Means};
ghost use Rattle.text_session.specs.Texts.{forgets, text_after as after, text_in};

use crate::edit::TextEdit;
use crate::error::EditError;
use crate::splice::{ChangeFault, MOST_BYTES, changed_text};
use crate::texts::{Change, SourceText, Texts, text_after};
use hir_input::{EditionYear, HirFileId};
use item_tree_db::Edit;
use rust_items::{TextRange, Wanted, WantedMetas};
use source_rows::{ReadError, read_listed};
use std::alloc::Global;

/// An edit of the table, and what it leaves of the text of a file.
#[derive(Drop)]
pub(crate) struct Meaning {
    edit: Edit,
    change: Change,
}

/// Those of some edits of a session, in their order.
#[derive(Drop)]
pub(crate) struct Meanings {
    pub(crate) edits: Vec<Edit>,
    pub(crate) changes: Vec<Change>,
}

// What an edit of the table leaves of the text of a file.
fn forgetting_change(edit: &Edit) -> Change
    ensures { result ≡ forgets (table_view edit.now) }
{
    match edit {
        Edit::SetFile { file, .. } | Edit::RemoveFile { file } => Some((file.0, None)),
        _ => None,
    }
}

// What setting a file to a text means.
fn reading(
    alloc: Global,
    file: HirFileId,
    text: String,
    edition: EditionYear,
) -> Result<Meaning, ReadError>
    ensures means { IfOk result
        (λ m. IsReading edition file.0 (string_bytes text) (table_view m.edit) m.change) }
    ensures placed { IfOk result (λ m. LeavesPlaced m.change) }
{
    let wanted = Wanted {
        bodies: false,
        metas: WantedMetas::All,
    };
    let read = read_listed(alloc, &text, wanted, edition)?;
    let kept = SourceText {
        text,
        mended: read.mended,
        places: read.file.places,
        use_trees: read.file.use_trees,
        problems: read.file.problems,
    };
    Ok(Meaning {
        edit: Edit::SetFile {
            file,
            syntax: read.file.syntax,
        },
        change: Some((file.0, Some(kept))),
    })
}

// What the edit at this place of a list means that sets a file to a text.
fn set_meaning(
    alloc: Global,
    file: HirFileId,
    text: String,
    place: usize,
    edition: EditionYear,
) -> Result<Meaning, EditError>
    ensures means { (texts : FileTexts) → IfOk result
        (λ m. Means edition texts (set_text file.0 (string_bytes text)) (table_view m.edit)
        m.change) }
    ensures placed { IfOk result (λ m. LeavesPlaced m.change) }
    ensures fails { (texts : FileTexts) → IfErr result
        (TellsFault (IsFailing texts (set_text file.0 (string_bytes text)) place)) }
{
    if text.len() > MOST_BYTES {
        let cause = ChangeFault::TooLong;
        return Err(EditError::NotChanged { place, cause });
    }
    let meaning = reading(alloc, file, text, edition)?;
    Ok(meaning)
}

// What the edit means that replaces a range of the text of a file, behind those which make these changes.
fn change_meaning(
    alloc: Global,
    file: HirFileId,
    range: TextRange,
    new: &str,
    texts: &Texts,
    changes: &[Change],
    edition: EditionYear,
) -> Result<Meaning, EditError>
    ensures means { IfOk result
        (λ m. Means edition (after (text_in texts.now.entries) changes.now)
        (change_text file.0 range new.now) (table_view m.edit) m.change) }
    ensures placed { IfOk result (λ m. LeavesPlaced m.change) }
    ensures fails { IfErr result
        (TellsFault (IsFailing (after (text_in texts.now.entries) changes.now)
        (change_text file.0 range new.now) (length changes.now))) }
{
    let old = text_after(texts, changes, file.0);
    let made = changed_text(alloc, old, range, new, changes.len())?;
    let meaning = reading(alloc, file, made, edition)?;
    Ok(meaning)
}

// What an edit means behind those which make these changes.
fn meaning_of(
    alloc: Global,
    edit: TextEdit,
    texts: &Texts,
    changes: &[Change],
    edition: EditionYear,
) -> Result<Meaning, EditError>
    ensures means { IfOk result
        (λ m. Means edition (after (text_in texts.now.entries) changes.now) (text_edit_view edit)
        (table_view m.edit) m.change) }
    ensures placed { IfOk result (λ m. LeavesPlaced m.change) }
    ensures fails { IfErr result
        (TellsFault (IsFailing (after (text_in texts.now.entries) changes.now) (text_edit_view edit)
        (length changes.now))) }
{
    match edit {
        TextEdit::Table(edit) => {
            let change = forgetting_change(&edit);
            Ok(Meaning { edit, change })
        }
        TextEdit::SetText { file, text } => {
            set_meaning(alloc, file, text, changes.len(), edition)
        }
        TextEdit::ChangeText { file, range, text } => {
            change_meaning(alloc, file, range, text.as_str(), texts, changes, edition)
        }
    }
}

/// What edits over these texts mean, in an edition.
///
/// `NotChanged` comes exactly where one of them means nothing, and tells the first. The only other error is that memory
/// runs out.
pub(crate) fn meanings_of(
    alloc: Global,
    edits: Vec<TextEdit>,
    texts: &Texts,
    edition: EditionYear,
) -> Result<Meanings, EditError>
    ensures meant { IfOk result
        (λ m. AreMeant edition (text_in texts.now.entries) (map text_edit_view edits.items)
        (map table_view m.edits.items) m.changes.items) }
    ensures fails { IfErr result
        (TellsFault (FailsAt edition (text_in texts.now.entries) (map text_edit_view edits.items))) }
    ensures placed { IfOk result (λ m. All LeavesPlaced m.changes.items) }
    ensures count { IfOk result (λ m. length m.edits.items ≡ length edits.items) }
{
    let mut made = Vec::with_capacity(alloc, edits.len())?;
    let mut changes = Vec::with_capacity(alloc, edits.len())?;
    for edit in edits {
        let meaning = meaning_of(alloc, edit, texts, &changes, edition)?;
        made.push(meaning.edit)?;
        changes.push(meaning.change)?;
    }
    Ok(Meanings {
        edits: made,
        changes,
    })
}
