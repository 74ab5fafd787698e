//! Edits of a session.

use hir_input::HirFileId;
use item_tree_db::Edit;
use rust_items::TextRange;

/// An edit of a session.
#[derive(Debug, Drop)]
pub enum TextEdit {
    /// One of the table. A file that it sets or removes has no text from then on.
    Table(Edit),
    /// The file has this Rust text from now on, and the syntax that is read of it.
    SetText {
        file: HirFileId,
        text: String,
    },
    /// What stands in a range of the text of a file is replaced. The range is of the text that the edits before leave.
    ChangeText {
        file: HirFileId,
        range: TextRange,
        text: String,
    },
}
