//! What holds of sessions after any edits, and that a copy of an error is its source. The functions do nothing.
ghost use Rattle.std.specs.Prelude.{◌≡◌, ℕ, List, Option, ◌++◌};
ghost use Rattle.hir_input.specs.Equality.{IsCopied};
ghost use Rattle.hir_input.specs.declared.edition.EditionYear.{EditionYear};
ghost use Rattle.item_tree_db.specs.Edits.{EditView};
ghost use Rattle.rust_edits.specs.ItemJoins.Mended.{text_for_lists};
ghost use Rattle.rust_items.specs.SourceFiles.{FileView};
ghost use Rattle.source_rows.specs.Listed.{Closers};
ghost use Rattle.source_rows.specs.ListedFiles.{IsListedFile, listed_text};
ghost use Rattle.text_session.specs.Edits.{TextEdit};
ghost use Rattle.text_session.specs.Sessions.{AreMade, AreSetTo, IsEdited, Session};
ghost use Rattle.text_session.specs.Texts.{TextChange};

use crate::error::EditError;
use crate::splice::ChangeFault;

// Edits in two goes lead where they lead in one.
#[tactic(auto, using(crate::proofs::EditedSessions::made_join))]
fn edits_join()
    ensures { (s u v : Session) (es fs : List EditView) (cs ds : List TextChange)
        → AreMade s es cs u → AreMade u fs ds v → AreMade s (es ++ fs) (cs ++ ds) v }
{}

// Each text is kept as if it was read anew, after edits too, whether it was read or an edit was made inside a body.
#[tactic(auto, using(crate::proofs::ReadTexts::set_edited))]
fn readings()
    ensures { (s u : Session) (asked : List TextEdit) → AreSetTo s.edition.0 s.table s.texts → IsEdited s asked u
        → AreSetTo u.edition.0 u.table u.texts }
{}

// The text that lists are read from is that of the laws on items beside others, in `rust_edits`.
fn lists()
    ensures { (edition : EditionYear) (text : List ℕ) (closers : Option Closers) (file : FileView)
        → IsListedFile edition text closers file → listed_text text closers ≡ text_for_lists edition text }
{}

fn faults()
    ensures { IsCopied ⟦<ChangeFault as Clone>⟧.is_clone }
{}

fn errors()
    ensures { IsCopied ⟦<EditError as Clone>⟧.is_clone }
{}
