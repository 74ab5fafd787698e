//! What a program writes of the shows of a request.
ghost use Rattle.std.specs.Prelude.{All, IfOk, string_bytes};
ghost use Rattle.item_tree_request.specs.Outputs.{AreJoined, Knows};

use crate::request::show::Show;
use hir_input::Edition;
use item_tree_db::Sources;
use std::alloc::{AllocError, Global};

/// What a program writes of shows.
pub trait ShowWriter {
    ghost use Rattle.std.specs.Prelude.{◌≡◌, OnErr, OnOk};
    ghost use Rattle.item_tree_request.specs.Outputs.{AreFixed, IsAdded, ShowText};

    // Under reserved words, over a table, this text of a show.
    ghost is_text: { ShowText };

    /// Adds the text of a show over a table.
    ///
    /// # Errors
    ///
    /// Only if memory runs out. Then the text stays as it was.
    fn push_show(
        &self,
        alloc: Global,
        sources: &Sources,
        edition: &Edition,
        show: Show,
        text: &mut String,
    ) -> Result<(), AllocError>
        requires { Knows sources.now show }
        ensures added { let IsText = is_text edition.now.reserved.items sources.now show in
            OnOk result (IsAdded IsText (string_bytes text.old) (string_bytes text.new)) }
        ensures same { OnErr result (string_bytes text.new ≡ string_bytes text.old) };

    /// Two tables that the same edits lead to have the same texts; it does nothing.
    fn are_fixed()
        ensures { AreFixed is_text };
}

// The texts of the shows over a table, one after another.
pub(crate) fn output_of<T: ShowWriter>(
    alloc: Global,
    writer: &T,
    sources: &Sources,
    edition: &Edition,
    shows: &[Show],
) -> Result<String, AllocError>
    requires { All (Knows sources.now) shows.now }
    ensures { IfOk result (λ text. AreJoined
        (T.is_text edition.now.reserved.items sources.now) shows.now (string_bytes text)) }
{
    let mut text = String::new(alloc);
    for show in shows {
        writer.push_show(alloc, sources, edition, *show, &mut text)?;
    }
    Ok(text)
}
