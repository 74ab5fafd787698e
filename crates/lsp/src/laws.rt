//! What holds of whole conversations. The function does nothing.
ghost use Rattle.std.specs.Prelude.{◌≡◌, ℕ, List, Some};
ghost use Rattle.lsp.specs.Documents.{Document, document_in};
ghost use Rattle.lsp.specs.Opened.{AreAnsweredAlike, HasJustOpened};
ghost use Rattle.lsp.specs.Servers.{ServerState};
ghost use Rattle.lsp.specs.declared.phase.Phase.TheVariants.{Running};

// A document is answered, whatever messages came before, as one that a new server has just opened with its text.
fn opened()
    ensures { (s fresh : ServerState) (d : Document) (uri : List ℕ) → s.phase ≡ Running
        → document_in s.documents uri ≡ Some d → HasJustOpened s.options s.client uri d fresh
        → AreAnsweredAlike s fresh uri }
{}
