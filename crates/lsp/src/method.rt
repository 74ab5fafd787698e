//! The methods of requests and notifications.
ghost use Rattle.std.specs.Prelude.{◌≡◌};
ghost use Rattle.lsp.specs.Methods as spec;

/// Which ranges are asked for: what may be folded, what is around positions, or what belongs to one.
#[derive(Clone, Copy, Debug)]
pub enum RangeKind {
    Folding,
    Selection,
    Highlight,
}

/// What a request asks for.
#[derive(Clone, Copy, Debug)]
pub enum RequestMethod {
    Initialize,
    Shutdown,
    DocumentSymbol,
    Ranges { kind: RangeKind },
    Unknown,
}

/// What a notification tells.
#[derive(Clone, Copy, Debug)]
pub enum NotificationMethod {
    Exit,
    DidOpen,
    DidChange,
    DidClose,
    /// What is passed over.
    Other,
}

/// What a request asks for.
pub(crate) fn request_method(word: &str) -> RequestMethod
    ensures { result ≡ spec.request_method word.now }
{
    match word {
        "initialize" => RequestMethod::Initialize,
        "shutdown" => RequestMethod::Shutdown,
        "textDocument/documentSymbol" => RequestMethod::DocumentSymbol,
        "textDocument/foldingRange" => RequestMethod::Ranges {
            kind: RangeKind::Folding,
        },
        "textDocument/selectionRange" => RequestMethod::Ranges {
            kind: RangeKind::Selection,
        },
        "textDocument/documentHighlight" => RequestMethod::Ranges {
            kind: RangeKind::Highlight,
        },
        _ => RequestMethod::Unknown,
    }
}

/// What a notification tells.
pub(crate) fn notification_method(word: &str) -> NotificationMethod
    ensures { result ≡ spec.notification_method word.now }
{
    match word {
        "exit" => NotificationMethod::Exit,
        "textDocument/didOpen" => NotificationMethod::DidOpen,
        "textDocument/didChange" => NotificationMethod::DidChange,
        "textDocument/didClose" => NotificationMethod::DidClose,
        _ => NotificationMethod::Other,
    }
}
