//! Where a conversation stands.
ghost use Rattle.std.specs.Prelude.{◌≡◌};
ghost use Rattle.lsp.specs.Servers as spec;

use crate::method::RequestMethod;
use crate::response::ResponseError;

/// Where a conversation stands.
#[derive(Clone, Copy, Debug)]
pub enum Phase {
    /// It is not opened.
    Waiting,
    /// It is open.
    Running,
    /// The client has asked for its end.
    ShutDown,
    /// It is over: as it should be, or without a shutdown.
    Ended { is_clean: bool },
}

/// Why a request may not stand in a phase, if it may not.
pub(crate) fn refusal(phase: Phase, method: RequestMethod) -> Option<ResponseError>
    ensures { result ≡ spec.refusal phase method }
{
    match (phase, method) {
        (Phase::Waiting, RequestMethod::Initialize) => None,
        (Phase::Waiting, _) => Some(ResponseError::NotInitialized),
        (Phase::Running, RequestMethod::Initialize) => Some(ResponseError::InvalidRequest),
        (Phase::Running, RequestMethod::Unknown) => Some(ResponseError::MethodNotFound),
        (Phase::Running, _) => None,
        (Phase::ShutDown | Phase::Ended { .. }, _) => Some(ResponseError::InvalidRequest),
    }
}

/// The phase behind the end of a conversation.
pub(crate) fn ended_phase(phase: Phase) -> Phase
    ensures { result ≡ spec.ended_phase phase }
{
    match phase {
        Phase::ShutDown => Phase::Ended { is_clean: true },
        Phase::Ended { is_clean } => Phase::Ended { is_clean },
        Phase::Waiting | Phase::Running => Phase::Ended { is_clean: false },
    }
}
