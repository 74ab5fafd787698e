//! What requests are answered with.
ghost use Rattle.std.specs.Prelude.{◌≡◌, ◌++◌, IfOk, codes, false, string_bytes};
ghost use Rattle.serde_json.specs.View.{view};
ghost use Rattle.serde_json.specs.Written.{compact_text, has_float};
ghost use Rattle.message_stream.specs.Answers.{answer_texts};
ghost use Rattle.lsp.specs.Inner.{IsPlainOutcome, request_outcome_view};
ghost use Rattle.lsp.specs.Responses as spec;
ghost use Rattle.lsp.specs.Servers.{IsRefusalText, IsToldOutcome};

use hir_input_json::{Fault, Pointer};
use item_tree::LowerError;
use itemtree_commands::SourceError;
use message_stream::Answer;
use serde_json::{Map, Value, json, put};
use source_rows::ReadError;
use std::alloc::{AllocError, AllocFailed, Global};

const NO_MEMORY: &str =
    r#"{"error":{"code":-32603,"message":"out of memory"},"id":null,"jsonrpc":"2.0"}"#;

/// Why a request has no result.
#[derive(Debug, Drop)]
pub enum ResponseError {
    /// The message is no JSON.
    NotJson,
    /// The message is no request, or stands where none may stand.
    InvalidRequest,
    /// There is no such method.
    MethodNotFound,
    /// The parameters are not of their form: where the first value stands that is not.
    InvalidParams { pointer: Pointer },
    /// The conversation is not opened.
    NotInitialized,
    /// The document is too long, or has too many items.
    TooLarge,
    /// The allocator refused memory.
    OutOfMemory,
}

/// The result of a request, or why it has none.
pub(crate) type Outcome = Result<Value, ResponseError>;

impl From<AllocError> for ResponseError {
    ghost use Rattle.std.specs.Prelude.{◌≡◌};
    ghost use Rattle.lsp.specs.declared.response.ResponseError.TheVariants.{OutOfMemory};

    ghost from_gives = { λ _ e. e ≡ OutOfMemory };

    fn from(_error: AllocError) -> ResponseError {
        ResponseError::OutOfMemory
    }
}

impl<T: Drop> From<AllocFailed<T>> for ResponseError {
    ghost use Rattle.std.specs.Prelude.{◌≡◌};
    ghost use Rattle.lsp.specs.declared.response.ResponseError.TheVariants.{OutOfMemory};

    ghost from_gives = { λ _ e. e ≡ OutOfMemory };

    fn from(_failed: AllocFailed<T>) -> ResponseError {
        ResponseError::OutOfMemory
    }
}

impl From<Fault> for ResponseError {
    ghost use Rattle.std.specs.Prelude.{◌≡◌};
    ghost use Rattle.lsp.specs.Responses.{of_fault};

    ghost from_gives = { λ fault e. e ≡ of_fault fault };

    fn from(fault: Fault) -> ResponseError {
        match fault {
            Fault::WrongForm { pointer } => ResponseError::InvalidParams { pointer },
            Fault::OutOfMemory => ResponseError::OutOfMemory,
        }
    }
}

impl From<SourceError> for ResponseError {
    ghost use Rattle.std.specs.Prelude.{◌≡◌};
    ghost use Rattle.lsp.specs.Responses.{of_source};

    ghost from_gives = { λ error e. e ≡ of_source error };

    fn from(error: SourceError) -> ResponseError {
        match error {
            SourceError::Lower(LowerError::OutOfMemory) => ResponseError::OutOfMemory,
            _ => ResponseError::TooLarge,
        }
    }
}

impl From<ReadError> for ResponseError {
    ghost use Rattle.std.specs.Prelude.{◌≡◌};
    ghost use Rattle.lsp.specs.Responses.{of_read};

    ghost from_gives = { λ error e. e ≡ of_read error };

    fn from(error: ReadError) -> ResponseError {
        match error {
            ReadError::TooLong => ResponseError::TooLarge,
            ReadError::OutOfMemory => ResponseError::OutOfMemory,
        }
    }
}

impl ResponseError {
    /// The number that the protocol has for it.
    fn code(&self) -> i64
        ensures { result ≡ spec.error_code self.now }
    {
        match self {
            ResponseError::NotJson => -32700,
            ResponseError::InvalidRequest => -32600,
            ResponseError::MethodNotFound => -32601,
            ResponseError::InvalidParams { .. } => -32602,
            ResponseError::OutOfMemory => -32603,
            ResponseError::NotInitialized => -32002,
            ResponseError::TooLarge => -32803,
        }
    }

    /// What is said of it, without the place of what has the wrong form.
    fn words(&self) -> &'static str
        ensures { result.now ≡ spec.error_words self.now }
    {
        match self {
            ResponseError::NotJson => "no JSON",
            ResponseError::InvalidRequest => "no request that may stand here",
            ResponseError::MethodNotFound => "no such method",
            ResponseError::InvalidParams { .. } => "wrong form at ",
            ResponseError::OutOfMemory => "out of memory",
            ResponseError::NotInitialized => "initialize comes first",
            ResponseError::TooLarge => "the text is too large",
        }
    }

    fn message(&self, alloc: Global) -> Result<String, AllocError>
        ensures { IfOk result (λ text. string_bytes text ≡ spec.error_message self.now) }
    {
        let mut text = String::from_str(alloc, self.words())?;
        if let ResponseError::InvalidParams { pointer } = self {
            text.push_str(pointer.text())?;
        }
        Ok(text)
    }
}

fn error_value(alloc: Global, error: &ResponseError) -> Result<Value, AllocError>
    ensures { IfOk result (λ value. view value ≡ spec.error_data error.now) }
{
    let message = error.message(alloc)?;
    let mut members = Map::new(alloc);
    put(&mut members, alloc, "code", Value::from(error.code()))?;
    put(&mut members, alloc, "message", Value::String(message))?;
    Ok(Value::Object(members))
}

fn response_value(alloc: Global, id: Value, outcome: Outcome) -> Result<Value, AllocError>
    ensures { IfOk result (λ value. view value
        ≡ spec.response_data (view id) (request_outcome_view outcome)) }
{
    let (key, told) = match outcome {
        Ok(result) => ("result", result),
        Err(error) => ("error", error_value(alloc, &error)?),
    };
    let mut members = Map::new(alloc);
    put(&mut members, alloc, "id", id)?;
    put(
        &mut members,
        alloc,
        "jsonrpc",
        Value::try_from_str(alloc, "2.0")?,
    )?;
    put(&mut members, alloc, key, told)?;
    Ok(Value::Object(members))
}

/// The text of the answer to a request.
///
/// # Errors
///
/// Only if memory runs out.
fn response_text(alloc: Global, id: Value, outcome: Outcome) -> Result<String, AllocError>
    requires id { has_float (view id) ≡ false }
    requires outcome { IsPlainOutcome outcome }
    ensures { IfOk result (λ text. string_bytes text
        ≡ compact_text (spec.response_data (view id) (request_outcome_view outcome))) }
{
    let value = response_value(alloc, id, outcome)?;
    value.to_string(alloc)
}

/// The answer to a request under an id.
pub(crate) fn response(alloc: Global, id: Value, outcome: Outcome) -> Answer
    requires id { has_float (view id) ≡ false }
    requires outcome { IsPlainOutcome outcome }
    ensures { IsToldOutcome (view id) (request_outcome_view outcome) (answer_texts result) }
{
    match response_text(alloc, id, outcome) {
        Ok(text) => Answer::Made(text),
        Err(_) => Answer::Fixed(NO_MEMORY),
    }
}

/// The answer to what is no request.
pub(crate) fn refusal_of(alloc: Global, error: ResponseError) -> Answer
    ensures { IsRefusalText error (answer_texts result) }
{
    response(alloc, Value::Null, Err(error))
}
