//! A language server for open texts.
ghost use Rattle.std.specs.Prelude.{◌≡◌, ◌⊎◌, ◌∷◌, [], Err, IfOk, OnErr, Some, false, map, string_bytes};
ghost use Rattle.serde_json.specs.Data.{null};
ghost use Rattle.serde_json.specs.View.{view};
ghost use Rattle.serde_json.specs.Written.{has_float};
ghost use Rattle.message_stream.specs.Answers.{answer_texts};
ghost use Rattle.lsp.specs.Documents.{document_in as spec_document_in, uri_in};
ghost use Rattle.lsp.specs.Inner.{IsPlainOutcome, IsSameButDocuments, OnRead, request_outcome_view};
ghost use Rattle.lsp.specs.declared.response.ResponseError.TheVariants.{OutOfMemory};
ghost use Rattle.lsp.specs.declared.method.RequestMethod.TheVariants.{Initialize};
ghost use Rattle.lsp.specs.Messages.{incoming, notification};
ghost use Rattle.lsp.specs.Methods.{request_method};
ghost use Rattle.lsp.specs.Servers as spec;
ghost use Rattle.lsp.specs.Untold.{told_at_once, untold_named};

use crate::client::{Client, client_of};
use crate::diagnostics::{closed_text, notice_text};
use crate::document::{Documents, close_document, document_in, uri_in};
use crate::edits::{change_document, open_document};
use crate::listed::asked_symbols;
use crate::message::{Incoming, message_of};
use crate::method::{NotificationMethod, RequestMethod, notification_method, request_method};
use crate::opening::initialize_value;
use crate::phase::{Phase, ended_phase, refusal};
use crate::ranges::ranges;
use crate::response::{Outcome, ResponseError, refusal_of, response};
use crate::surrogates::mend;
use crate::untold::{put_name, take_name};
use hir_input_json::Fault;
use itemtree_commands::{Options, SourceError};
use line_index::Units;
use message_stream::{Answer, Message, Service};
use serde_json::Value;
use std::alloc::Global;
use std::collections::BTreeMap;
use std::marker::Model;

/// A language server for open texts: what stands between the messages of a conversation.
pub struct Server {
    options: Options,
    phase: Phase,
    client: Client,
    documents: Documents,
    /// The names of documents whose problems are not told yet.
    untold: Vec<String>,
}

// (Written out: what is derived is proved anew, field by field, in each crate that drops one.)
impl Drop for Server {
    fn drop(self) {
        let Server {
            options: _,
            phase: _,
            client: _,
            documents: _,
            untold: _,
        } = self;
    }
}

impl Model for Server {
    ghost use Rattle.std.specs.Coded.{codes};
    ghost use Rattle.hir_input.specs.Code.Attr.{options_code};
    ghost use Rattle.hir_input.specs.contracts.attr.Meta as meta;
    ghost use Rattle.lsp.specs.Servers.{ServerState};
    ghost use Rattle.lsp.specs.Views.{documents_view};
    ghost use Rattle.std.specs.Prelude.{map, string_bytes};

    ghost Value = { ServerState };

    ghost coded = { Prim.hlevel (codes, options_code, meta.the_row.coded) };

    ghost view = { λ x. record {
      options = x.options;
      phase = x.phase;
      client = x.client;
      documents = documents_view x.documents;
      untold = map string_bytes x.untold.items;
    } };
}

const LOST: &str =
    r#"{"jsonrpc":"2.0","method":"window/showMessage","params":{"message":"open the documents again","type":1}}"#;

const UNTOLD: &str =
    r#"{"jsonrpc":"2.0","method":"window/showMessage","params":{"message":"no memory to tell problems","type":2}}"#;

impl Server {
    /// A server of a conversation that is not opened, which reads texts under these options. Takes no memory.
    pub fn new(alloc: Global, options: Options) -> Server
        ensures { result ≡ spec.new_server options }
    {
        Server {
            options,
            phase: Phase::Waiting,
            client: Client {
                units: Units::Utf16,
                is_hierarchical: false,
            },
            documents: BTreeMap::new(alloc),
            untold: Vec::new(alloc),
        }
    }

    /// Whether the conversation is over, and if so, whether it ended as it should.
    pub fn end(&self) -> Option<bool>
        ensures { result ≡ spec.conversation_end self.now.phase }
    {
        match self.phase {
            Phase::Ended { is_clean } => Some(is_clean),
            _ => None,
        }
    }

    /// Ends the conversation: the client has left.
    fn leave(&mut self)
        ensures { self.new ≡ spec.client_left self.old }
    {
        self.phase = ended_phase(self.phase);
    }

    /// Opens the conversation.
    fn initialize(&mut self, alloc: Global, params: Value) -> Outcome
        ensures done { let out = request_outcome_view result in
            spec.IsOutOfMemory self.old self.new out
            ⊎ spec.IsRequestDone self.old Initialize (view params) self.new out }
        ensures plain { IsPlainOutcome result }
    {
        let client = client_of(&params);
        let value = initialize_value(alloc, client.units)?;
        self.client = client;
        self.phase = Phase::Running;
        Ok(value)
    }

    /// Does what a request asks, if that may stand here.
    fn respond(&mut self, alloc: Global, method: RequestMethod, params: Value) -> Outcome
        ensures answered { spec.IsRequestAnswered self.old method (view params) self.new (request_outcome_view result) }
        ensures plain { IsPlainOutcome result }
    {
        if let Some(error) = refusal(self.phase, method) {
            return Err(error);
        }
        match method {
            RequestMethod::Initialize => self.initialize(alloc, params),
            RequestMethod::Shutdown => {
                self.phase = Phase::ShutDown;
                self.untold.clear();
                Ok(Value::Null)
            }
            RequestMethod::DocumentSymbol => {
                asked_symbols(alloc, &self.options, self.client, &self.documents, params)
            }
            RequestMethod::Ranges { kind } => {
                let units = self.client.units;
                ranges(alloc, &self.options, units, kind, &self.documents, params)
            }
            RequestMethod::Unknown => Err(ResponseError::MethodNotFound),
        }
    }

    /// Does what a notification about the document of a name tells.
    fn edit(
        &mut self,
        alloc: Global,
        method: NotificationMethod,
        uri: &str,
        params: Value,
    ) -> Result<(), Fault>
        ensures edited { OnRead result (self.new
            ≡ spec.with_documents self.old (spec.documents_named self.old method (view params) uri.now)) }
        ensures state { IsSameButDocuments self.old self.new }
    {
        match method {
            NotificationMethod::DidOpen => open_document(alloc, &mut self.documents, params),
            NotificationMethod::DidChange => {
                change_document(alloc, self.client.units, &mut self.documents, uri, params)
            }
            NotificationMethod::DidClose => {
                close_document(&mut self.documents, uri);
                Ok(())
            }
            NotificationMethod::Exit | NotificationMethod::Other => Ok(()),
        }
    }

    /// What is told of the document of a name.
    fn notice_of(&self, alloc: Global, uri: &str) -> Result<String, SourceError>
        ensures { IfOk result (λ text. let docs = self.now.documents in
            spec.IsToldOfOpen self.now uri.now (spec_document_in docs uri.now) (string_bytes text ∷ [])) }
    {
        match document_in(&self.documents, uri) {
            Some(document) => notice_text(alloc, &self.options, self.client.units, uri, document),
            None => Ok(closed_text(alloc, uri)?),
        }
    }

    /// Notes that the problems of the document of a name are not told yet; of one that is closed it tells none at once.
    fn note(
        &mut self,
        alloc: Global,
        method: NotificationMethod,
        uri: String,
    ) -> Result<Vec<String>, ResponseError>
        ensures noted { IfOk result (λ _. self.new
            ≡ spec.with_untold self.old (untold_named self.old.untold method (string_bytes uri))) }
        ensures told { IfOk result
            (λ texts. map string_bytes texts.items ≡ told_at_once method (Some (string_bytes uri))) }
        ensures state { IsSameButDocuments self.old self.new }
    {
        let mut texts = Vec::new(alloc);
        match method {
            NotificationMethod::DidOpen | NotificationMethod::DidChange => {
                put_name(&mut self.untold, uri)?;
                Ok(texts)
            }
            NotificationMethod::DidClose => {
                take_name(&mut self.untold, &uri);
                texts.push(closed_text(alloc, &uri)?)?;
                Ok(texts)
            }
            NotificationMethod::Exit | NotificationMethod::Other => Ok(texts),
        }
    }

    /// Does what a notification about documents tells, and gives what is told then.
    fn notice_documents(
        &mut self,
        alloc: Global,
        method: NotificationMethod,
        params: Value,
    ) -> Result<Vec<String>, ResponseError>
        ensures noticed { IfOk result (λ _. self.new ≡ spec.noticed_documents self.old method (view params)) }
        ensures told { IfOk result
            (λ texts. map string_bytes texts.items ≡ told_at_once method (uri_in (view params))) }
        ensures state { IsSameButDocuments self.old self.new }
    {
        let Some(uri) = uri_in(&params) else {
            return Ok(Vec::new(alloc));
        };
        let uri = String::from_str(alloc, uri)?;
        if let Err(Fault::OutOfMemory) = self.edit(alloc, method, &uri, params) {
            return Err(ResponseError::OutOfMemory);
        }
        self.note(alloc, method, uri)
    }

    /// Does what a notification tells, and gives what is told then.
    fn notice(
        &mut self,
        alloc: Global,
        method: NotificationMethod,
        params: Value,
    ) -> Result<Vec<String>, ResponseError>
        ensures noticed { IfOk result (λ _. self.new ≡ spec.state_behind self.old method (view params)) }
        ensures told { IfOk result (λ texts. map string_bytes texts.items
            ≡ spec.told_in_phase self.old.phase method (view params)) }
        ensures state { OnErr result (IsSameButDocuments self.old self.new) }
    {
        match (method, self.phase) {
            (NotificationMethod::Exit, _) => {
                self.leave();
                Ok(Vec::new(alloc))
            }
            (NotificationMethod::Other, _) => Ok(Vec::new(alloc)),
            (_, Phase::Running) => self.notice_documents(alloc, method, params),
            _ => Ok(Vec::new(alloc)),
        }
    }

    /// Closes all documents: a change of one may be lost.
    fn close_all(&mut self)
        ensures { self.new ≡ spec.without_documents self.old }
    {
        self.documents.clear();
        self.untold.clear();
    }

    /// Closes all documents, and tells the user.
    fn forget(&mut self) -> Answer
        ensures { spec.IsLost self.old self.new (answer_texts result) }
    {
        self.close_all();
        Answer::Fixed(LOST)
    }

    /// Answers a request.
    fn answer_request(&mut self, alloc: Global, id: Value, method: &str, params: Value) -> Answer
        requires { has_float (view id) ≡ false }
        ensures { spec.IsResponse self.old (view id) (request_method method.now) (view params) self.new
            (answer_texts result) }
    {
        let outcome = self.respond(alloc, request_method(method), params);
        response(alloc, id, outcome)
    }

    /// Takes a notification.
    fn take_notification(&mut self, alloc: Global, method: &str, params: Value) -> Answer
        ensures { let step = spec.IsMessageStep self.old (notification method.now (view params)) in
            step self.new (answer_texts result) }
    {
        match self.notice(alloc, notification_method(method), params) {
            Ok(texts) => Answer::Several(texts),
            Err(_) => self.forget(),
        }
    }

    /// Answers what a value is as a message.
    fn answer_value(&mut self, alloc: Global, value: Value) -> Answer
        ensures { spec.IsMessageStep self.old (incoming (view value)) self.new (answer_texts result) }
    {
        match message_of(value) {
            Incoming::Request { id, method, params } => {
                self.answer_request(alloc, id, &method, params)
            }
            Incoming::Notification { method, params } => {
                self.take_notification(alloc, &method, params)
            }
            Incoming::Response => Answer::Several(Vec::new(alloc)),
            Incoming::NoMessage => refusal_of(alloc, ResponseError::InvalidRequest),
        }
    }

    /// Answers bytes.
    fn answer_bytes(&mut self, alloc: Global, bytes: &[u8]) -> Answer
        ensures { spec.AnswersBytes bytes.now self.old self.new (answer_texts result) }
    {
        match Value::from_slice(alloc, bytes) {
            Ok(value) => self.answer_value(alloc, value),
            Err(error) if error.is_memory() => self.forget(),
            Err(_) => {
                self.close_all();
                refusal_of(alloc, ResponseError::NotJson)
            }
        }
    }
}

impl Service for Server {
    ghost use Rattle.lsp.specs.Servers.{server_conduct};

    ghost conduct = { server_conduct };

    fn answer(&mut self, alloc: Global, message: Message) -> Answer {
        match message {
            Message::Whole(mut bytes) => {
                mend(&mut bytes);
                self.answer_bytes(alloc, &bytes)
            }
            Message::TooLong | Message::OutOfMemory => self.forget(),
        }
    }

    fn rest(&mut self, alloc: Global) -> Answer {
        if self.untold.is_empty() {
            return Answer::Several(Vec::new(alloc));
        }
        let uri = self.untold.remove(0);
        match self.notice_of(alloc, &uri) {
            Ok(text) => Answer::Made(text),
            Err(_) => Answer::Fixed(UNTOLD),
        }
    }

    fn is_rested(&self) -> bool {
        self.untold.is_empty()
    }

    fn is_over(&self) -> bool {
        self.end().is_some()
    }
}
