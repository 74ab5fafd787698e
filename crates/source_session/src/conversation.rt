//! A conversation: requests line by line, over one table.
ghost use Rattle.std.specs.Prelude.{◌≡◌, ◌⊎◌, None, Err, false};
ghost use Rattle.serde_json.specs.Data.{null};
ghost use Rattle.serde_json.specs.View.{view};
ghost use Rattle.serde_json.specs.Written.{has_float};
ghost use Rattle.hir_input_json.specs.Held.{object_held};
ghost use Rattle.message_stream.specs.Messages.{message_told};
ghost use Rattle.source_session.specs.Inner.{IsUnfloating, outcome_view, reply_view};
ghost use Rattle.source_session.specs.LineViews.{asked_view, settings_view, IsOwn};
ghost use Rattle.source_session.specs.Replies.{IsCarriedOut, IsOutcome, IsReply, IsReplyTo, IsValueReply, IsWanting};
ghost use Rattle.source_session.specs.Replies.{asked_of, crate_count, opened_session, reply_number};

use crate::error::LineError;
use crate::keys::Members;
use crate::line::{Asked, Settings, first_line, later_line};
use crate::reply::{Outcome, Reply, reply_text};
use crate::shown::show_all;
use hir_input_json::Fault;
use hir_input_json::float::has_float;
use hir_input_json::member::{members_of, take_member};
use message_stream::{Answer, Message, Service};
use serde_json::Value;
use std::alloc::Global;
use std::marker::Model;
use text_session::Session;

/// A conversation, whose first request opens a session: a table of item trees, which lives as long as it.
pub struct Conversation {
    session: Option<Session>,
}

// (Written out: what is derived is proved anew, field by field, in each crate that drops one.)
impl Drop for Conversation {
    fn drop(self) {
        let Conversation { session: _ } = self;
    }
}

impl Model for Conversation {
    ghost use Rattle.std.specs.Coded.{codes};
    ghost use Rattle.item_tree_db.specs.Codes.{state_code};
    ghost use Rattle.std.specs.Option.{option_map};
    ghost use Rattle.source_session.specs.Replies.{Open};

    ghost Value = { Open };

    ghost coded = { Prim.hlevel (codes, state_code) };

    ghost view = { λ x. option_map (λ s. s.session) x.session };
}

const OUT_OF_MEMORY: &str = "{\"id\":null,\"number\":null,\"error\":{\"kind\":\"out of memory\"}}";

// A line that is refused as a whole.
fn refusal_of(error: LineError) -> Reply
    ensures id { view result.id ≡ null }
    ensures outcome { result.outcome ≡ Err error }
{
    Reply {
        id: Value::Null,
        outcome: Err(error),
    }
}

// Makes the edits that are asked for, and shows what is asked for.
fn perform(alloc: Global, session: &mut Session, asked: Asked) -> Outcome
    requires { IsOwn (crate_count session.old.session) asked }
    ensures done { IsCarriedOut session.old.session (asked_view asked) session.new.session
        (outcome_view result) }
    ensures no_float { IsUnfloating result }
{
    session.edit(alloc, asked.edits)?;
    let values = show_all(alloc, session, &asked.shows)?;
    Ok(values)
}

// The session that a line opens.
fn open_session(alloc: Global, settings: Settings) -> Session
    ensures { result.session ≡ opened_session (settings_view settings) }
{
    let Settings {
        crates,
        skipped,
        edition,
        start,
    } = settings;
    Session::new(alloc, crates, skipped, edition, start)
}

impl Conversation {
    /// A conversation without a session. Takes no memory.
    pub fn new() -> Conversation
        ensures { result ≡ None }
    {
        Conversation { session: None }
    }

    // Does what the first line asks.
    fn open(&mut self, alloc: Global, members: Members) -> Outcome
        requires { self.old ≡ None }
        ensures outcome { IsWanting self.old self.new (outcome_view result)
            ⊎ IsOutcome self.old (asked_of self.old (object_held members)) self.new (outcome_view result) }
        ensures no_float { IsUnfloating result }
    {
        let first = first_line(alloc, members)?;
        let mut session = open_session(alloc, first.settings);
        let outcome = perform(alloc, &mut session, first.asked);
        self.session = Some(session);
        outcome
    }

    // Does what a line asks.
    fn ask(&mut self, alloc: Global, members: Members) -> Outcome
        ensures outcome { IsWanting self.old self.new (outcome_view result)
            ⊎ IsOutcome self.old (asked_of self.old (object_held members)) self.new (outcome_view result) }
        ensures no_float { IsUnfloating result }
    {
        let Some(mut session) = self.session.take() else {
            return self.open(alloc, members);
        };
        let outcome = match later_line(alloc, members, session.crate_count()) {
            Ok(asked) => perform(alloc, &mut session, asked),
            Err(fault) => Err(fault.into()),
        };
        self.session = Some(session);
        outcome
    }

    // Answers an object.
    fn reply_to(&mut self, alloc: Global, mut members: Members) -> Reply
        ensures reply { IsReplyTo self.old (object_held members) self.new (reply_view result) }
        ensures id { has_float (view result.id) ≡ false }
        ensures outcome { IsUnfloating result.outcome }
    {
        let id = take_member(&mut members, "id").unwrap_or(Value::Null);
        if has_float(&id) {
            return refusal_of(Fault::at(alloc, "id").into());
        }
        let outcome = self.ask(alloc, members);
        Reply { id, outcome }
    }

    // Answers a value.
    fn value_reply(&mut self, alloc: Global, value: Value) -> Reply
        ensures reply { IsValueReply self.old (view value) self.new (reply_view result) }
        ensures id { has_float (view result.id) ≡ false }
        ensures outcome { IsUnfloating result.outcome }
    {
        match members_of(alloc, value) {
            Ok(members) => self.reply_to(alloc, members),
            Err(fault) => refusal_of(fault.into()),
        }
    }

    // Answers a line.
    fn reply(&mut self, alloc: Global, line: Message) -> Reply
        ensures reply { IsReply self.old (message_told line) self.new (reply_view result) }
        ensures id { has_float (view result.id) ≡ false }
        ensures outcome { IsUnfloating result.outcome }
    {
        let bytes = match line {
            Message::Whole(bytes) => bytes,
            Message::TooLong => return refusal_of(LineError::TooLong),
            Message::OutOfMemory => return refusal_of(LineError::OutOfMemory),
        };
        match Value::from_slice(alloc, &bytes) {
            Ok(value) => self.value_reply(alloc, value),
            Err(error) if error.is_memory() => refusal_of(LineError::OutOfMemory),
            Err(error) => refusal_of(LineError::NotJson {
                column: error.column(),
            }),
        }
    }

    fn number(&self) -> Option<u64>
        ensures { result ≡ reply_number self.now }
    {
        match &self.session {
            Some(session) => Some(session.number()),
            None => None,
        }
    }
}

impl Service for Conversation {
    ghost use Rattle.source_session.specs.Replies.{session_conduct};

    ghost conduct = { session_conduct };

    fn answer(&mut self, alloc: Global, line: Message) -> Answer {
        let reply = self.reply(alloc, line);
        match reply_text(alloc, reply, self.number()) {
            Ok(text) => Answer::Made(text),
            Err(_) => Answer::Fixed(OUT_OF_MEMORY),
        }
    }

    fn rest(&mut self, alloc: Global) -> Answer {
        Answer::Several(Vec::new(alloc))
    }

    fn is_rested(&self) -> bool {
        true
    }

    fn is_over(&self) -> bool {
        false
    }
}
