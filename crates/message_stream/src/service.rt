//! What answers messages.
use crate::message::Message;
use std::alloc::Global;

/// The texts of an answer.
#[derive(Debug, Drop)]
pub enum Answer {
    /// A text that was made.
    Made(String),
    /// A fixed text, for which no memory is wanted.
    Fixed(&'static str),
    /// So many texts, of which there may be none.
    Several(Vec<String>),
}

/// What answers the messages of a conversation.
pub trait Service {
    ghost use Rattle.std.specs.Prelude.{◌≡◌};
    ghost use Rattle.message_stream.specs.Answers.{Conduct, answer_texts};
    ghost use Rattle.message_stream.specs.Messages.{message_told};

    // What the service does.
    ghost conduct: { Conduct Self };

    /// Answers a message.
    ///
    /// Each text is to be a message of the framing: over lines it has no line feed. Where memory runs out for an
    /// answer, a fixed text can say so.
    fn answer(&mut self, alloc: Global, message: Message) -> Answer
        ensures { conduct.Answers self.old (message_told message) self.new (answer_texts result) };

    /// Tells something that waited for a rest.
    fn rest(&mut self, alloc: Global) -> Answer
        ensures { conduct.Rests self.old self.new (answer_texts result) };

    /// Whether nothing is left to tell at a rest.
    fn is_rested(&self) -> bool
        ensures { result ≡ conduct.is_rested self.now };

    /// Whether the service is over: nothing more is read for it, and it rests no more.
    fn is_over(&self) -> bool
        ensures { result ≡ conduct.is_over self.now };
}
