//! What is read of a message.
ghost use Rattle.std.specs.Prelude.{◌<◌, ◌≡◌, length};
ghost use Rattle.message_stream.specs.declared.message.Message.{Message};
ghost use Rattle.message_stream.specs.Inner.{Grows};

/// The longest message in bytes that a service is given: 64 MiB.
pub const MOST_MESSAGE: usize = 67_108_864;

/// What a service is told of a message.
#[derive(Debug, Drop)]
pub enum Message {
    /// Its bytes.
    Whole(Vec<u8>),
    /// It is longer than `MOST_MESSAGE`, and was passed over.
    TooLong,
    /// There was no memory for it, and it was passed over.
    OutOfMemory,
}

impl Message {
    // The message of which these bytes are read too.
    pub(crate) fn with(self, part: &[u8]) -> Message
        ensures grows { Grows self part.now result }
        ensures too_long { self ≡ Message.TooLong → result ≡ Message.TooLong }
        ensures no_memory { self ≡ Message.OutOfMemory → result ≡ Message.OutOfMemory }
    {
        if part.is_empty() {
            return self;
        }
        match self {
            Message::Whole(bytes) => with_part(bytes, part),
            Message::TooLong => Message::TooLong,
            Message::OutOfMemory => Message::OutOfMemory,
        }
    }
}

// The message of these bytes and of a part that is not empty.
fn with_part(mut bytes: Vec<u8>, part: &[u8]) -> Message
    requires { 0 < length part.now }
    ensures { Grows (Message.Whole bytes) part.now result }
{
    if part.len() > MOST_MESSAGE.saturating_sub(bytes.len()) {
        return Message::TooLong;
    }
    match bytes.extend_from_slice(part) {
        Ok(()) => Message::Whole(bytes),
        Err(_) => Message::OutOfMemory,
    }
}
