//! What holds of messages, and of the errors: `==` decides whether two are one, and a copy is its source. The functions
//! do nothing.
ghost use Rattle.std.specs.Prelude.{◌≡◌, ◌<◌, ◌++◌, ◌*◌, ◌-◌, ◌^◌, ℕ, List, Option, Some, true, Decides, length, map};
ghost use Rattle.message_stream.specs.Headers.{IsHeaded, with_header};
ghost use Rattle.message_stream.specs.Lines.{line_frames, lines as lines_of};
ghost use Rattle.message_stream.specs.Served.{Turn, Intake, IsServed, messages_of, took};

use crate::conversation::MOST_TURNS;
use crate::error::StreamError;
use crate::framing::Framing;
use crate::lines::MOST_READS;
use crate::message::MOST_MESSAGE;
use crate::sections::{MOST_FIELDS, MOST_HEADER};
use crate::service::Service;
use crate::write::MOST_WRITES;

// The longest message has 64 MiB, and the longest header 8 KiB. So many turns, reads of a message and writes of a text
// are made at most.
fn limits()
    ensures message { MOST_MESSAGE ≡ 64 * 2 ^ 20 }
    ensures header { MOST_HEADER ≡ 8 * 2 ^ 10 }
    ensures fields { MOST_FIELDS ≡ 32 }
    ensures turns { MOST_TURNS ≡ 2 ^ 64 - 1 }
    ensures reads { MOST_READS ≡ 2 ^ 64 - 1 }
    ensures writes { MOST_WRITES ≡ 2 ^ 64 - 1 }
{}

fn errors()
    ensures equal { (a b : StreamError) → Decides (⟦<StreamError as PartialEq>⟧.eq a b) (a ≡ b) }
    ensures copied { (source copy : StreamError) → ⟦<StreamError as Clone>⟧.is_clone source copy
        → copy ≡ source }
{}

// Of known bytes the lines are those that were taken, and then the lines of what is left.
fn lines<S: Service, I>()
    ensures { (left : I → Option (List ℕ)) (waiting : I → List ℕ) (old new : S) (from to : Intake I)
        (turns : List Turn) (text all : List ℕ)
        → IsServed line_frames S.conduct left waiting old from turns new to text → left from.reader ≡ Some all
        → (rest : List ℕ) × (left to.reader ≡ Some rest) × (lines_of all ≡ messages_of turns ++ lines_of rest) }
{}

// Bytes begin with one message behind a header at most, whatever follows it, and a text behind its header is one.
fn headers()
    ensures one { (one other message said rest more : List ℕ) → IsHeaded one message
        → IsHeaded other said → one ++ rest ≡ other ++ more → (one ≡ other) × (message ≡ said) }
    ensures written { (text : List ℕ) → length text < 2 ^ 64 → IsHeaded (with_header text) text }
{}

// A service that never has anything to tell at a rest never rests: its turns are its messages.
fn still<F: Framing, S: Service, I>()
    ensures taken { (messages : List (List ℕ)) → messages_of (map took messages) ≡ messages }
    ensures joined { (first more : List Turn) → messages_of (first ++ more) ≡ messages_of first ++ messages_of more }
    ensures never { (left : I → Option (List ℕ)) (waiting : I → List ℕ) (old new : S) (from to : Intake I)
        (turns : List Turn) (text : List ℕ) → ((s : S) → S.conduct.is_rested s ≡ true)
        → IsServed F.frames S.conduct left waiting old from turns new to text
        → map took (messages_of turns) ≡ turns }
{}
