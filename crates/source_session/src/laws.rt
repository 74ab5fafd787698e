//! What holds of whole conversations, of answers and of sizes. The functions do nothing.
ghost use Rattle.std.specs.Prelude.{ℕ, List, Option, None, Some, length};
ghost use Rattle.message_stream.specs.Lines.{HasNoFeed, line_frames};
ghost use Rattle.message_stream.specs.Messages.{Told};
ghost use Rattle.message_stream.specs.Served.{Turn, Intake, IsServed, messages_of};
ghost use Rattle.item_tree.specs.declared.fault.EditFault.{EditFault};
ghost use Rattle.item_tree_request.specs.Outputs.{NonePasses, PassesAt};
ghost use Rattle.source_session.specs.Histories.{IsLedByAnswers, IsLedOnByAnswers};
ghost use Rattle.source_session.specs.Replies.{Open, Replies, session_conduct};
ghost use Rattle.text_session.specs.Edits.{TextEdit};
ghost use Rattle.text_session.specs.Sessions.{IsEdited, IsRefused, Session};

// A conversation, whatever its lines, is where the edits lead that stand by its answers: a new one, and one over an
// open session.
fn conversations<I>()
    ensures led { (left : I → Option (List ℕ)) (waiting : I → List ℕ) (new : Open) (from to : Intake I)
        (turns : List Turn) (text : List ℕ)
        → IsServed line_frames session_conduct left waiting None from turns new to text
        → IsLedByAnswers (messages_of turns) text new }
    ensures led_on { (left : I → Option (List ℕ)) (waiting : I → List ℕ) (s : Session) (new : Open) (from to : Intake I)
        (turns : List Turn) (text : List ℕ)
        → IsServed line_frames session_conduct left waiting (Some s) from turns new to text
        → IsLedOnByAnswers s (messages_of turns) text new }
{}

// An answer is one line.
fn answers()
    ensures { (old new : Open) (told : Told) (text : List ℕ)
        → Replies old told new text → HasNoFeed text }
{}

// What passes a size is what requests tell of: no edit where all are made, and else the first is told.
#[tactic(auto, using(crate::proofs::Sizes::edited_sizes))]
fn sizes()
    ensures edited { (s u : Session) (asked : List TextEdit) (e : IsEdited s asked u)
        → NonePasses s.table e.edits (length e.edits) }
    ensures refused { (s u : Session) (asked : List TextEdit) (place : ℕ) (cause : EditFault)
        (r : IsRefused s asked u place cause)
        → NonePasses s.table r.edits place × PassesAt s.table r.edits place cause }
{}
