//! What no clause says: what a service tells at rests, read by read, and what becomes of failures then.
use crate::streams::Feeds;
use message_stream::{Answer, Lines, Message, Service, serve};
use std::alloc::Global;
use std::io::{self, BufReader, Read};
use std::test::Fail;

// Answers no message, and tells a note of each that it took at a rest.
#[derive(Drop)]
pub(crate) struct Notes {
    pub(crate) left: u32,
}

impl Service for Notes {
    ghost use Rattle.std.specs.Prelude.{◌≡◌, ◌≤◌, [], false, nat_eq};

    ghost conduct = { record {
      Answers = λ _ _ _ texts. texts ≡ [];
      Rests = λ old new _. new.left ≤ old.left;
      is_rested = λ notes. nat_eq notes.left 0;
      is_over = λ _. false;
    } };

    fn answer(&mut self, alloc: Global, _message: Message) -> Answer {
        self.left = self.left.saturating_add(1);
        Answer::Several(Vec::new(alloc))
    }

    fn rest(&mut self, alloc: Global) -> Answer {
        if self.left == 0 {
            return Answer::Several(Vec::new(alloc));
        }
        self.left -= 1;
        Answer::Fixed("note")
    }

    fn is_rested(&self) -> bool {
        self.left == 0
    }

    fn is_over(&self) -> bool {
        false
    }
}

#[test]
fn rests_when_memory_is_refused(rt: HostRuntime) -> Result<(), Fail> {
    let alloc = rt.alloc();
    let Ok(mut input) = BufReader::new(alloc, "one\ntwo\n".as_bytes()) else {
        return Ok(());
    };
    let mut notes = Notes { left: 0 };
    let mut feeds = Feeds { count: 0 };
    let served = serve(alloc, &Lines, &mut input, &mut feeds, &mut notes);
    assert!(rt; served.is_ok());
    assert_eq!(rt; (feeds.count, notes.left), (2, 0));
    Ok(())
}
