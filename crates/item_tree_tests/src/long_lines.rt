//! Lines and messages that are longer than a service is handed: unproved, this takes long.
ghost use Rattle.std.specs.Prelude.{◌≡◌};
ghost use Rattle.message_stream.specs.Messages.{Told};

use message_stream::{Answer, Headers, Lines, MOST_MESSAGE, Message, Service, serve};
use std::alloc::Global;
use std::io::{self, BufReader, Read};
use std::test::Fail;

// Answers a line by itself, counts, and is over when it has answered so many.
#[derive(Drop)]
pub(crate) struct Echo {
    pub(crate) answered: u32,
    pub(crate) most: u32,
}

impl Service for Echo {
    ghost use Rattle.std.specs.Prelude.{[], ◌∷◌, codes, nat_eq, true};
    ghost use Rattle.message_stream.specs.Answers.{IsStill};
    ghost use Rattle.message_stream.specs.Messages.{Told};

    ghost conduct = { record {
      Answers = λ _ said _ texts. said ≡ Told.too_long → texts ≡ codes "too long" ∷ [];
      Rests = IsStill;
      is_rested = λ _. true;
      is_over = λ echo. nat_eq echo.answered echo.most;
    } };

    fn answer(&mut self, _alloc: Global, message: Message) -> Answer {
        self.answered = self.answered.saturating_add(1);
        match message {
            Message::Whole(bytes) => match String::from_utf8(bytes) {
                Ok(text) => Answer::Made(text),
                Err(_) => Answer::Fixed("no text"),
            },
            Message::TooLong => Answer::Fixed("too long"),
            Message::OutOfMemory => Answer::Fixed("out of memory"),
        }
    }

    fn rest(&mut self, alloc: Global) -> Answer {
        Answer::Several(Vec::new(alloc))
    }

    fn is_rested(&self) -> bool {
        true
    }

    fn is_over(&self) -> bool {
        self.answered == self.most
    }
}

#[test]
fn passes_over_a_long_line(rt: HostRuntime) -> Result<(), Fail> {
    let alloc = rt.alloc();
    let long = io::repeat(b'x').take(MOST_MESSAGE as u64 + 1);
    let mut input = BufReader::new(alloc, long.chain("\nshort\n".as_bytes()))?;
    let mut echo = Echo {
        answered: 0,
        most: 100,
    };
    let mut written = Vec::new(alloc);
    let served = serve(alloc, &Lines, &mut input, &mut written, &mut echo);
    assert!(rt; served.is_ok());
    assert!(rt; written.as_slice() == "too long\nshort\n".as_bytes());
    Ok(())
}

#[test]
fn passes_over_a_long_message(rt: HostRuntime) -> Result<(), Fail> {
    let alloc = rt.alloc();
    let long = io::repeat(b'x').take(MOST_MESSAGE as u64 + 1);
    let body = "Content-Length: 67108865\r\n\r\n".as_bytes().chain(long);
    let all = body.chain("Content-Length: 5\r\n\r\nshort".as_bytes());
    let mut input = BufReader::new(alloc, all)?;
    let mut echo = Echo {
        answered: 0,
        most: 100,
    };
    let mut written = Vec::new(alloc);
    let served = serve(alloc, &Headers, &mut input, &mut written, &mut echo);
    assert!(rt; served.is_ok());
    assert!(rt;
        written.as_slice()
            == "Content-Length: 8\r\n\r\ntoo longContent-Length: 5\r\n\r\nshort".as_bytes()
    );
    Ok(())
}
