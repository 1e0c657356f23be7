// The messages that a datagram can be. Texts and pairs are not judged here: reading and writing judge them.
ghost use Rattle.std.specs.Prelude.{◌≡◌};
ghost use Rattle.grammar.specs.Grammar.{ackMsg};
ghost use Rattle.grammar.specs.Meaning.{meaning};

// What a request asks for: to read an item, or to write one.
#[derive(Clone, Copy, PartialEq, Eq, Debug)]
pub enum Access {
    Read,
    Write,
}

// RRQ or WRQ.
#[derive(Clone, Copy, PartialEq, Eq, Debug)]
pub struct Request<'a> {
    pub access: Access,
    pub name: &'a [u8],
    pub mode: &'a [u8],
    // the option pairs
    pub pairs: &'a [u8],
}

#[derive(Clone, Copy, PartialEq, Eq, Debug)]
pub enum Message<'a> {
    Request(Request<'a>),
    Data { block: u16, bytes: &'a [u8] },
    Ack { block: u16 },
    Error { code: u16, message: &'a [u8] },
    Oack { pairs: &'a [u8] },
}

impl<'a> Message<'a> {
    // The acknowledgment of a block.
    pub fn ack(block: u16) -> Message<'a>
        ensures { meaning result ≡ ackMsg block }
    {
        Message::Ack { block }
    }
}
