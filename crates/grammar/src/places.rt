// Where the parts of a message stand in its datagram.
ghost use Rattle.std.specs.Prelude.{◌≡◌};
ghost use Rattle.grammar.specs.Meaning.{meaning};
ghost use Rattle.grammar.specs.Parts.{placed};

use crate::message::Message;

// The place of each part, in bytes from the front.
#[derive(Clone, Copy, PartialEq, Eq, Debug)]
pub enum Places {
    Request {
        name: usize,
        mode: usize,
        pairs: usize,
    },
    Data {
        bytes: usize,
    },
    Ack,
    Error {
        message: usize,
    },
    Oack {
        pairs: usize,
    },
}

impl<'a> Message<'a> {
    // The place of each part. A sum past the largest number stops there; that of a legal message is far below.
    pub fn places(self) -> Places
        ensures { result ≡ placed (meaning self.entry) }
    {
        match self {
            Message::Request(request) => Places::Request {
                name: 2,
                mode: 3 + request.name.len(),
                pairs: (4 + request.name.len()).saturating_add(request.mode.len()),
            },
            Message::Data { .. } => Places::Data { bytes: 4 },
            Message::Ack { .. } => Places::Ack,
            Message::Error { .. } => Places::Error { message: 4 },
            Message::Oack { .. } => Places::Oack { pairs: 2 },
        }
    }
}
