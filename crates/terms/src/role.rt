// What a transfer does with the item: it sends it or receives it.
ghost use Rattle.std.specs.Prelude.{◌≡◌, Some};
ghost use Rattle.terms.specs.Phases.{role_word};

use std::fmt;

#[derive(Clone, Copy, PartialEq, Eq, Debug)]
pub enum Role {
    Sender,
    Receiver,
}

impl Role {
    // The word that reports use. A trait for words is no plainer: no code is generic over them.
    pub fn word(self) -> &'static str
        ensures { result.now ≡ role_word self }
    {
        match self {
            Role::Sender => "sender",
            Role::Receiver => "receiver",
        }
    }
}

// The word.
impl fmt::Display for Role {
    ghost output = { λ x. Some (role_word x) };

    fn fmt<W: fmt::Write>(&self, f: &mut fmt::Formatter<W>) -> fmt::Result {
        f.write_str(self.word())
    }
}
