// Refusals as a program shows them.
use std::fmt;
use terms::refusal::Refusal;

// A refusal with its number before it.
#[derive(Clone, Copy, PartialEq, Eq, Debug)]
pub struct Numbered(pub Refusal);

impl fmt::Display for Numbered {
    fn fmt<W: fmt::Write>(&self, f: &mut fmt::Formatter<W>) -> fmt::Result {
        write!(f, "{} {}", self.0.number(), self.0)
    }
}
