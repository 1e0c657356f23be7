// A datagram in one line of words, as `WRQ pipe-0412 octet blksize=1468` or `DATA 3 1468`.
use crate::shown::Shown;
use grammar::message::{Access, Message};
use option_pairs::pairs::Pairs;
use std::fmt;

#[derive(Clone, Copy)]
pub struct Summary<'a>(pub Message<'a>);

fn show_pairs<W: fmt::Write>(pairs: &[u8], f: &mut fmt::Formatter<W>) -> fmt::Result {
    for pair in Pairs(pairs) {
        write!(f, " {}={}", Shown(pair.name), Shown(pair.value))?;
    }
    Ok(())
}

// The word for the opcode of a request.
fn opcode_word(access: Access) -> &'static str {
    match access {
        Access::Read => "RRQ",
        Access::Write => "WRQ",
    }
}

impl fmt::Display for Summary<'_> {
    fn fmt<W: fmt::Write>(&self, f: &mut fmt::Formatter<W>) -> fmt::Result {
        match self.0 {
            Message::Request(request) => {
                write!(
                    f,
                    "{} {} {}",
                    opcode_word(request.access),
                    Shown(request.name),
                    Shown(request.mode)
                )?;
                show_pairs(request.pairs, f)
            }
            Message::Data { block, bytes } => write!(f, "DATA {block} {}", bytes.len()),
            Message::Ack { block } => write!(f, "ACK {block}"),
            Message::Error { code, message } if message.is_empty() => write!(f, "ERROR {code}"),
            Message::Error { code, message } => write!(f, "ERROR {code} {}", Shown(message)),
            Message::Oack { pairs } => {
                write!(f, "OACK")?;
                show_pairs(pairs, f)
            }
        }
    }
}
