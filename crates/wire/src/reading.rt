// Reading: the message that a datagram is.
ghost use Rattle.std.specs.Prelude.{◌≡◌};
ghost use Rattle.grammar.specs.Grammar.{Msg, encoded, asked, block, ack, fault, oack, Legal};
ghost use Rattle.wire.specs.Codec.{Reads, Takes};
ghost use Rattle.wire.specs.Parts.{Parted};
ghost use Rattle.wire.specs.Laws.{Gives};

use grammar::message::{Access, Message, Request};
use grammar::pairs::is_paired;
use grammar::text::cut;
use terms::refusal::Refusal;

// RRQ or WRQ, 512 bytes at most in all; `rest` follows the opcode.
//
//   2 bytes    n bytes   1 byte   m bytes   1 byte
//  +---------+---------+--------+---------+--------+---------
//  | 1 or 2  |  name   |   0    |  mode   |   0    |  pairs ..
//  +---------+---------+--------+---------+--------+---------
fn read_request(access: Access, rest: &[u8]) -> Result<Message<'_>, Refusal>
    ensures { Takes (asked access) rest.now result }
{
    if rest.len() > 510 {
        return Err(Refusal::Malformed);
    }
    let (name, after) = cut(rest).ok_or(Refusal::Malformed)?;
    let (mode, pairs) = cut(after).ok_or(Refusal::Malformed)?;
    if !is_paired(pairs) {
        return Err(Refusal::Malformed);
    }
    Ok(Message::Request(Request {
        access,
        name,
        mode,
        pairs,
    }))
}

// DATA; `rest` follows the opcode.
//
//   2 bytes     2 bytes    0 to 1,468 bytes
//  +---------+----------+------------------+
//  |    3    |  block   |       data       |
//  +---------+----------+------------------+
fn read_data(rest: &[u8]) -> Result<Message<'_>, Refusal>
    ensures { Takes block rest.now result }
{
    match rest {
        [hi, lo, bytes @ ..] if bytes.len() <= 1468 => Ok(Message::Data {
            block: u16::from_be_bytes([*hi, *lo]),
            bytes,
        }),
        _ => Err(Refusal::Malformed),
    }
}

// ACK; `rest` follows the opcode.
//
//   2 bytes     2 bytes
//  +---------+----------+
//  |    4    |  block   |
//  +---------+----------+
fn read_ack(rest: &[u8]) -> Result<Message<'_>, Refusal>
    ensures { Takes ack rest.now result }
{
    match rest {
        [hi, lo] => Ok(Message::Ack {
            block: u16::from_be_bytes([*hi, *lo]),
        }),
        _ => Err(Refusal::Malformed),
    }
}

// ERROR; `rest` follows the opcode.
//
//   2 bytes    2 bytes    0 to 128 bytes   1 byte
//  +---------+----------+----------------+--------+
//  |    5    |   code   |    message     |   0    |
//  +---------+----------+----------------+--------+
fn read_error(rest: &[u8]) -> Result<Message<'_>, Refusal>
    ensures { Takes fault rest.now result }
{
    let [hi, lo, text @ ..] = rest else {
        return Err(Refusal::Malformed);
    };
    let (message, after) = cut(text).ok_or(Refusal::Malformed)?;
    if after.is_empty() && message.len() <= 128 {
        Ok(Message::Error {
            code: u16::from_be_bytes([*hi, *lo]),
            message,
        })
    } else {
        Err(Refusal::Malformed)
    }
}

// OACK, 512 bytes at most in all; `rest` follows the opcode.
//
//   2 bytes
//  +---------+---------
//  |    6    |  pairs ..
//  +---------+---------
fn read_oack(rest: &[u8]) -> Result<Message<'_>, Refusal>
    ensures { Takes oack rest.now result }
{
    if rest.len() <= 510 && is_paired(rest) {
        Ok(Message::Oack { pairs: rest })
    } else {
        Err(Refusal::Malformed)
    }
}

// Takes the opcode off, and reads the rest by it.
fn parse(bytes: &[u8]) -> Result<Message<'_>, Refusal>
    ensures { Reads bytes.now result }
{
    match bytes {
        [0, 1, rest @ ..] => read_request(Access::Read, rest),
        [0, 2, rest @ ..] => read_request(Access::Write, rest),
        [0, 3, rest @ ..] => read_data(rest),
        [0, 4, rest @ ..] => read_ack(rest),
        [0, 5, rest @ ..] => read_error(rest),
        [0, 6, rest @ ..] => read_oack(rest),
        _ => Err(Refusal::UnknownOpcode),
    }
}

// The message that a datagram is. Whatever legal message has these bytes is the answer,
// and each part of the answer is a part of the datagram.
pub fn read(bytes: &[u8]) -> Result<Message<'_>, Refusal>
    ensures answer { Reads bytes.now result }
    ensures whole { (m : Msg) → Legal m → encoded m ≡ bytes.now → Gives m result }
    ensures parts { Parted bytes.now result }
{
    parse(bytes)
}
