// The commands of a script, one a line.
use crate::fault::Fault;
use crate::lines::Words;
use console::filling::fill_bytes;
use console::hex::decode_hex;
use option_pairs::number::number;
use std::alloc::Global;
use terms::side::Side;

// The most bytes that a script may have filled in.
const FILL_MAX: u32 = 16_777_216;

// Which store an end is set up with.
#[derive(Clone, Copy, PartialEq, Eq, Debug)]
pub enum Kind {
    Slot,
    Paged,
}

#[derive(Debug, Drop)]
pub enum Command<'a> {
    // read HEX: explain a captured datagram
    Read(Vec<u8>),
    // END slot BYTES, or END paged PAGES
    SetUp {
        side: Side,
        kind: Kind,
        size: usize,
    },
    // lay END NAME HEX, or lay END NAME fill COUNT
    Lay {
        side: Side,
        name: &'a [u8],
        bytes: Vec<u8>,
    },
    Items(Side),
    Show {
        side: Side,
        name: &'a [u8],
    },
}

// The command that a line is; none in a blank line or a comment.
pub fn parse_line(heap: Global, line: &[u8]) -> Result<Option<Command<'_>>, Fault> {
    let mut words = Words(line);
    let command = match words.next() {
        None | Some([b'#', ..]) => {
            return Ok(None);
        }
        Some(b"read") => parse_read(heap, words)?,
        Some(b"lay") => parse_lay(heap, words)?,
        Some(b"items") => parse_items(words).ok_or(Fault::Usage("items END"))?,
        Some(b"show") => parse_show(words).ok_or(Fault::Usage("show END NAME"))?,
        Some(word) => {
            let side = parse_side(word).ok_or(Fault::UnknownCommand)?;
            parse_set_up(side, words).ok_or(Fault::Usage("END slot BYTES, or END paged PAGES"))?
        }
    };
    Ok(Some(command))
}

fn parse_side(word: &[u8]) -> Option<Side> {
    [Side::Shield, Side::Cabin]
        .into_iter()
        .find(|side| side.word().as_bytes() == word)
}

// Hexadecimal digits, or a dash for no bytes.
fn parse_hex(heap: Global, digits: &[u8]) -> Result<Vec<u8>, Fault> {
    match digits {
        b"-" => Ok(Vec::new(heap)),
        _ => Ok(decode_hex(heap, digits)?),
    }
}

fn parse_read<'a>(heap: Global, mut operands: Words<'a>) -> Result<Command<'a>, Fault> {
    match (operands.next(), operands.end()) {
        (Some(digits), Some(())) => Ok(Command::Read(parse_hex(heap, digits)?)),
        _ => Err(Fault::Usage("read HEX, with - for no bytes")),
    }
}

fn parse_kind(word: &[u8]) -> Option<Kind> {
    match word {
        b"slot" => Some(Kind::Slot),
        b"paged" => Some(Kind::Paged),
        _ => None,
    }
}

fn parse_set_up<'a>(side: Side, mut operands: Words<'a>) -> Option<Command<'a>> {
    let kind = parse_kind(operands.next()?)?;
    let size = number(operands.next()?)? as usize;
    operands.end()?;
    Some(Command::SetUp { side, kind, size })
}

fn parse_lay<'a>(heap: Global, mut operands: Words<'a>) -> Result<Command<'a>, Fault> {
    let usage = Fault::Usage("lay END NAME HEX, or lay END NAME fill COUNT");
    let side = operands.next().and_then(parse_side).ok_or(usage)?;
    let name = operands.next().ok_or(usage)?;
    let bytes = match operands.next().ok_or(usage)? {
        b"fill" => parse_fill(heap, operands)?,
        digits => {
            operands.end().ok_or(usage)?;
            parse_hex(heap, digits)?
        }
    };
    Ok(Command::Lay { side, name, bytes })
}

// As many bytes as the count says.
fn parse_fill(heap: Global, mut operands: Words<'_>) -> Result<Vec<u8>, Fault> {
    let count = operands
        .next()
        .and_then(number)
        .filter(|count| *count <= FILL_MAX);
    match (count, operands.end()) {
        (Some(count), Some(())) => Ok(fill_bytes(heap, count as usize)?),
        _ => Err(Fault::Usage("lay END NAME fill COUNT, at most 16777216")),
    }
}

fn parse_items<'a>(mut operands: Words<'a>) -> Option<Command<'a>> {
    let side = parse_side(operands.next()?)?;
    operands.end()?;
    Some(Command::Items(side))
}

fn parse_show<'a>(mut operands: Words<'a>) -> Option<Command<'a>> {
    let side = parse_side(operands.next()?)?;
    let name = operands.next()?;
    operands.end()?;
    Some(Command::Show { side, name })
}
