// Writing: the datagram of a message.
ghost use Rattle.std.specs.Prelude.{◌≡◌, ℕ, ◌+◌, ◌<◌, ◌≤◌, List, [], ◌∷◌, ◌++◌, length, drop, Decides};
ghost use Rattle.grammar.specs.Grammar.{encoded, kind, code, wide, Asks, Legal};
ghost use Rattle.grammar.specs.Meaning.{meaning};
ghost use Rattle.wire.specs.Codec.{Writes};

use grammar::message::{Access, Message, Request};
use grammar::pairs::is_paired;
use grammar::text::is_text;
use terms::refusal::Refusal;

// Writes a part at its place, and answers where it ends. What was written before it stays, and so does what lies past it.
fn put(buf: &mut [u8], at: usize, part: &[u8]) -> usize
    requires { at + length part.now ≤ length buf.old }
    ensures end { result ≡ at + length part.now }
    ensures whole { (front old : List ℕ) → length front ≡ at → buf.old ≡ front ++ drop at old → buf.new ≡ (front ++ part.now) ++ drop result old }
{
    let end = at + part.len();
    buf[at..end].copy_from_slice(part);
    end
}

// Writes a text and the zero byte that ends it.
fn put_text(buf: &mut [u8], at: usize, text: &[u8]) -> usize
    requires { at + length text.now < length buf.old }
    ensures end { result ≡ at + length text.now + 1 }
    ensures whole { (front old : List ℕ) → length front ≡ at → buf.old ≡ front ++ drop at old → buf.new ≡ (front ++ (text.now ++ 0 ∷ [])) ++ drop result old }
{
    let at = put(buf, at, text);
    put(buf, at, &[0])
}

// Writes a number's two bytes, high byte first.
fn put_number(buf: &mut [u8], at: usize, n: u16) -> usize
    requires { at + 2 ≤ length buf.old }
    ensures end { result ≡ at + 2 }
    ensures whole { (front old : List ℕ) → length front ≡ at → buf.old ≡ front ++ drop at old → buf.new ≡ (front ++ wide n []) ++ drop result old }
{
    put(buf, at, &n.to_be_bytes())
}

// Whether the parts are those of a legal request: 512 bytes at most, with the opcode and two zero bytes.
fn is_request(request: Request<'_>) -> bool
    ensures { Decides result (Asks request.entry.name.now request.entry.mode.now request.entry.pairs.now) }
{
    let Request {
        name,
        mode,
        pairs,
        ..
    } = request;
    let texts = name.len() + mode.len();
    texts <= 508 && pairs.len() <= 508 - texts && is_text(name) && is_text(mode) && is_paired(pairs)
}

// Whether the message is of a legal shape.
fn is_legal(message: Message<'_>) -> bool
    ensures { Decides result (Legal (meaning message.entry)) }
{
    match message {
        Message::Request(request) => is_request(request),
        Message::Data { bytes, .. } => bytes.len() <= 1468,
        Message::Ack { .. } => true,
        Message::Error { message, .. } => message.len() <= 128 && is_text(message),
        Message::Oack { pairs } => pairs.len() <= 510 && is_paired(pairs),
    }
}

// The first two bytes of a message.
fn opcode(message: Message<'_>) -> &'static [u8]
    ensures { result.now ≡ 0 ∷ code (kind (meaning message.entry)) ∷ [] }
{
    match message {
        Message::Request(request) => match request.access {
            Access::Read => &[0, 1],
            Access::Write => &[0, 2],
        },
        Message::Data { .. } => &[0, 3],
        Message::Ack { .. } => &[0, 4],
        Message::Error { .. } => &[0, 5],
        Message::Oack { .. } => &[0, 6],
    }
}

// Writes a legal message, and answers where it ends.
fn encode(message: Message<'_>, buf: &mut [u8]) -> usize
    requires { (1472 ≤ length buf.old) × (Legal (meaning message)) }
    ensures end { result ≡ length (encoded (meaning message.entry)) }
    ensures whole { buf.new ≡ encoded (meaning message.entry) ++ drop result buf.old }
{
    let at = put(buf, 0, opcode(message));
    match message {
        Message::Request(request) => {
            let at = put_text(buf, at, request.name);
            let at = put_text(buf, at, request.mode);
            put(buf, at, request.pairs)
        }
        Message::Data { block, bytes } => {
            let at = put_number(buf, at, block);
            put(buf, at, bytes)
        }
        Message::Ack { block } => put_number(buf, at, block),
        Message::Error { code, message } => {
            let at = put_number(buf, at, code);
            put_text(buf, at, message)
        }
        Message::Oack { pairs } => put(buf, at, pairs),
    }
}

// Writes the datagram of a message at the front of the buffer, and answers its length.
// The buffer is short under 1,472 bytes, the length of the longest datagram; a refusal writes nothing.
pub fn write(message: Message<'_>, buf: &mut [u8]) -> Result<usize, Refusal>
    ensures { Writes (meaning message.entry) buf.old buf.new result }
{
    if buf.len() < 1472 {
        return Err(Refusal::ShortBuffer);
    }
    if !is_legal(message) {
        return Err(Refusal::Malformed);
    }
    Ok(encode(message, buf))
}
