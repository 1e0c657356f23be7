// Datagrams: what reading, writing and the cabin make of them.
ghost use Rattle.std.specs.Prelude.{◌≡◌, ◌+◌, IfOk, vec_len};

use crate::example::Case;
use crate::outcome::{Outcome, compare};
use console::filling::fill_bytes;
use console::summary::Summary;
use grammar::message::Message;
use options::encode::encode_oack;
use options::offer::Offer;
use options::request::judge_request;
use std::alloc::{AllocError, Global};
use std::{fmt, io};
use terms::patience::Patience;
use wire::reading::read;
use wire::writing::write;

// A datagram as it stands.
#[derive(Clone, Copy, Debug)]
pub struct Datagram {
    pub bytes: &'static [u8],
    // what the cabin answers; none where the datagram is no request
    pub service: Option<&'static str>,
}

// A DATA datagram, by the length of its data.
#[derive(Clone, Copy, Debug)]
pub struct Block {
    pub number: u16,
    pub len: usize,
}

impl Case for Datagram {
    fn judge(&self, rt: &HostRuntime, words: &str) -> io::Result<bool> {
        judge_datagram(rt, self.bytes, words, self.service)
    }
}

impl Case for Block {
    fn judge(&self, rt: &HostRuntime, words: &str) -> io::Result<bool> {
        let datagram = data_datagram(rt.alloc(), *self)?;
        judge_datagram(rt, datagram.as_slice(), words, None)
    }
}

fn data_datagram(heap: Global, block: Block) -> Result<Vec<u8>, AllocError>
    ensures { IfOk result (λ v. vec_len v ≡ 4 + block.len) }
{
    let [high, low] = block.number.to_be_bytes();
    let mut datagram = vec![in heap; 0, 3, high, low]?;
    datagram.extend_from_slice(fill_bytes(heap, block.len)?.as_slice())?;
    Ok(datagram)
}

// Reads the datagram, writes it again, and asks the cabin.
fn judge_datagram(
    rt: &HostRuntime,
    datagram: &[u8],
    words: &str,
    service: Option<&str>,
) -> io::Result<bool> {
    let message = read(datagram);
    let is_read = compare(rt, "read", Outcome(message.map(Summary)), words)?;
    let is_same = match message {
        Ok(message) => judge_writing(rt, message, datagram)?,
        Err(_) => true,
    };
    let is_served = judge_service(rt, message.ok(), service)?;
    Ok(is_read && is_same && is_served)
}

// Whether the message is written to the bytes that it was read from.
fn judge_writing(rt: &HostRuntime, message: Message<'_>, datagram: &[u8]) -> io::Result<bool> {
    // a rule of the project: writing takes no heap, and answers how much of a lent buffer it filled
    let mut work = [0u8; 1472];
    let end = write(message, &mut work);
    let is_same = end.is_ok_and(|end| work.get(..end) == Some(datagram));
    let came = if is_same {
        "the same bytes"
    } else {
        "other bytes"
    };
    compare(rt, "written again", came, "the same bytes")
}

// What the cabin answers to a request that it serves.
#[derive(Clone, Copy)]
struct Answer(Offer);

impl fmt::Display for Answer {
    fn fmt<W: fmt::Write>(&self, f: &mut fmt::Formatter<W>) -> fmt::Result {
        match encode_oack(self.0.answer) {
            Some(oack) => {
                let pairs = oack.as_slice();
                write!(f, "{}", Summary(Message::Oack { pairs }))
            }
            None => write!(f, "no OACK"),
        }
    }
}

// Whether a cabin of standard patience answers what it should; only a request is asked of it.
fn judge_service(
    rt: &HostRuntime,
    message: Option<Message<'_>>,
    expected: Option<&str>,
) -> io::Result<bool> {
    match (message, expected) {
        (Some(Message::Request(request)), _) => {
            let offer = judge_request(request, Patience::standard());
            compare(
                rt,
                "cabin",
                Outcome(offer.map(Answer)),
                expected.unwrap_or("not asked"),
            )
        }
        (_, Some(expected)) => compare(rt, "cabin", "not asked", expected),
        (_, None) => Ok(true),
    }
}
