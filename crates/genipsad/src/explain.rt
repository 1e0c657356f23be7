// A captured datagram explained in words.
use console::refused::Numbered;
use console::shown::Quoted;
use console::summary::Summary;
use grammar::message::{Access, Message, Request};
use grammar::places::Places;
use option_pairs::pairs::Pairs;
use options::encode::encode_oack;
use options::request::judge_request;
use std::io;
use terms::patience::Patience;
use wire::reading::read;
use wire::writing::write;

// Explains the datagram, writes it again, and says whether the bytes are the same.
pub fn explain_datagram(rt: &HostRuntime, bytes: &[u8]) -> io::Result<()> {
    match read(bytes) {
        Ok(message) => {
            explain_message(rt, message)?;
            write_again(rt, message, bytes)
        }
        Err(why) => println!(rt; "  refused {}", Numbered(why)),
    }
}

fn write_again(rt: &HostRuntime, message: Message<'_>, bytes: &[u8]) -> io::Result<()> {
    // a rule of the project: writing takes no heap, and answers how much of a lent buffer it filled
    let mut work = [0u8; 1472];
    match write(message, &mut work) {
        Ok(end) if work.get(..end) == Some(bytes) => {
            println!(rt; "  written again: the same {end} bytes")
        }
        Ok(end) => println!(rt; "  written again: {end} bytes that differ"),
        Err(why) => println!(rt; "  refused {}", Numbered(why)),
    }
}

fn explain_message(rt: &HostRuntime, message: Message<'_>) -> io::Result<()> {
    match (message, message.places()) {
        (
            Message::Request(request),
            Places::Request {
                name: name_at,
                mode: mode_at,
                pairs: pairs_at,
            },
        ) => {
            explain_access(rt, request.access)?;
            println!(rt; "  name {} at {name_at}", Quoted(request.name))?;
            println!(rt; "  mode {} at {mode_at}", Quoted(request.mode))?;
            explain_pairs(rt, request.pairs, pairs_at)?;
            explain_service(rt, request)
        }
        (Message::Data { block, bytes }, Places::Data { bytes: at }) => {
            println!(rt;
                "  DATA block {block}, {} bytes of data at {at}",
                bytes.len()
            )
        }
        (Message::Ack { block }, _) => println!(rt; "  ACK block {block}"),
        (
            Message::Error {
                code,
                message: text,
            },
            Places::Error { message: at },
        ) => println!(rt; "  ERROR code {code}, message {} at {at}", Quoted(text)),
        (Message::Oack { pairs }, Places::Oack { pairs: at }) => {
            println!(rt; "  OACK, the answer to the options of a request")?;
            explain_pairs(rt, pairs, at)
        }
        _ => unreachable!(),
    }
}

fn explain_access(rt: &HostRuntime, access: Access) -> io::Result<()> {
    match access {
        Access::Read => println!(rt; "  RRQ, a request to read an item"),
        Access::Write => println!(rt; "  WRQ, a request to write an item"),
    }
}

// Each option pair, with the places of its name and value.
fn explain_pairs(rt: &HostRuntime, pairs: &[u8], at: usize) -> io::Result<()> {
    let mut name_at = at;
    for pair in Pairs(pairs) {
        let value_at = name_at.saturating_add(pair.name.len()).saturating_add(1);
        println!(rt;
            "  option {} at {name_at}, value {} at {value_at}",
            Quoted(pair.name),
            Quoted(pair.value)
        )?;
        name_at = value_at.saturating_add(pair.value.len()).saturating_add(1);
    }
    Ok(())
}

// What a cabin of standard patience would make of the request.
fn explain_service(rt: &HostRuntime, request: Request<'_>) -> io::Result<()> {
    let offer = judge_request(request, Patience::standard());
    match offer.map(|offer| encode_oack(offer.answer)) {
        Ok(Some(oack)) => {
            let pairs = oack.as_slice();
            println!(rt; "  the cabin answers {}", Summary(Message::Oack { pairs }))
        }
        Ok(None) => println!(rt; "  the cabin answers without an OACK"),
        Err(why) => println!(rt; "  the cabin refuses it: {}", Numbered(why)),
    }
}
