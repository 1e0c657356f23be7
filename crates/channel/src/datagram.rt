// A datagram as it is held: whole, but for the side that it comes from.
ghost use Rattle.std.specs.Prelude.{◌≡◌, ◌<◌, ◌≤◌, [], length, drop, MatchResult};
ghost use Rattle.channel.specs.Packet.{body, holds, in_front};

use terms::refusal::Refusal;
use terms::short_bytes::ShortBytes;

// The most bytes of a datagram.
pub const DATAGRAM_MAX: usize = 1472;

#[derive(Clone, Copy)]
pub struct Datagram {
    source: u16,
    target: u16,
    bytes: ShortBytes<DATAGRAM_MAX>,
}

// What is said of a datagram besides its bytes.
#[derive(Clone, Copy, PartialEq, Eq, Debug)]
pub struct Header {
    pub source: u16,
    pub target: u16,
    pub len: usize,
}

impl Datagram {
    // A datagram of no bytes, to fill memory with.
    pub fn empty() -> Datagram
        ensures { holds result ≡ body 0 0 [] }
    {
        Datagram {
            source: 0,
            target: 0,
            bytes: ShortBytes::empty(),
        }
    }

    pub fn new(source: u16, target: u16, bytes: &[u8]) -> Result<Datagram, Refusal>
        ensures { MatchResult result (λ d. (length bytes.now ≤ 1472) × (holds d ≡ body source target bytes.now)) (λ e. (1472 < length bytes.now) × (e ≡ Refusal.Malformed)) }
    {
        let bytes = ShortBytes::from_slice(bytes).or(Err(Refusal::Malformed))?;
        Ok(Datagram {
            source,
            target,
            bytes,
        })
    }

    // Writes the bytes to the front of a buffer of the most bytes that any datagram has, and answers what else is said of them.
    pub fn write_to(&self, buf: &mut [u8; DATAGRAM_MAX]) -> Header
        ensures front { in_front result buf.new ≡ holds self.now }
        ensures fits { result.len ≤ 1472 }
        ensures whole { length buf.new ≡ 1472 }
        ensures rest { drop result.len buf.new ≡ drop result.len buf.old }
    {
        let bytes = self.bytes.as_slice();
        let len = bytes.len();
        buf[..len].copy_from_slice(bytes);
        Header {
            source: self.source,
            target: self.target,
            len,
        }
    }
}
