// The bytes of the option pairs that an end sends.
ghost use Rattle.std.specs.Prelude.{◌≡◌, ◌+◌, ◌≤◌, ◌++◌, length, IsOk, IfOk, OnOk, MatchOption, ◌≢◌};
ghost use Rattle.terms.specs.Short.{held};
ghost use Rattle.grammar.specs.Grammar.{pairs};
ghost use Rattle.options.specs.Listing.{pair_text, entry, listed, no_options};

use itoa::Buffer;
use option_pairs::values::Options;
use terms::short_bytes::{NoRoom, ShortBytes};

// At most three options have at most 60 bytes.
pub type PairBytes = ShortBytes<64>;

// The pair of an option, where it has a value. In line for speed alone: the length of each word is then known.
#[inline(always)]
fn push_option(out: &mut PairBytes, word: &[u8], value: Option<u32>) -> Result<(), NoRoom>
    ensures ok { OnOk result (pair_text out.new ≡ pair_text out.old ++ pairs (entry word.now value)) }
    ensures room { length (pair_text out.old) + length word.now + 12 ≤ 64 → IsOk result }
    ensures few { OnOk result (length (pair_text out.new) ≤ length (pair_text out.old) + length word.now + 12) }
{
    let Some(n) = value else {
        return Ok(());
    };
    let mut digits = Buffer::new();
    out.extend_from_slice(word)?;
    out.extend_from_slice(&[0])?;
    out.extend_from_slice(digits.format(n).as_bytes())?;
    out.extend_from_slice(&[0])
}

// The pairs of the options that have a value, in the order blksize, timeout, windowsize.
fn list_options(options: Options) -> Result<PairBytes, NoRoom>
    ensures ok { IfOk result (λ b. pair_text b ≡ pairs (listed options)) }
    ensures room { IsOk result }
{
    let mut out = PairBytes::empty();
    push_option(&mut out, b"blksize", options.blksize)?;
    push_option(&mut out, b"timeout", options.timeout)?;
    push_option(&mut out, b"windowsize", options.windowsize)?;
    Ok(out)
}

// The pairs of the options that have a value, in the order blksize, timeout, windowsize.
pub fn encode_options(options: Options) -> PairBytes
    ensures { pair_text result ≡ pairs (listed options) }
{
    list_options(options).unwrap()
}

// The pairs of an OACK, or none where nothing is answered.
pub fn encode_oack(answer: Options) -> Option<PairBytes>
    ensures { MatchOption result (answer ≡ no_options) (λ b. (pair_text b ≡ pairs (listed answer)) × (answer ≢ no_options)) }
{
    if answer == Options::default() {
        return None;
    }
    Some(encode_options(answer))
}
