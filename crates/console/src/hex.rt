// Bytes as hexadecimal digits, two to a byte.
ghost use Rattle.std.specs.Prelude.{◌≡◌};
ghost use Rattle.console.specs.declared.hex.HexFault.TheVariants.{NoMemory};
ghost use Rattle.console.specs.Hex.{Decodes, byte_value, digit_value};

use std::alloc::{AllocError, AllocFailed, Global};
use thiserror::Error;

// Why a text is not bytes in hexadecimal digits.
#[derive(Clone, Copy, PartialEq, Eq, Debug, Error)]
pub enum HexFault {
    #[error("odd number of hex digits")]
    OddLength,
    // the place of the first of the two characters, counted from 0
    #[error("no hex digit at or after character {} of the hex", .0.saturating_add(1))]
    NotADigit(usize),
    #[error("no memory for the bytes")]
    NoMemory,
}

// By hand, with `from_gives`: tried without it, as a derive writes them, and the proof of `decode_hex` did not close.
impl From<AllocError> for HexFault {
    ghost from_gives = { λ _ r. r ≡ NoMemory };

    fn from(_e: AllocError) -> HexFault {
        HexFault::NoMemory
    }
}

impl<T: Drop> From<AllocFailed<T>> for HexFault {
    ghost from_gives = { λ _ r. r ≡ NoMemory };

    fn from(_e: AllocFailed<T>) -> HexFault {
        HexFault::NoMemory
    }
}

// The value of a hexadecimal digit, in either case.
pub fn hex_digit(digit: u8) -> Option<u8>
    ensures { result ≡ digit_value digit }
{
    match digit {
        b'0'..=b'9' => Some(digit - b'0'),
        b'a'..=b'f' => Some(digit - b'a' + 10),
        b'A'..=b'F' => Some(digit - b'A' + 10),
        _ => None,
    }
}

fn hex_byte(high: u8, low: u8) -> Option<u8>
    ensures { result ≡ byte_value high low }
{
    Some(hex_digit(high)? * 16 + hex_digit(low)?)
}

// The bytes that the digits stand for.
pub fn decode_hex(heap: Global, digits: &[u8]) -> Result<Vec<u8>, HexFault>
    ensures { Decodes digits.now result }
{
    let mut bytes = Vec::new(heap);
    for (i, pair) in digits.chunks(2).enumerate() {
        let [high, low] = pair else {
            return Err(HexFault::OddLength);
        };
        bytes.push(hex_byte(*high, *low).ok_or(HexFault::NotADigit(2 * i))?)?;
    }
    Ok(bytes)
}
