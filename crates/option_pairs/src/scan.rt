// The option pairs of a request or an OACK, gone through byte by byte.
ghost use Rattle.std.specs.Prelude.{◌≡◌, List, MatchOption};
ghost use Rattle.grammar.specs.Grammar.{Pair as PairOf};
ghost use Rattle.option_pairs.specs.Number.{numeral_value};
ghost use Rattle.option_pairs.specs.Pairs.{Are};
ghost use Rattle.option_pairs.specs.Scan.{Fits, Notes, Scans, ScansPairs};
ghost use Rattle.option_pairs.specs.Splits.{as_pair};

use crate::number::number;
use crate::pairs::{Pair, has_name};
use crate::values::{Options, Range, Ranges};
use grammar::pairs::is_paired;
use terms::refusal::Refusal;

// What pairs give: each option's value, and whether every pair is an option with a value in its range. An `Option` is no plainer than the flag: it does
// not say whether the values are there, since the cabin takes what is found whatever the flag says.
#[derive(Clone, Copy, PartialEq, Eq, Debug)]
pub struct Scan {
    pub found: Options,
    pub all_valid: bool,
}

// The number of the pair, where it is the option with this word and its number lies in the range.
fn valid(word: &[u8], range: Range, pair: Pair<'_>) -> Option<u32>
    ensures { MatchOption result (Fits word.now range (as_pair pair.entry) → ⊥) (λ n. Fits word.now range (as_pair pair.entry) × (n ≡ numeral_value pair.entry.value.now)) }
{
    number(pair.value).filter(|n| pair.name.eq_ignore_ascii_case(word) && range.contains(*n))
}

impl Scan {
    // One pair more.
    fn note(self, ranges: Ranges, pair: Pair<'_>) -> Scan
        ensures { Notes ranges self (as_pair pair.entry) result }
    {
        let blksize = valid(b"blksize", ranges.blksize, pair);
        let timeout = valid(b"timeout", ranges.timeout, pair);
        let windowsize = valid(b"windowsize", ranges.windowsize, pair);
        let known = blksize.is_some() || timeout.is_some() || windowsize.is_some();
        Scan {
            found: Options {
                blksize: blksize.or(self.found.blksize),
                timeout: timeout.or(self.found.timeout),
                windowsize: windowsize.or(self.found.windowsize),
            },
            all_valid: self.all_valid && known,
        }
    }
}

// Goes through the bytes of pairs one after the other; none where a name comes twice. A rule of the project wants this loop byte by byte, so it keeps
// its index.
fn scan_pairs(bytes: &[u8], ranges: Ranges) -> Option<Scan>
    ensures { (ps : List PairOf) → Are ps bytes.now → ScansPairs ranges ps result }
{
    let mut scan = Scan {
        found: Options::default(),
        all_valid: true,
    };
    let mut name: Option<&[u8]> = None;
    let mut start = 0;
    for (i, b) in bytes.iter().enumerate() {
        if *b == 0 {
            let part = &bytes[start..i];
            start = i + 1;
            if let Some(n) = name {
                if has_name(n, &bytes[start..]) {
                    return None;
                }
                scan = scan.note(
                    ranges,
                    Pair {
                        name: n,
                        value: part,
                    },
                );
                name = None;
            } else {
                name = Some(part);
            }
        }
    }
    Some(scan)
}

// What the pairs give within the ranges: refused are bytes that are not pairs, and a name that comes twice.
pub fn scan_options(bytes: &[u8], ranges: Ranges) -> Result<Scan, Refusal>
    ensures { Scans ranges bytes.now result }
{
    if !is_paired(bytes) {
        return Err(Refusal::Malformed);
    }
    scan_pairs(bytes, ranges).ok_or(Refusal::RepeatedOption)
}
