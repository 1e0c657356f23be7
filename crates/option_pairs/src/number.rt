// Which option values are numbers.
ghost use Rattle.std.specs.Prelude.{◌≡◌, MatchOption};
ghost use Rattle.option_pairs.specs.Number.{Numeral, numeral_value};

// The number that a value is: 1 to 10 digits, no leading zero except in "0" itself, at most 4,294,967,295.
pub fn number(value: &[u8]) -> Option<u32>
    ensures { MatchOption result (Numeral value.now → ⊥) (λ n. Numeral value.now × (n ≡ numeral_value value.now)) }
{
    if let [] | [b'0', _, ..] = value {
        return None;
    }
    if value.len() > 10 {
        return None;
    }
    // `parse` takes other values too, and `try_fold` is no plainer.
    let mut n: u64 = 0;
    for b in value {
        if *b < b'0' || *b > b'9' {
            return None;
        }
        n = 10 * n + u64::from(*b - b'0');
        if n > 4_294_967_295 {
            return None;
        }
    }
    Some(n as u32)
}
