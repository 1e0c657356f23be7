// Option pairs: a name and a value each.
ghost use Rattle.std.specs.Prelude.{Decides};
ghost use Rattle.grammar.specs.Grammar.{Paired};

// Where in an option pair the next byte stands.
#[derive(Clone, Copy)]
enum Part {
    // at the first byte of a name, or past the last pair
    Start,
    // in a name, past its first byte
    Name,
    Value,
}

// Whether the bytes are option pairs, none or some.
//
//   n bytes    1 byte    m bytes    1 byte
//  +---------+--------+----------+--------+----
//  |  name   |   0    |  value   |   0    | ..      n is not 0
//  +---------+--------+----------+--------+----
pub fn is_paired(bytes: &[u8]) -> bool
    ensures { Decides result (Paired bytes.now) }
{
    let mut part = Part::Start;
    for b in bytes {
        part = match (part, *b) {
            (Part::Start, 0) => return false,
            (Part::Name, 0) => Part::Value,
            (Part::Value, 0) => Part::Start,
            (Part::Value, _) => Part::Value,
            _ => Part::Name,
        };
    }
    matches!(part, Part::Start)
}
