// Texts: bytes of which none is zero, ended by a zero byte.
ghost use Rattle.std.specs.Prelude.{Decides, MatchOption};
ghost use Rattle.grammar.specs.Grammar.{Text};
ghost use Rattle.grammar.specs.Meaning.{Cut};

// The bytes before the first zero byte, and those after it.
//
//   n bytes    1 byte
//  +---------+--------+---------
//  |  text   |   0    |  rest ..
//  +---------+--------+---------
pub fn cut(bytes: &[u8]) -> Option<(&[u8], &[u8])>
    ensures { MatchOption result (Text bytes.now) (λ p. Cut p.0.now p.1.now bytes.now) }
{
    let end = bytes.iter().position(|b| *b == 0)?;
    Some((&bytes[..end], &bytes[end + 1..]))
}

// Whether no byte is zero.
pub fn is_text(bytes: &[u8]) -> bool
    ensures { Decides result (Text bytes.now) }
{
    !bytes.contains(&0)
}
