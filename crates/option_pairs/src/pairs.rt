// Option pairs, one after the other: name, 0, value, 0.
ghost use Rattle.std.specs.Prelude.{◌≡◌, List, length};
ghost use Rattle.std.specs.Iterator.{at_most};
ghost use Rattle.option_pairs.specs.Pairs.{Are, has_name};
ghost use Rattle.option_pairs.specs.Splits.{Splits, TakesPair};
ghost use Rattle.grammar.specs.Grammar.{Pair as PairOf};

use grammar::text::cut;

#[derive(Clone, Copy, PartialEq, Eq, Debug)]
pub struct Pair<'a> {
    pub name: &'a [u8],
    pub value: &'a [u8],
}

// The first pair and the bytes after it, or none where the bytes do not begin with one: a name of at least one byte, 0, a value, 0.
pub fn first(pairs: &[u8]) -> Option<(Pair<'_>, &[u8])>
    ensures { Splits pairs.now result }
{
    let (name, after) = cut(pairs)?;
    let [_, ..] = name else {
        return None;
    };
    let (value, rest) = cut(after)?;
    Some((Pair { name, value }, rest))
}

// The pairs that bytes begin with, one after the other.
#[derive(Clone, Copy)]
pub struct Pairs<'a>(pub &'a [u8]);

impl<'a> Iterator for Pairs<'a> {
    type Item = Pair<'a>;

    ghost next_gives = { TakesPair };

    ghost remaining = { λ s. at_most (length s.0.now) };

    fn next(&mut self) -> Option<Pair<'a>> {
        let (pair, rest) = first(self.0)?;
        self.0 = rest;
        Some(pair)
    }
}

// Whether one of the pairs has the name, without regard to the case of A to Z.
pub(crate) fn has_name(name: &[u8], pairs: &[u8]) -> bool
    ensures { (ps : List PairOf) → Are ps pairs.now → result ≡ has_name name.now ps }
{
    Pairs(pairs).any(|pair| pair.name.eq_ignore_ascii_case(name))
}
