// Lines of a script: their words, and how they are echoed.
ghost use Rattle.std.specs.Prelude.{◌≤◌, length};
ghost use Rattle.std.specs.Iterator.{at_most};

use console::shown::Shown;
use std::{fmt, io};

fn is_space(b: u8) -> bool {
    matches!(b, b' ' | b'\t' | b'\r')
}

// The bytes from the first one that is not a space on.
fn after_spaces(text: &[u8]) -> &[u8]
    ensures { length result.now ≤ length text.now }
{
    let start = text.iter().position(|b| !is_space(*b));
    &text[start.unwrap_or(text.len())..]
}

// The words of a line that are still to come.
#[derive(Clone, Copy, Debug)]
pub struct Words<'a>(pub &'a [u8]);

impl<'a> Iterator for Words<'a> {
    type Item = &'a [u8];

    ghost remaining = { λ s. at_most (length s.0.now) };

    fn next(&mut self) -> Option<&'a [u8]> {
        let text = after_spaces(self.0);
        let (_, others) = text.split_first()?;
        let len = others
            .iter()
            .position(|b| is_space(*b))
            .unwrap_or(others.len());
        let end = 1 + len;
        self.0 = &text[end..];
        Some(&text[..end])
    }
}

impl Words<'_> {
    // None where a word is left.
    pub fn end(mut self) -> Option<()> {
        self.next().is_none().then_some(())
    }
}

// Prints a line as it was given; of a long one only the front.
pub fn echo(rt: &HostRuntime, line: &[u8]) -> io::Result<()> {
    let line = after_spaces(line);
    match line.get(..240) {
        Some(front) if front.len() < line.len() => {
            println!(rt; "> {}.. ({} characters)", Text(front), line.len())
        }
        _ => println!(rt; "> {}", Text(line)),
    }
}

// A line as text: spaces stay, carriage returns go, other bytes that do not show as a character are \xNN.
#[derive(Clone, Copy)]
struct Text<'a>(&'a [u8]);

impl fmt::Display for Text<'_> {
    fn fmt<W: fmt::Write>(&self, f: &mut fmt::Formatter<W>) -> fmt::Result {
        for b in self.0 {
            match *b {
                b' ' => write!(f, " ")?,
                b'\r' => {}
                b => write!(f, "{}", Shown(&[b]))?,
            }
        }
        Ok(())
    }
}
