// Bytes as a program shows them.
use std::fmt;

// Visible characters as they are, every other byte as \xNN, with or without quotation marks round them.
#[derive(Clone, Copy, PartialEq, Eq, Debug)]
pub struct Shown<'a>(pub &'a [u8]);

#[derive(Clone, Copy, PartialEq, Eq, Debug)]
pub struct Quoted<'a>(pub &'a [u8]);

// Two hexadecimal digits for each byte; a dash where there is none.
#[derive(Clone, Copy, PartialEq, Eq, Debug)]
pub struct HexDigits<'a>(pub &'a [u8]);

fn show_byte<W: fmt::Write>(b: u8, f: &mut fmt::Formatter<W>) -> fmt::Result {
    if b.is_ascii_graphic() {
        write!(f, "{}", char::from(b))
    } else {
        write!(f, "\\x{b:02x}")
    }
}

impl fmt::Display for Shown<'_> {
    fn fmt<W: fmt::Write>(&self, f: &mut fmt::Formatter<W>) -> fmt::Result {
        for b in self.0 {
            show_byte(*b, f)?;
        }
        Ok(())
    }
}

impl fmt::Display for Quoted<'_> {
    fn fmt<W: fmt::Write>(&self, f: &mut fmt::Formatter<W>) -> fmt::Result {
        write!(f, "\"{}\"", Shown(self.0))
    }
}

impl fmt::Display for HexDigits<'_> {
    fn fmt<W: fmt::Write>(&self, f: &mut fmt::Formatter<W>) -> fmt::Result {
        if self.0.is_empty() {
            return write!(f, "-");
        }
        for b in self.0 {
            write!(f, "{b:02x}")?;
        }
        Ok(())
    }
}
