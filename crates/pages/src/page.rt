// What is asked of one page, and done to it.
ghost use Rattle.std.specs.Prelude.{◌≡◌, ◌+◌, ◌<◌, ◌≤◌, length, take, drop};
ghost use Rattle.store.specs.Memory.{overwritten};
ghost use Rattle.pages.specs.Layout.{need};

use crate::parts::{PAGE_SIZE, Page};
use store::owner::Owner;

// The pages that so many bytes need.
pub(crate) fn needed(n: usize) -> usize
    requires { n < 100000 }
    ensures { result ≡ need n }
{
    n.div_ceil(PAGE_SIZE)
}

impl Page {
    // Writes a part of the page's text.
    pub(crate) fn put(&mut self, at: usize, part: &[u8])
        requires { at + length part.now ≤ 64 }
        ensures owner { self.new.owner ≡ self.old.owner }
        ensures text { self.new.text ≡ overwritten self.old.text at part.now }
    {
        match <[u8; PAGE_SIZE]>::try_from(part) {
            // A whole page is taken as one value, which costs less than a copy of a length that is not known.
            Ok(text) => self.text = text,
            Err(_) => self.text[at..at + part.len()].copy_from_slice(part),
        }
    }

    // A page with nothing on it.
    pub(crate) fn blank(owner: Owner) -> Page
        ensures { result.owner ≡ owner }
    {
        let text = [0; PAGE_SIZE];
        Page { owner, text }
    }

    // Copies a part of the page's text.
    pub(crate) fn give(&self, at: usize, buf: &mut [u8])
        requires { at + length buf.old ≤ 64 }
        ensures { buf.new ≡ take (length buf.old) (drop at self.now.text) }
    {
        let n = buf.len();
        buf.copy_from_slice(&self.text[at..at + n]);
    }
}
