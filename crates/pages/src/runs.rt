// What is done to all the pages of an owner.
ghost use Rattle.std.specs.Prelude.{◌≡◌, ℕ, ◌+◌, ◌-◌, ◌%◌, ◌<◌, ◌≤◌, true, [], ◌++◌, map, length, get_or, drop, MatchOption};
ghost use Rattle.store.specs.Meaning.{part as part_of};
ghost use Rattle.pages.specs.Layout.{same, without, passed, texts, flat, need, Last};
ghost use Rattle.pages.specs.Changes.{Becomes, Extends};

use crate::parts::{PAGE_SIZE, Page, Pages};
use store::owner::Owner;

impl Pages {
    // How many more can be taken.
    pub(crate) fn free(&self) -> usize
        ensures { result ≡ self.now.limit - length self.now.taken.items }
    {
        self.limit - self.taken.len()
    }

    // From where on all pages are the owner's.
    fn tail(&self, who: Owner) -> usize
        ensures { (j : ℕ) (z : Page) → result ≤ j → j < length self.now.taken.items → same who (get_or self.now.taken.items j z).owner ≡ true }
    {
        match self.taken.iter().rposition(|page| page.owner != who) {
            Some(k) => k + 1,
            None => 0,
        }
    }

    // The owner's pages are given back, and the others close up. Those at the end go at once, since `retain` moves each page that it tests.
    pub(crate) fn give_back(&mut self, who: Owner)
        ensures { Becomes self.old self.new (without who self.old.taken.items) }
    {
        let end = self.tail(who);
        self.taken.truncate(end);
        self.taken.retain(|page| page.owner != who);
    }

    // The owner's pages pass to another.
    pub(crate) fn pass(&mut self, from: Owner, to: Owner)
        ensures { Becomes self.old self.new (map (passed from to) self.old.taken.items) }
    {
        for page in self.taken.iter_mut() {
            if page.owner == from {
                page.owner = to;
            }
        }
    }

    // The last page of an owner.
    fn last(&self, who: Owner) -> Option<usize>
        ensures { MatchOption result (texts who self.now.taken.items ≡ []) (λ k. Last who self.now.taken.items k) }
    {
        self.taken.iter().rposition(|page| page.owner == who)
    }

    // Adds a part to an owner's `len` bytes that ends where their last page does or before.
    fn extend(&mut self, who: Owner, len: usize, part: &[u8])
        requires has { length (texts who self.old.taken.items) ≡ need len }
        requires some { 0 < length part.now }
        requires fits { len % 64 + length part.now ≤ 64 }
        requires free { len % 64 ≡ 0 → length self.old.taken.items < self.old.limit }
        ensures { Extends self.old self.new who len part.now }
    {
        let at = len % PAGE_SIZE;
        if at == 0 {
            let mut page = Page::blank(who);
            page.put(0, part);
            self.taken.push_reserved(page);
            return;
        }
        if let Some(k) = self.last(who) {
            self.taken[k].put(at, part);
        }
    }

    // Adds a piece to an owner's `len` bytes.
    pub(crate) fn write(&mut self, who: Owner, len: usize, piece: &[u8])
        requires has { length (texts who self.old.taken.items) ≡ need len }
        requires small { len + length piece.now < 100000 }
        requires free { length self.old.taken.items + (need (len + length piece.now) - need len) ≤ self.old.limit }
        ensures { Extends self.old self.new who len piece.now }
    {
        let mut at = len;
        let mut rest = piece;
        // `chunks` is no plainer: the first part ends where a page does, so it would need a case of its own.
        while !rest.is_empty() {
            let room = PAGE_SIZE - at % PAGE_SIZE;
            let (part, more) = rest.split_at(room.min(rest.len()));
            self.extend(who, at, part);
            at += part.len();
            rest = more;
        }
    }

    // Copies an owner's bytes from a place on, as many as are there and the buffer holds.
    pub(crate) fn copy(&self, who: Owner, from: usize, buf: &mut [u8])
        ensures { buf.new ≡ part_of (flat (texts who self.now.taken.items)) from (length buf.old) ++ drop (length (part_of (flat (texts who self.now.taken.items)) from (length buf.old))) buf.old }
    {
        // An iterator chain is no plainer: what is still skipped and what is done are counts of bytes, and no index.
        let mut skip = from;
        let mut done = 0;
        for page in &self.taken {
            if page.owner == who {
                let s = skip.min(PAGE_SIZE);
                let m = (PAGE_SIZE - s).min(buf.len() - done);
                page.give(s, &mut buf[done..done + m]);
                done += m;
                skip -= s;
            }
        }
    }
}
