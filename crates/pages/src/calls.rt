// The calls of a paged store as a store.
ghost use Rattle.std.specs.Prelude.{◌≡◌};
ghost use Rattle.std.proofs.Common.{◌∙◌};
ghost use Rattle.store.specs.Meaning.{Opened, Appended, Filed, Struck};
ghost use Rattle.pages.specs.Rules.{page_items, page_drafts, page_opens, page_takes};
ghost use Rattle.pages.specs.Indexed.{length-imap};

use crate::page::needed;
use crate::table::PagedStore;
use store::entry::{ENTRIES_MAX, Entry, find};
use store::interface::{PIECE_MAX, Store};
use store::owner::Owner;
use terms::name::Name;
use terms::refusal::Refusal;

impl Store for PagedStore {
    ghost items = { page_items };

    ghost drafts = { page_drafts };

    ghost opens = { page_opens };

    ghost takes = { page_takes };

    ghost five = { λ s. length-imap _ s.drafts.held ∙ s.drafts.five };

    ghost distinct = { λ s. s.distinct };

    fn find(&self, name: &[u8]) -> Option<usize> {
        find(&self.entries, name)
    }

    fn size(&self, item: usize) -> Result<usize, Refusal> {
        let entry = self.entries.get(item).ok_or(Refusal::OutOfRange)?;
        Ok(entry.kept)
    }

    fn read(&self, item: usize, from: usize, buf: &mut [u8]) -> Result<usize, Refusal> {
        let len = self.size(item)?;
        let left = len.checked_sub(from).ok_or(Refusal::OutOfRange)?;
        let n = left.min(buf.len());
        self.pages.copy(Owner::Item(item), from, &mut buf[..n]);
        Ok(n)
    }

    // This and the calls below each say that the limit stays: an invariant is no plainer, since it speaks of one value of the store.
    fn open(&mut self, draft: usize) -> Result<(), Refusal>
        ensures meaning { Opened page_items page_drafts page_opens self.old self.new draft result }
        ensures limit { self.new.pages.limit ≡ self.old.pages.limit }
    {
        self.drafts.check_absent(draft)?;
        if self.standing() >= ENTRIES_MAX {
            return Err(Refusal::NoDraftFree);
        }
        self.drafts.set(draft, 0);
        Ok(())
    }

    fn append(&mut self, draft: usize, piece: &[u8]) -> Result<(), Refusal>
        ensures meaning { Appended page_items page_drafts page_takes self.old self.new draft piece.now result }
        ensures limit { self.new.pages.limit ≡ self.old.pages.limit }
    {
        if piece.len() > PIECE_MAX {
            return Err(Refusal::OutOfRange);
        }
        let len = self.drafted(draft)?;
        let total = len + piece.len();
        let further = needed(total) - needed(len);
        if further > self.pages.free() {
            return Err(Refusal::NotTaken);
        }
        self.pages.write(Owner::Draft(draft), len, piece);
        self.drafts.set(draft, total);
        Ok(())
    }

    fn file(&mut self, draft: usize, name: &[u8]) -> Result<(), Refusal>
        ensures meaning { Filed page_items page_drafts self.old self.new draft name.now result }
        ensures limit { self.new.pages.limit ≡ self.old.pages.limit }
    {
        let len = self.drafted(draft)?;
        // the same two tests for both kinds of store: a function for them is no plainer, since each is one call already
        let own = Name::new(name)?;
        if self.find(name).is_some() {
            return Err(Refusal::NameInUse);
        }
        let to = Owner::Item(self.entries.len());
        self.pages.pass(Owner::Draft(draft), to);
        self.entries.push_reserved(Entry {
            name: own,
            kept: len,
        });
        self.drafts.clear(draft); // it is an item now
        Ok(())
    }

    fn strike(&mut self, draft: usize) -> Result<(), Refusal>
        ensures meaning { Struck page_items page_drafts page_opens self.old self.new draft result }
        ensures limit { self.new.pages.limit ≡ self.old.pages.limit }
    {
        self.drafted(draft)?;
        self.pages.give_back(Owner::Draft(draft));
        self.drafts.clear(draft);
        Ok(())
    }
}
