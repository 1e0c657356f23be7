// Setting up a slot store, and its calls as a store.
ghost use Rattle.std.specs.Prelude.{◌≡◌};
ghost use Rattle.std.proofs.Common.{◌∙◌};
ghost use Rattle.store.specs.Meaning.{Opened, Appended, Filed, Struck};
ghost use Rattle.slots.specs.Rules.{SetUp, slot_items, slot_drafts, slot_opens, slot_takes};
ghost use Rattle.std.proofs.lemmas.List.{length-map};

use crate::lookups::write;
use crate::parts::{Extent, SLOTS};
use crate::table::SlotStore;
use std::alloc::{AllocError, Global};
use store::drafts::Drafts;
use store::entry::{ENTRIES_MAX, Entry, find};
use store::interface::{PIECE_MAX, Store};
use store::owner::Owner;
use terms::name::Name;
use terms::refusal::Refusal;

impl SlotStore {
    // An empty store over so many bytes of memory, cut into 16 equal slots. All the memory that it will ever use is taken here.
    pub fn new(heap: Global, bytes: usize) -> Result<SlotStore, AllocError>
        ensures { SetUp bytes result }
    {
        let memory = vec![in heap; 0u8; bytes]?;
        let entries = Vec::with_capacity(heap, ENTRIES_MAX)?;
        let size = bytes / SLOTS;
        Ok(SlotStore {
            memory,
            size,
            entries,
            drafts: Drafts::new(),
            owners: [None; SLOTS],
        })
    }

    // The bytes of one slot, which is the most that an item can have.
    pub fn slot_size(&self) -> usize
        ensures { result ≡ self.now.size }
    {
        self.size
    }
}

impl Store for SlotStore {
    ghost items = { slot_items };

    ghost drafts = { slot_drafts };

    ghost opens = { slot_opens };

    ghost takes = { slot_takes };

    ghost five = { λ s. length-map s.drafts.held _ ∙ s.drafts.five };

    ghost distinct = { λ s. s.distinct };

    fn find(&self, name: &[u8]) -> Option<usize> {
        find(&self.entries, name)
    }

    fn size(&self, item: usize) -> Result<usize, Refusal> {
        let bytes = self.bytes(item)?;
        Ok(bytes.len())
    }

    fn read(&self, item: usize, from: usize, buf: &mut [u8]) -> Result<usize, Refusal> {
        let bytes = self.bytes(item)?;
        let left = bytes.get(from..).ok_or(Refusal::OutOfRange)?;
        let n = left.len().min(buf.len());
        buf[..n].copy_from_slice(&left[..n]);
        Ok(n)
    }

    // This and the calls below each say that the size of a slot stays: an invariant is no plainer, since it speaks of one value of the store.
    fn open(&mut self, draft: usize) -> Result<(), Refusal>
        ensures meaning { Opened slot_items slot_drafts slot_opens self.old self.new draft result }
        ensures size { self.new.size ≡ self.old.size }
    {
        self.drafts.check_absent(draft)?;
        let slot = self.free_slot().ok_or(Refusal::NoDraftFree)?;
        self.owners[slot] = Some(Owner::Draft(draft));
        self.drafts.set(draft, Extent { slot, len: 0 });
        Ok(())
    }

    fn append(&mut self, draft: usize, piece: &[u8]) -> Result<(), Refusal>
        ensures meaning { Appended slot_items slot_drafts slot_takes self.old self.new draft piece.now result }
        ensures size { self.new.size ≡ self.old.size }
    {
        if piece.len() > PIECE_MAX {
            return Err(Refusal::OutOfRange);
        }
        let Extent { slot, len } = self.extent(draft)?;
        if piece.len() > self.size - len {
            return Err(Refusal::NotTaken);
        }
        write(&mut self.memory, slot * self.size + len, piece);
        let longer = Extent {
            slot,
            len: len + piece.len(),
        };
        self.drafts.set(draft, longer);
        Ok(())
    }

    fn file(&mut self, draft: usize, name: &[u8]) -> Result<(), Refusal>
        ensures meaning { Filed slot_items slot_drafts self.old self.new draft name.now result }
        ensures size { self.new.size ≡ self.old.size }
    {
        let extent = self.extent(draft)?;
        // the same two tests for both kinds of store: a function for them is no plainer, since each is one call already
        let own = Name::new(name)?;
        if self.find(name).is_some() {
            return Err(Refusal::NameInUse);
        }
        self.owners[extent.slot] = Some(Owner::Item(self.entries.len()));
        self.entries.push_reserved(Entry {
            name: own,
            kept: extent,
        });
        self.drafts.clear(draft); // it is an item now
        Ok(())
    }

    fn strike(&mut self, draft: usize) -> Result<(), Refusal>
        ensures meaning { Struck slot_items slot_drafts slot_opens self.old self.new draft result }
        ensures size { self.new.size ≡ self.old.size }
    {
        let extent = self.extent(draft)?;
        self.owners[extent.slot] = None;
        self.drafts.clear(draft);
        Ok(())
    }
}
