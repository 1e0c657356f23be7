// What the calls of the slot store look up, and how they write.
ghost use Rattle.std.specs.Prelude.{◌≡◌, ◌+◌, ◌<◌, ◌≤◌, true, false, length, Some, None, vec_len, MatchOption, slice_index_or};
ghost use Rattle.store.specs.Meaning.{bytes_at, Answers, size_refusal, strike_refusal};
ghost use Rattle.store.specs.Memory.{overwritten};
ghost use Rattle.slots.specs.Layout.{Held};
ghost use Rattle.slots.specs.Rules.{slot_items, slot_drafts, slot_opens};
ghost use Rattle.store.specs.declared.owner.Owner.TheVariants.{Draft};

use crate::parts::Extent;
use crate::table::SlotStore;
use terms::refusal::Refusal;

// Writes a piece into the memory.
pub(crate) fn write(memory: &mut Vec<u8>, at: usize, piece: &[u8])
    requires { at + length piece.now ≤ vec_len memory.old }
    ensures { memory.new.items ≡ overwritten memory.old.items at piece.now }
{
    memory[at..at + piece.len()].copy_from_slice(piece);
}

impl SlotStore {
    // The first slot that nobody owns: there is one while a draft can be opened.
    pub(crate) fn free_slot(&self) -> Option<usize>
        ensures { MatchOption result (slot_opens self.now ≡ false) (λ s. (slot_opens self.now ≡ true) × (s < 16) × (slice_index_or self.now.owners s None ≡ None)) }
    {
        self.owners.iter().position(|owner| owner.is_none())
    }

    // Where an open draft lies: in a slot of its own.
    pub(crate) fn extent(&self, draft: usize) -> Result<Extent, Refusal>
        ensures { Answers result (strike_refusal (slot_drafts self.now) draft) (Unit {0}) (λ e. (draft < 5) × (slice_index_or self.now.drafts.held draft None ≡ Some e) × Held self.now.size self.now.owners (Draft draft) e) }
    {
        self.drafts.get(draft)
    }

    // The bytes of an item.
    pub(crate) fn bytes(&self, item: usize) -> Result<&[u8], Refusal>
        ensures { Answers result (size_refusal (slot_items self.now) item) (Unit {0}) (λ b. b.now ≡ bytes_at (slot_items self.now) item) }
    {
        let entry = self.entries.get(item).ok_or(Refusal::OutOfRange)?;
        let Extent { slot, len } = entry.kept;
        let at = slot * self.size;
        Ok(&self.memory[at..at + len])
    }
}
