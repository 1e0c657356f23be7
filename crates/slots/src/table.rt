// The slot store: its memory, and a table of who has which slot.
ghost use Rattle.std.specs.Prelude.{◌≡◌, ◌*◌, ◌≤◌, length, vec_capacity};
ghost use Rattle.store.specs.Meaning.{Distinct};
ghost use Rattle.slots.specs.Layout.{Filings, Begun, Tally, items_of};

use crate::parts::{Extent, SLOTS};
use store::drafts::Drafts;
use store::entry::Entry;
use store::owner::Owner;

#[derive(Drop)]
pub struct SlotStore {
    pub(crate) memory: Vec<u8>,
    // the bytes of one slot
    pub(crate) size: usize,
    // in filing order
    pub(crate) entries: Vec<Entry<Extent>>,
    pub(crate) drafts: Drafts<Extent>,
    // whose each slot is, if anyone's; a rule of the project cuts the memory into slots, so the table of them stays beside those of items and drafts
    pub(crate) owners: [Option<Owner>; SLOTS],
    ghost cut: { 16 * size ≤ length memory.items },
    ghost sixteen: { length owners ≡ 16 },
    ghost filings: { Filings size owners entries.items },
    ghost begun: { Begun size owners drafts.held },
    ghost tally: { Tally owners entries.items drafts.held },
    ghost distinct: { Distinct (items_of memory.items size entries.items) },
    ghost room: { 16 ≤ vec_capacity entries },
}
