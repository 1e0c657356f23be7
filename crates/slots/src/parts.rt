// The parts of a slot store's table.

use store::entry::ENTRIES_MAX;

// How many slots the memory is cut into: one for each item or open draft.
pub const SLOTS: usize = ENTRIES_MAX;

// Where a byte string lies: its slot, and how many bytes of the slot it has. It is a place by number, since the memory of a store is fixed.
#[derive(Clone, Copy)]
pub struct Extent {
    pub slot: usize,
    pub len: usize,
}
