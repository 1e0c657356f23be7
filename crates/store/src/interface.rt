// The calls of a store, and what they mean.
ghost use Rattle.std.specs.Prelude.{◌≡◌, ℕ, Bool, List, length};
ghost use Rattle.store.specs.Meaning.{Item, Draft, position, Distinct, Measured, Copied, Opened, Appended, Filed, Struck};

use terms::refusal::Refusal;

// The most bytes of one piece.
pub const PIECE_MAX: usize = 1468;

// A list of items, each a name and bytes, and drafts 0 to 4, each absent or bytes. A refused call changes nothing.
pub trait Store {
    // in filing order
    ghost items: { Self → List Item };

    ghost drafts: { Self → List Draft };

    // whether a draft can be opened
    ghost opens: { Self → Bool };

    // whether that draft takes that piece
    ghost takes: { Self → ℕ → List ℕ → Bool };

    // The number of the item of that name.
    fn find(&self, name: &[u8]) -> Option<usize>
        ensures { result ≡ position name.now (items self.now) };

    // How many bytes an item has.
    fn size(&self, item: usize) -> Result<usize, Refusal>
        ensures { Measured items self.now item result };

    // Reads an item from a place up to its length: as many bytes as are left and the buffer holds, which is the answer.
    fn read(&self, item: usize, from: usize, buf: &mut [u8]) -> Result<usize, Refusal>
        ensures { Copied items self.now item from buf.old buf.new result };

    // Makes an empty draft.
    fn open(&mut self, draft: usize) -> Result<(), Refusal>
        ensures { Opened items drafts opens self.old self.new draft result };

    // Adds a piece of at most 1,468 bytes to a draft that takes it.
    fn append(&mut self, draft: usize, piece: &[u8]) -> Result<(), Refusal>
        ensures { Appended items drafts takes self.old self.new draft piece.now result };

    // Makes a draft the last item.
    fn file(&mut self, draft: usize, name: &[u8]) -> Result<(), Refusal>
        ensures { Filed items drafts self.old self.new draft name.now result };

    // Removes a draft, after which one can be opened.
    fn strike(&mut self, draft: usize) -> Result<(), Refusal>
        ensures { Struck items drafts opens self.old self.new draft result };

    ghost five: { (s : Self) → length (drafts s) ≡ 5 };

    ghost distinct: { (s : Self) → Distinct (items s) };
}
