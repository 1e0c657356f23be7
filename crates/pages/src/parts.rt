// The parts of a paged store's table.
ghost use Rattle.std.specs.Prelude.{◌≡◌, ◌≤◌, length, vec_capacity};

use store::owner::Owner;

// The bytes of one page.
pub const PAGE_SIZE: usize = 64;

#[derive(Clone, Copy)]
pub struct Page {
    pub owner: Owner,
    pub text: [u8; PAGE_SIZE],
    ghost whole: { length text ≡ 64 },
}

// The pages in use, in the order in which they were taken, each with its owner. Room for all that there can be is reserved.
#[derive(Drop)]
pub struct Pages {
    pub(crate) taken: Vec<Page>,
    // how many there can be
    pub(crate) limit: usize,
    ghost most: { limit ≤ 256 },
    ghost within: { length taken.items ≤ limit },
    ghost reserved: { limit ≤ vec_capacity taken },
}
