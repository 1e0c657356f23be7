// The paged store: its pages, and a table of what it holds.
ghost use Rattle.std.specs.Prelude.{◌≡◌, ◌+◌, ◌≤◌, length, is_some, vec_capacity, count_by};
ghost use Rattle.store.specs.Meaning.{Distinct};
ghost use Rattle.pages.specs.Layout.{Filings, Begun, Tally, items_of};

use crate::parts::Pages;
use store::drafts::Drafts;
use store::entry::Entry;

#[derive(Drop)]
pub struct PagedStore {
    pub(crate) pages: Pages,
    // in filing order, with how many bytes each item has
    pub(crate) entries: Vec<Entry<usize>>,
    // how many bytes each open draft has
    pub(crate) drafts: Drafts<usize>,
    ghost sixteen: { 16 ≤ vec_capacity entries },
    ghost few: { length entries.items + count_by is_some drafts.held ≤ 16 },
    ghost begun: { Begun pages.taken.items drafts.held },
    ghost filings: { Filings pages.taken.items entries.items },
    ghost tally: { Tally pages.taken.items entries.items drafts.held },
    ghost distinct: { Distinct (items_of pages.taken.items entries.items) },
}
