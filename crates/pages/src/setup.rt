// Setting up a paged store.
ghost use Rattle.std.specs.Prelude.{◌≡◌};
ghost use Rattle.pages.specs.Rules.{SetUp};
ghost use Rattle.pages.specs.declared.setup.SetupError.TheVariants.{NoMemory};

use crate::parts::Pages;
use crate::table::PagedStore;
use std::alloc::{AllocError, Global};
use store::drafts::Drafts;
use store::entry::ENTRIES_MAX;
use terms::refusal::Refusal;

// Why a store was not set up.
#[derive(Clone, Copy, PartialEq, Eq, Debug)]
pub enum SetupError {
    Refused(Refusal),
    NoMemory,
}

// By hand, with `from_gives`: a derive writes no clause, and `SetUp` says when the error is this one.
impl From<AllocError> for SetupError {
    ghost from_gives = { λ e r. r ≡ NoMemory };

    fn from(_why: AllocError) -> SetupError {
        SetupError::NoMemory
    }
}

impl PagedStore {
    // An empty store of that many pages, at most 256. All the memory that it will ever use is taken here.
    pub fn new(heap: Global, pages: usize) -> Result<PagedStore, SetupError>
        ensures { SetUp pages result }
    {
        if pages > 256 {
            return Err(SetupError::Refused(Refusal::OutOfRange));
        }
        let taken = Vec::with_capacity(heap, pages)?;
        let entries = Vec::with_capacity(heap, ENTRIES_MAX)?;
        Ok(PagedStore {
            pages: Pages {
                taken,
                limit: pages,
            },
            entries,
            drafts: Drafts::new(),
        })
    }

    // How many pages there can be in use.
    pub fn page_limit(&self) -> usize
        ensures { result ≡ self.now.pages.limit }
    {
        self.pages.limit
    }
}
