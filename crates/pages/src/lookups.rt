// What the calls of the paged store look up.
ghost use Rattle.std.specs.Prelude.{◌≡◌, ◌+◌, ◌<◌, ◌≤◌, length, is_some, Some, None, count_by, slice_index_or};
ghost use Rattle.store.specs.Meaning.{Answers, strike_refusal};
ghost use Rattle.pages.specs.Layout.{need, texts};
ghost use Rattle.pages.specs.Rules.{page_drafts};
ghost use Rattle.store.specs.declared.owner.Owner.TheVariants.{Draft as DraftOf};

use crate::table::PagedStore;
use terms::refusal::Refusal;

impl PagedStore {
    // How many bytes an open draft has, in pages of its own.
    pub(crate) fn drafted(&self, draft: usize) -> Result<usize, Refusal>
        ensures { Answers result (strike_refusal (page_drafts self.now) draft) (Unit {0}) (λ n. (draft < 5) × (slice_index_or self.now.drafts.held draft None ≡ Some n) × (length (texts (DraftOf draft) self.now.pages.taken.items) ≡ need n) × (n ≤ 16384)) }
    {
        self.drafts.get(draft)
    }

    // How many items and open drafts there are.
    pub(crate) fn standing(&self) -> usize
        ensures { result ≡ length self.now.entries.items + count_by is_some self.now.drafts.held }
    {
        self.entries.len() + self.drafts.count_open()
    }
}
