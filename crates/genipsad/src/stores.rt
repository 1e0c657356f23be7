// A store of either kind, as a script sets it up.
ghost use Rattle.std.specs.Prelude.{◌<◌, ◌^◌};

use crate::command::Kind;
use pages::setup::SetupError;
use pages::table::PagedStore;
use slots::table::SlotStore;
use std::alloc::Global;
use store::interface::Store;
use store::slip::lay_in;
use terms::refusal::Refusal;

// An enum, and no `dyn Store`: a rule of the project lets no function hand one out.
// An `impl Store` is no plainer: it has seven calls and six ghost members to pass on, and a script needs the four below.
#[derive(Drop)]
pub enum AnyStore {
    Slot(SlotStore),
    Paged(PagedStore),
}

impl AnyStore {
    // An empty store of so many bytes, or pages.
    pub fn new(heap: Global, kind: Kind, size: usize) -> Result<AnyStore, SetupError> {
        Ok(match kind {
            Kind::Slot => AnyStore::Slot(SlotStore::new(heap, size)?),
            Kind::Paged => AnyStore::Paged(PagedStore::new(heap, size)?),
        })
    }

    // Lays in an item through a slip.
    pub fn lay(&mut self, name: &[u8], bytes: &[u8]) -> Result<(), Refusal> {
        match self {
            AnyStore::Slot(store) => lay_in(store, name, bytes),
            AnyStore::Paged(store) => lay_in(store, name, bytes),
        }
    }

    pub fn find(&self, name: &[u8]) -> Option<usize> {
        match self {
            AnyStore::Slot(store) => store.find(name),
            AnyStore::Paged(store) => store.find(name),
        }
    }

    pub fn size(&self, item: usize) -> Result<usize, Refusal> {
        match self {
            AnyStore::Slot(store) => store.size(item),
            AnyStore::Paged(store) => store.size(item),
        }
    }

    pub fn read(&self, item: usize, from: usize, buf: &mut [u8]) -> Result<usize, Refusal> {
        match self {
            AnyStore::Slot(store) => store.read(item, from, buf),
            AnyStore::Paged(store) => store.read(item, from, buf),
        }
    }

    // A struct of an item's number and size is no plainer: this call and the hash alone take both.
    // Folds the bytes of an item, in parts of at most N bytes, as far as the store gives them.
    pub(crate) fn fold<const N: usize, A: Drop, F: FnMut(A, &[u8]) -> A>(
        &self,
        item: usize,
        size: usize,
        start: A,
        mut step: F,
    ) -> A
        requires some { 0 < N }
        requires fits { N < 2 ^ 63 }
        requires can { F.IsAlwaysCallable step }
    {
        let mut so_far = start;
        for from in (0..size).step_by(N) {
            // a rule of the project: reading takes no heap, and answers how much of a lent buffer it filled
            let mut buf = [0u8; N];
            let Ok(count) = self.read(item, from, &mut buf) else {
                return so_far;
            };
            so_far = step(so_far, buf.get(..count).unwrap_or(&[]));
        }
        so_far
    }

    // FNV-1a of an item's bytes, in 32 bits.
    pub fn hash(&self, item: usize, size: usize) -> u32 {
        self.fold::<512, _, _>(item, size, 2_166_136_261, fnv1a)
    }
}

fn fnv1a(start: u32, bytes: &[u8]) -> u32 {
    bytes.iter().fold(start, |hash, b| {
        (hash ^ u32::from(*b)).wrapping_mul(16_777_619)
    })
}
