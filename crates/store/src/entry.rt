// The table of a store's items.
ghost use Rattle.std.specs.Prelude.{◌≡◌, position};
ghost use Rattle.store.specs.Entries.{is_called};

use terms::name::Name;

// The most items and open drafts of a store, taken together.
pub const ENTRIES_MAX: usize = 16;

// An item: its name, and what the store keeps of its bytes, as where they lie or how many they are.
#[derive(Clone, Copy)]
pub struct Entry<T> {
    pub name: Name,
    pub kept: T,
}

// The number of the first entry of that name.
pub fn find<T>(entries: &[Entry<T>], name: &[u8]) -> Option<usize>
    ensures { result ≡ position (is_called name.now) entries.now }
{
    entries.iter().position(|entry| entry.name.text() == name)
}
