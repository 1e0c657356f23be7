// No call alters or removes a filed item.
ghost use Rattle.std.specs.Prelude.{◌≡◌};
ghost use Rattle.store.specs.Standing.{ItemsStand};

use crate::interface::Store;

// The law holds of every store. A rule of the project keeps its answer, 0, which says nothing: a promise once made stands.
pub fn filed_items_stand<S: Store>(_store: &S) -> u8
    ensures law { ItemsStand S.items S.drafts S.opens S.takes }
    ensures value { result ≡ 0 }
{
    0
}
