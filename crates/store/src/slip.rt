// A host lays in an item through draft 4 and holds a slip for it, which filing or striking spends.
ghost use Rattle.std.specs.Prelude.{◌≡◌, [], Some};
ghost use Rattle.store.specs.Meaning.{draft_at, Opened, Appended, Struck};
ghost use Rattle.store.specs.Laying.{Settled, CopiedIn, ItemLaid};

use crate::interface::{PIECE_MAX, Store};
use terms::refusal::Refusal;

const HOST_DRAFT: usize = 4;

// Not `Drop`: a slip is spent once, by `file` or by `strike`.
pub struct Slip(());

pub fn begin<S: Store>(store: &mut S) -> Result<Slip, Refusal>
    ensures { Opened S.items S.drafts S.opens store.old store.new 4 result }
{
    store.open(HOST_DRAFT)?;
    Ok(Slip(()))
}

pub fn add<S: Store>(store: &mut S, _slip: &Slip, piece: &[u8]) -> Result<(), Refusal>
    ensures { Appended S.items S.drafts S.takes store.old store.new 4 piece.now result }
{
    store.append(HOST_DRAFT, piece)
}

// A refused filing strikes the draft too.
pub fn file<S: Store>(store: &mut S, slip: Slip, name: &[u8]) -> Result<(), Refusal>
    ensures { Settled S.items S.drafts S.opens store.old store.new 4 name.now result }
{
    let Slip(()) = slip;
    // As `inspect_err` it was tried, and the proof didn't close: nothing is known of a store that a closure changed.
    match store.file(HOST_DRAFT, name) {
        Ok(()) => Ok(()),
        Err(why) => {
            let _ = store.strike(HOST_DRAFT);
            Err(why)
        }
    }
}

pub fn strike<S: Store>(store: &mut S, slip: Slip) -> Result<(), Refusal>
    ensures { Struck S.items S.drafts S.opens store.old store.new 4 result }
{
    let Slip(()) = slip;
    store.strike(HOST_DRAFT)
}

// Adds a text of any length, cut into pieces, to the empty draft.
fn add_all<S: Store>(store: &mut S, slip: &Slip, text: &[u8]) -> Result<(), Refusal>
    requires { draft_at (S.drafts store.old) 4 ≡ Some [] }
    ensures { CopiedIn S.items S.drafts S.takes store.old store.new text.now result }
{
    for piece in text.chunks(PIECE_MAX) {
        add(store, slip, piece)?;
    }
    Ok(())
}

// Lays in a whole item, of any length, or leaves the items and drafts as they were.
pub fn lay_in<S: Store>(store: &mut S, name: &[u8], text: &[u8]) -> Result<(), Refusal>
    ensures { ItemLaid S.items S.drafts S.opens S.takes store.old store.new name.now text.now result }
{
    let slip = begin(store)?;
    // As in `file`, the store changes where adding fails, so the `match` stays.
    match add_all(store, &slip, text) {
        Ok(()) => file(store, slip, name),
        Err(why) => {
            let _ = strike(store, slip);
            Err(why)
        }
    }
}
