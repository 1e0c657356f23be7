// A store's refusal passes by `?` to the transfer that receives, and from there to the end that was called, with its number kept.
ghost use Rattle.std.specs.Prelude.{◌≡◌};
ghost use Rattle.terms.specs.Causes.{cause_number};
ghost use Rattle.store.specs.Faults.{fault_number, piece_refusal, call_refusal, PassedOn};
ghost use Rattle.store.specs.declared.fault.Fault.TheVariants.{Transfer};

use crate::interface::Store;
use terms::cause::Cause;
use terms::refusal::Refusal;

// Why a call of an end was sent away.
#[derive(Clone, Copy, PartialEq, Eq, Debug)]
pub enum Fault {
    // what made the transfer fail
    Transfer(Cause),
    // what is wrong with the call itself
    Call(Refusal),
}

impl Fault {
    // As for refusals, a trait for numbers is no plainer.
    pub fn number(self) -> u8
        ensures { result ≡ fault_number self }
    {
        match self {
            Fault::Transfer(why) => why.number(),
            Fault::Call(why) => why.number(),
        }
    }
}

impl From<Cause> for Fault {
    ghost from_gives = { λ e r. r ≡ Transfer e };

    fn from(cause: Cause) -> Fault {
        Fault::Transfer(cause)
    }
}

// A transfer takes in a piece that is no longer than its block.
pub fn receive<S: Store>(
    store: &mut S,
    draft: usize,
    piece: &[u8],
    block: usize,
) -> Result<usize, Cause>
    ensures { PassedOn cause_number S.items S.drafts (piece_refusal (S.drafts store.old) (S.takes store.old draft piece.now) draft piece.now block) store.old store.new draft piece.now result }
{
    if piece.len() > block {
        return Err(Cause::Refused(Refusal::OversizedData));
    }
    store.append(draft, piece)?;
    Ok(piece.len())
}

// An end, lent a work buffer of so many bytes, hands the piece to its transfer.
pub fn hear<S: Store>(
    store: &mut S,
    draft: usize,
    piece: &[u8],
    block: usize,
    work: usize,
) -> Result<usize, Fault>
    ensures { PassedOn fault_number S.items S.drafts (call_refusal (S.drafts store.old) (S.takes store.old draft piece.now) draft piece.now block work) store.old store.new draft piece.now result }
{
    if work < 1472 {
        return Err(Fault::Call(Refusal::ShortBuffer));
    }
    let taken = receive(store, draft, piece, block)?;
    Ok(taken)
}
