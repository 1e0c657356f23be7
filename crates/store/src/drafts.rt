// The five drafts of a store, each absent or what the store keeps of it, and which calls on them are refused.
ghost use Rattle.std.specs.Prelude.{◌≡◌, ◌<◌, length, replicate, is_some, Some, None, count_by, slice_index_or, slice_set};
ghost use Rattle.store.specs.Meaning.{Answers};
ghost use Rattle.store.specs.Drafts.{held_refusal, absent_refusal};

use terms::refusal::Refusal;

// How many drafts there are.
pub const DRAFTS: usize = 5;

#[derive(Drop)]
pub struct Drafts<T> {
    held: [Option<T>; DRAFTS],
    ghost five: { length held ≡ 5 },
}

impl<T: Copy> Drafts<T> {
    // Every draft is absent.
    pub fn new() -> Drafts<T>
        ensures { result.held ≡ replicate 5 None }
    {
        Drafts {
            held: [None; DRAFTS],
        }
    }

    // What is kept of an open draft.
    pub fn get(&self, draft: usize) -> Result<T, Refusal>
        ensures { Answers result (held_refusal self.now.held draft) (Unit {0}) (λ x. (draft < 5) × (slice_index_or self.now.held draft None ≡ Some x)) }
    {
        let held = self.held.get(draft).ok_or(Refusal::OutOfRange)?;
        held.ok_or(Refusal::DraftState)
    }

    // Whether a draft that is to be opened is absent.
    pub fn check_absent(&self, draft: usize) -> Result<(), Refusal>
        ensures { Answers result (absent_refusal self.now.held draft) (Unit {0}) (λ _. (draft < 5) × (slice_index_or self.now.held draft None ≡ None)) }
    {
        let held = self.held.get(draft).ok_or(Refusal::OutOfRange)?;
        if held.is_some() {
            return Err(Refusal::DraftState);
        }
        Ok(())
    }

    // How many drafts are open.
    pub fn count_open(&self) -> usize
        ensures { result ≡ count_by is_some self.now.held }
    {
        self.held.iter().filter(|held| held.is_some()).count()
    }

    // By `get_mut` this and `clear` were tried, and the proof didn't close.
    // An open draft of that number is one of which this is kept. Where no draft has the number, nothing changes.
    pub fn set(&mut self, draft: usize, kept: T)
        ensures { self.new.held ≡ slice_set self.old.held draft (Some kept) }
    {
        if draft < DRAFTS {
            self.held[draft] = Some(kept);
        }
    }

    // The draft of that number, if there is one, is absent.
    pub fn clear(&mut self, draft: usize)
        ensures { self.new.held ≡ slice_set self.old.held draft None }
    {
        if draft < DRAFTS {
            self.held[draft] = None;
        }
    }
}
