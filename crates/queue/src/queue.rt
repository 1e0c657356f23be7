// A first-in first-out queue in memory that the caller lends.
ghost use Rattle.std.specs.Prelude.{◌≡◌, [], ◌∷◌, ◌++◌, false, length, drop, if◌then◌else◌, nat_lt, slice_get};
ghost use Rattle.queue.specs.Queued.{queued, places};

// The oldest element lies at `head`, or in the first place if `head` is past the last. The others lie behind it, going on in the first place after the
// last. No more wait than there are places, however large `count` is: so every value is a queue, and the struct needs no ghost field.
#[derive(Drop)]
pub struct Queue<'a, T> {
    slots: &'a mut [T],
    head: usize,
    count: usize,
}

impl<'a, T: Copy> Queue<'a, T> {
    // An empty queue of as many places as `slots` has.
    pub fn new(slots: &'a mut [T]) -> Queue<'a, T>
        ensures empty { queued result ≡ [] }
        ensures places { places result ≡ length slots.old }
    {
        Queue {
            slots,
            head: 0,
            count: 0,
        }
    }

    // How many elements wait.
    #[tactic(auto, using(crate::proofs::Queues::length_waiting))]
    pub fn len(&self) -> usize
        ensures { result ≡ length (queued self.now) }
    {
        self.count.min(self.slots.len())
    }

    // Adds an element behind the others if a place is free, and says whether it did.
    pub fn push(&mut self, element: T) -> bool
        ensures answer { result ≡ nat_lt (length (queued self.old)) (places self.old) }
        ensures after { queued self.new ≡ queued self.old ++ (if result then element ∷ [] else []) }
        ensures full { result ≡ false → self.new ≡ self.old }
        ensures places { places self.new ≡ places self.old }
    {
        let len = self.count;
        if len >= self.slots.len() {
            return false;
        }
        let room = self.slots.len().saturating_sub(self.head);
        let at = if len < room {
            self.head + len
        } else {
            len - room
        };
        self.slots[at] = element;
        self.count = len + 1;
        true
    }

    // Takes the element that has waited longest, if any waits.
    pub fn pop(&mut self) -> Option<T>
        ensures front { result ≡ slice_get (queued self.old) 0 }
        ensures rest { queued self.new ≡ drop 1 (queued self.old) }
        ensures places { places self.new ≡ places self.old }
    {
        let len = self.len();
        if len == 0 {
            return None;
        }
        let at = if self.head < self.slots.len() {
            self.head
        } else {
            0
        };
        let front = self.slots[at];
        self.head = at + 1;
        self.count = len - 1;
        Some(front)
    }
}
