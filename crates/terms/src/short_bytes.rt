// A few bytes, at most N, kept in place: a buffer with its length, since the rules want names and option pairs without a heap, so that making and
// copying them cannot fail.
ghost use Rattle.std.specs.Prelude.{◌≡◌, ◌-◌, ◌≤◌, length, drop, replicate};

#[derive(Clone, Copy)]
pub struct ShortBytes<const N: usize> {
    bytes: [u8; N],
    len: usize,
    ghost whole: { length bytes ≡ N },
    ghost short: { len ≤ N },
    ghost padded: { drop len bytes ≡ replicate (N - len) 0 },
}

// The bytes would be more than N.
#[derive(Clone, Copy, PartialEq, Eq, Debug)]
pub struct NoRoom;

mod calls;
