// How long a transfer waits for its peer, and how often it tries again. No patience but a legal one can be made.
ghost use Rattle.std.specs.Prelude.{◌≡◌, true};
ghost use Rattle.terms.specs.Patiences.{legal_patience};

#[derive(Clone, Copy)]
pub struct Patience {
    // seconds
    pub wait: u8,
    // after the first wait
    pub tries: u8,
    ghost legal: { legal_patience wait tries ≡ true },
}

mod calls;

pub use calls::is_legal_patience;
