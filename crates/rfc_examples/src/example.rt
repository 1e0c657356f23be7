// The shape of an example: a case, and what should come of it.
use std::io;

// What an example tries.
pub trait Case {
    // Prints what comes of the case; answers whether all is as it should be.
    fn judge(&self, rt: &HostRuntime, words: &str) -> io::Result<bool>;
}

#[derive(Clone, Copy, Debug)]
pub struct Example<C> {
    pub source: &'static str,
    pub about: &'static str,
    pub case: C,
    // what should come of the case, in one line
    pub words: &'static str,
}
