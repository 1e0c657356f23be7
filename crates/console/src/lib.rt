// Text into and out of the programs: hexadecimal digits, bytes as text, a datagram in one line of words, refusals with their numbers.
#![tactic(auto)]

pub mod filling;
pub mod hex;
pub mod refused;
pub mod shown;
pub mod summary;
