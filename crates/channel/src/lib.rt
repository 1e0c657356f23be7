// A channel between the two sides: what it means, what it holds a datagram in, and how datagrams are put on it in order.
#![tactic(auto)]

pub mod datagram;
pub mod interface;
pub mod puts;
pub mod tallies;
