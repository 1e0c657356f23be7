// A channel that hands out what it is told to: any datagram that it keeps, in any order and as often as wanted.
#![tactic(auto)]

pub mod drawer;
