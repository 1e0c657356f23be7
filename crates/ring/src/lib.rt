// A channel that loses only what finds no place: a queue of 16 places for each side.
#![tactic(auto)]

pub mod ring;
