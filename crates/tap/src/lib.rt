// A layer over any channel that records what passes.
#![tactic(auto)]

pub mod tap;
