// A store over one memory that is cut into 16 equal slots.
#![tactic(auto)]

pub mod calls;
mod lookups;
mod parts;
pub mod table;
