// A store over pages of 64 bytes, which drafts take and give back.
#![tactic(auto)]

pub mod calls;
mod lookups;
mod page;
mod parts;
mod runs;
pub mod setup;
pub mod table;
