// Datagrams read as messages and written from them, and the laws that join the two.
#![tactic(auto)]

pub mod laws;
pub mod reading;
pub mod writing;
