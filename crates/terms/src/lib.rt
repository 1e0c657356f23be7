// The words of the trade that every layer shares: sides, roles, phases, refusals, causes, names, patience and agreed values.
#![tactic(auto)]

pub mod agreed;
pub mod cause;
pub mod name;
pub mod patience;
pub mod phase;
pub mod refusal;
pub mod role;
pub mod short_bytes;
pub mod side;
