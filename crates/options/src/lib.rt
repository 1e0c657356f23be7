// The options of a request and of an OACK: what an ask may ask, what the cabin answers, what the shield accepts, and what the two ends then hold.
#![tactic(auto)]

pub mod accept;
pub mod asked;
pub mod encode;
pub mod exchange;
pub mod offer;
pub mod request;
pub mod settled;
