// What datagrams are: the messages, their parts and the places of these, texts, option pairs and modes.
#![tactic(auto)]

pub mod message;
pub mod mode;
pub mod pairs;
pub mod places;
pub mod text;
