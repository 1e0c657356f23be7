// A store of named items: what it means, what each of its calls answers and leaves, how a host lays in an item, and the tables that the kinds of store share.
#![tactic(auto)]

pub mod drafts;
pub mod entry;
pub mod fault;
pub mod interface;
pub mod owner;
pub mod slip;
pub mod standing;
