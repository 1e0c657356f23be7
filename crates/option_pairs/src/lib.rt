// Option pairs: which values are numbers, which options pairs give within ranges, and whether a name comes twice.
#![tactic(auto)]

pub mod number;
pub mod pairs;
pub mod scan;
pub mod values;
