// A bounded queue in lent memory, for places of datagrams and for numbers alike.
#![tactic(auto)]

pub mod queue;
