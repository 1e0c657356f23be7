// Tests of both stores on examples.
#![tactic(auto)]

#[cfg(test)]
mod laying;
#[cfg(test)]
mod paged;
#[cfg(test)]
mod script;
#[cfg(test)]
mod slotted;
