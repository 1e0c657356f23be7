// Tests of the queue, the ring, the drawer and the tap on examples.
#![tactic(auto)]

#[cfg(test)]
mod owned;
#[cfg(test)]
mod picks;
#[cfg(test)]
mod places;
#[cfg(test)]
mod script;
#[cfg(test)]
mod tapped;
#[cfg(test)]
mod wrapping;
