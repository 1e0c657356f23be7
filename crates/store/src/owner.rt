// Whose a part of a store's memory is.

// A draft or an item, by its number.
#[derive(Clone, Copy, PartialEq, Eq, Debug)]
pub enum Owner {
    Draft(usize),
    Item(usize),
}
