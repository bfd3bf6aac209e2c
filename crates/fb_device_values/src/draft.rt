//! Variables that a store is to have.

/// A variable: its name, its bounds where it is an array, and the number that it has at first, an array in each element.
#[derive(Drop)]
pub(crate) struct Draft {
    pub(crate) name: String,
    pub(crate) bounds: Option<(i64, i64)>,
    pub(crate) number: i64,
}
