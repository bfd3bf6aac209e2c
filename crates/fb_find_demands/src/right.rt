//! One inequality by numbers.

/// The number of a node is at least a constant and the numbers of other nodes together. Constants are told apart up to the first number that is
/// more than the steps of any row, which stands for all greater ones.
#[derive(Drop)]
pub struct Right {
    pub node: usize,
    pub constant: u64,
    pub terms: Vec<usize>,
}
