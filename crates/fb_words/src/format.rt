//! The wire formats.

/// The form of a channel's datagrams: this project's profile of IEC 61499-1 edition 2, 6.1. A channel of the second has one sender at most.
#[derive(Clone, Copy, PartialEq, Eq)]
pub enum Format {
    /// `FORMAT := 1`, and where nothing is said.
    First,
    /// `FORMAT := 2`.
    Second,
}
