//! The kinds of rows.

/// A kind of rows after the first, by its word.
#[derive(Clone, Copy)]
pub(crate) enum Kind {
    Repeats,
    Range,
    Charge,
    Weight,
    Depth,
    Far,
    FarState,
    Channel,
}
