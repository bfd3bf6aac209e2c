//! Why turns end early.

/// Why no further turn was taken.
#[derive(Clone, Copy)]
pub enum Stop {
    /// A receive failed. Code 59.
    LinkDown,
    /// A line was lost, which was to end the device.
    Output,
    /// The clock could not be read.
    Clock,
}
