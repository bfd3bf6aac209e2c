//! What a world tells beside its answers.

/// Why there was no dispatch. Nothing has changed.
#[derive(Clone, Copy)]
pub enum Missed {
    /// There is no such device.
    Unknown,
    /// Memory ran out, or the world has seen 2^64 - 1 dispatches.
    OutOfMemory,
}

/// The steps of a root on all devices so far, or 2^64 - 1 where they are more, and where the certificate has a row REPEATS the FAR of its opening.
#[derive(Clone, Copy)]
pub struct RootSteps {
    pub steps: u64,
    pub far: Option<u64>,
}

/// A datagram without a stamp that a device admitted more often than REPEATS, by its number, with its root, and the device by its own number.
#[derive(Clone, Copy)]
pub struct TooOften {
    pub root: u64,
    pub datagram: u64,
    pub device: u16,
}
