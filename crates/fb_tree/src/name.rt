//! Names in a text.

/// A name and the place of its first byte.
#[derive(Drop)]
pub struct Name {
    /// In upper case.
    pub text: String,
    pub at: usize,
}
