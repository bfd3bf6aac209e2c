//! Want of memory, where nothing else can go wrong.

ghost use Rattle.std.specs.Prelude.{◌≡◌};

/// Memory ran out. Code 9.
#[derive(Clone, Copy)]
pub struct OutOfMemory;

impl OutOfMemory {
    /// The number of the refusal.
    pub fn code(&self) -> u8
        ensures { result ≡ 9 }
    {
        9
    }
}
