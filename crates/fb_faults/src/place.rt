//! Places of a system that have numbers in each column of a certificate.

use std::fmt;

/// A state of a chart, or an event input or arrival, by its path: names joined by dots, the last its own; or a channel by its number. A state and an
/// event of one block may share a name.
#[derive(Drop)]
pub enum Place {
    State(String),
    Event(String),
    Channel(u16),
}

/// Its path, or its number.
impl fmt::Display for Place {
    ghost use Rattle.std.specs.Prelude.{Some};
    ghost use Rattle.fb_faults.specs.Places.{path_in};

    ghost output = { λ p. Some (path_in p) };

    fn fmt<W: fmt::Write>(&self, f: &mut fmt::Formatter<W>) -> fmt::Result {
        match self {
            Place::State(path) => write!(f, "{path}"),
            Place::Event(path) => write!(f, "{path}"),
            Place::Channel(number) => write!(f, "{number}"),
        }
    }
}
