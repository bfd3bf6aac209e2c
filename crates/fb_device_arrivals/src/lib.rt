//! Room: device. What comes to a device from outside: offers, datagrams, the clock, and the start.
//! `offer` and `deliver` admit just where no line of `Denied` holds, and a denial is true; `tick` is the book's, and `begin` admits every BEGIN in order.
#![tactic(auto)]

mod clock;
mod delivery;
mod denied;
mod input;
mod stamps;
mod start;

pub use clock::tick;
pub use delivery::deliver;
pub use denied::Denied;
pub use input::offer;
pub use start::begin;
