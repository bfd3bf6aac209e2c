//! Who watches a turn.

ghost use Rattle.std.specs.Prelude.{◌≡◌};
ghost use Rattle.fb_model.specs.Wires.{leaves};
ghost use Rattle.fb_device_arrivals.specs.Answers.{admission_of};
ghost use Rattle.fb_device_dispatch.specs.Answers.{dispatched_of};
ghost use Rattle.fb_device_state.specs.Machines.{device_in};
ghost use Rattle.fb_model.specs.Turning.{Sight, Came, Served};

use fb_device::{Denied, Device, Dispatched};

/// What watches the turns of a device: it is told of each datagram and of each dispatch, with what the device answered, as soon as that has happened.
///
/// It tells by `sees` what a call does; one that leaves it out tells nothing.
pub trait Watch {
    /// What a call does. What tells nothing allows all.
    ghost sees: { Self → Sight → Self → Type 0 } = { λ _ _ _. Unit {0} };

    /// A datagram came, as much of it as there is room for, and the device answered this.
    fn came(&mut self, device: &Device, bytes: &[u8], answer: &Result<u64, Denied>)
        ensures { sees self.old (Came bytes.now (admission_of answer.now)) self.new };

    /// A resource was dispatched, the device answered this, and the link took what was sent, if something was.
    fn served(&mut self, device: &Device, answer: &Dispatched, is_taken: bool)
        ensures { sees self.old (Served (dispatched_of (leaves (device_in device.now)) answer.now) is_taken) self.new };
}
