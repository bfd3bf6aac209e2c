//! Who is told of what is dispatched.

ghost use Rattle.std.specs.Prelude.{OnOk};
ghost use Rattle.fb_model.specs.World.{WorldAnswer, Answered};
ghost use Rattle.fb_device_dispatch.specs.declared.answer.Dispatched.TheVariants as variants;
ghost use Rattle.fb_device_dispatch.specs.Answers.{dispatched_of};
ghost use Rattle.fb_world_course.specs.Scenes.{system_of};
ghost use Rattle.fb_world_course.specs.Answers.{leaves_at};

use fb_device::Ran;
use fb_world::World;
use std::alloc::AllocError;

/// Who is told of what is dispatched.
///
/// It tells by `sees` what a call does; one that leaves it out tells nothing.
pub trait Witness {
    /// What a call does that is given an answer of the book's world. What tells nothing allows all.
    ghost sees: { Self → WorldAnswer → Self → Type 0 } = { λ _ _ _. Unit {0} };

    /// A block ran at a dispatch of the resource of a number at the device of a number; if it has sent a datagram, `sent` is its number. `world` is as the
    /// dispatch left it. Refused where memory runs out.
    fn ran(
        &mut self,
        world: &World,
        device: u16,
        resource: u16,
        ran: &Ran,
        sent: Option<u64>,
    ) -> Result<(), AllocError>
        ensures { OnOk result (sees self.old (Answered (dispatched_of (leaves_at (system_of world.now) device) (variants.Ran ran.now)) sent) self.new) };
}
