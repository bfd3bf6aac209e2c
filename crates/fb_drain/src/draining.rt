//! Dispatches of one resource, until nothing is pending there.

ghost use Rattle.std.specs.Prelude.{◌≡◌, IfOk, OnErr};
ghost use Rattle.fb_model.specs.World.{Answered};
ghost use Rattle.fb_device_dispatch.specs.Answers.{dispatched_of};
ghost use Rattle.fb_world_course.specs.Scenes.{system_of, cert_of, world_of};
ghost use Rattle.fb_world_course.specs.Answers.{leaves_at};
ghost use Rattle.fb_drain.specs.Draining.{IsDrained, HasStopped, IsSoundAt, WasTold, IsOneServed};

use crate::witness::Witness;
use fb_device::Dispatched;
use fb_world::{Missed, World};
use std::alloc::AllocError;

// That the certificate holds of the device of a number, and that the device is sound, for proofs: nothing is done.
fn keeps_bounds(world: &World, device: u16)
    ensures { IsSoundAt (system_of world.now) (cert_of world.now) device (world_of world.now) }
{
    match world.get(device) {
        Some(found) => found.keeps_bounds(),
        None => {}
    }
}

// Tells the witness of a dispatch, if a block ran at it. Answers whether one did.
fn tell<W: Witness>(
    world: &World,
    device: u16,
    resource: u16,
    answer: &Dispatched,
    sent: Option<u64>,
    witness: &mut W,
) -> Result<bool, AllocError>
    ensures { IfOk result (λ ran. WasTold W.sees (Answered (dispatched_of (leaves_at (system_of world.now) device) answer.now) sent) ran witness.old witness.new) }
{
    match answer {
        Dispatched::Ran(ran) => {
            witness.ran(world, device, resource, ran, sent)?;
            Ok(true)
        }
        Dispatched::Idle => Ok(false),
    }
}

// Dispatches the resource once. Answers whether a block ran, of which the witness was told.
fn serve<W: Witness>(
    world: &mut World,
    device: u16,
    resource: u16,
    witness: &mut W,
) -> Result<bool, AllocError>
    ensures served { IfOk result (λ ran. IsOneServed W.sees (system_of world.old) (cert_of world.old) device resource ran (world_of world.old) witness.old (world_of world.new) witness.new) }
    ensures stopped { OnErr result (HasStopped (system_of world.old) (cert_of world.old) device resource (world_of world.old) (world_of world.new)) }
    ensures same { world.new.verified ≡ world.old.verified }
{
    let mut answer = Dispatched::Idle;
    match world.dispatch(device, resource, &mut answer) {
        Ok(sent) => tell(world, device, resource, &answer, sent, witness),
        Err(Missed::Unknown) => Ok(false),
        Err(Missed::OutOfMemory) => Err(AllocError),
    }
}

/// Dispatches the resource of a number at the device of a number until nothing is pending there, and tells the witness of each dispatch. Gives how many that
/// took: at most what the entries weigh that were pending, by the steps of their WEIGHT rows. Where there is no such device or resource it takes none.
///
/// Refused where memory runs out, in a dispatch or at the witness, or where the world has seen 2^64 - 1 dispatches: then some dispatches were made, and
/// something may still be pending.
pub fn drain<W: Witness>(
    world: &mut World,
    device: u16,
    resource: u16,
    witness: &mut W,
) -> Result<u64, AllocError>
    ensures drained { IfOk result (λ n. IsDrained W.sees (system_of world.old) (cert_of world.old) device resource n (world_of world.old) witness.old (world_of world.new) witness.new) }
    ensures stopped { OnErr result (HasStopped (system_of world.old) (cert_of world.old) device resource (world_of world.old) (world_of world.new)) }
    ensures same { world.new.verified ≡ world.old.verified }
{
    keeps_bounds(world, device);
    for count in 0..u64::MAX {
        if !serve(world, device, resource, witness)? {
            return Ok(count);
        }
    }
    Err(AllocError)
}
