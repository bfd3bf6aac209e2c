//! What was checked, shared by devices: a world of devices checks once, and holds one system and one certificate.

ghost use Rattle.std.specs.Prelude.{◌≡◌, IfOk, IfErr};
ghost use Rattle.fb_device.specs.Refusals.{no_memory};

use crate::refusal::Refusal;
use fb_verified::Verified;
use std::alloc::Global;
use std::rc::Rc;

/// What was checked, for devices that share it. Refused only where memory runs out.
pub fn share(alloc: Global, verified: Verified) -> Result<Rc<Verified>, Refusal>
    ensures shared { IfOk result (λ shared. shared.value ≡ verified) }
    ensures refused { IfErr result (λ refusal. refusal ≡ no_memory) }
{
    match Rc::new(alloc, verified) {
        Ok(shared) => Ok(shared),
        Err(refused) => {
            refused.value.let_go();
            Err(Refusal::Checked(fb_faults::Refusal::OutOfMemory))
        }
    }
}

/// Gives one share back; with the last one what was checked is let go.
pub fn release(shared: Rc<Verified>) {
    match Rc::into_inner(shared) {
        Some(verified) => verified.let_go(),
        None => {}
    }
}
