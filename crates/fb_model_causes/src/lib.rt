//! Room: book. Laws of what one event causes on all devices, told without the roots that a world keeps: by a run's events and answers, and the devices' machines.
//! A dispatch belongs to an arrival if it is of its cause, or of a cause that was opened by a delivery of a datagram which a dispatch that belongs to it had sent.
//! The roots of a world are these arrivals, one each, and a root's steps are those told of the dispatches that belong to its arrival (`roots_are_arrivals`);
//! so where deliveries are paid for, FAR bounds told steps (`arrivals_are_bounded`). Functions have empty bodies, and no code runs a world.
#![tactic(auto)]

ghost use Rattle.std.specs.Prelude.{ℕ, ◌≡◌, List, Some};
ghost use Rattle.fb_model.specs.Certificates.{Certificate};
ghost use Rattle.fb_model.specs.System.{System};
ghost use Rattle.fb_model.specs.World.{World, WorldEvent, WorldAnswer, WorldRun, IsFirst, PaysFar};
ghost use Rattle.fb_model.specs.Worlds.{AllHold};
ghost use Rattle.fb_model.specs.Causes.{HasArrivals, BoundsArrivals};

/// Over every run from a first world, its roots are its arrivals, one each, with the opening of the arrival's entries, and with the steps that
/// the answers told of all dispatches which belong to it, at each moment of the run.
pub fn roots_are_arrivals()
    ensures { (system : System) (cert : Certificate) → AllHold system cert → (first new : World) (events : List WorldEvent) (answers : List WorldAnswer) → IsFirst system first → (run : WorldRun system cert first events answers new) → HasArrivals system cert first events answers new run }
{}

/// Over every run from a first world, the steps that the answers told of all dispatches which belong to an arrival are at most the FAR of its opening,
/// if each datagram without a stamp which these sent was admitted at most REPEATS times at each device.
pub fn arrivals_are_bounded()
    ensures { (system : System) (cert : Certificate) → AllHold system cert → ((repeats : ℕ) → cert.repeats ≡ Some repeats → PaysFar system cert repeats) → (w : World) → IsFirst system w → BoundsArrivals system cert w }
{}
