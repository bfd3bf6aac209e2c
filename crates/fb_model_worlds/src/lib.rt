//! Room: book. Laws over all runs of a world of devices, whose network loses, repeats and reorders datagrams.
//! Where deliveries are paid for, each root takes at most the FAR of its opening in steps on all devices (`roots_are_bounded`); a datagram with a stamp is admitted
//! at most once at a device (`deliveries_are_once`). Functions have empty bodies, and no code runs a world.
#![tactic(auto)]

ghost use Rattle.std.specs.Prelude.{ℕ, ◌≡◌, ◌≤◌, List, Some};
ghost use Rattle.std.specs.List.{AllByRecursion};
ghost use Rattle.fb_model.specs.Certificates.{Certificate};
ghost use Rattle.fb_model.specs.System.{System};
ghost use Rattle.fb_model.specs.World.{World, WorldEvent, WorldAnswer, WorldHappens, WorldRun, IsFirst, PaysFar, BoundsRoots};
ghost use Rattle.fb_model.specs.Worlds.{AllHold, IsOnce, IsWorldSound, ArePaid, MeasureFalls, MeasureFallsOver, EndsRoots, GoesOn};

/// Every world that devices come to is sound, from its first one on, whatever is lost, repeated or reordered.
pub fn worlds_are_sound()
    ensures first { (system : System) (cert : Certificate) → AllHold system cert → (w : World) → IsFirst system w → IsWorldSound system cert w }
    ensures next { (system : System) (cert : Certificate) → AllHold system cert → (old new : World) (event : WorldEvent) (answer : WorldAnswer) → IsWorldSound system cert old → WorldHappens system cert old event answer new → IsWorldSound system cert new }
    ensures then { (system : System) (cert : Certificate) → AllHold system cert → (old new : World) (events : List WorldEvent) (answers : List WorldAnswer) → IsWorldSound system cert old → WorldRun system cert old events answers new → IsWorldSound system cert new }
{}

/// There is a first world, and after each world another one for whatever a device may do and for each datagram that comes to one.
pub fn worlds_are_there()
    ensures first { (system : System) (cert : Certificate) → AllHold system cert → (w : World) × IsFirst system w }
    ensures next { (system : System) (cert : Certificate) → AllHold system cert → (old : World) → IsWorldSound system cert old → GoesOn system cert old }
{}

/// Over every run from a first world, each device admits a datagram with a stamp at most once.
pub fn deliveries_are_once()
    ensures { (system : System) (cert : Certificate) → AllHold system cert → (first new : World) (events : List WorldEvent) (answers : List WorldAnswer) → IsFirst system first → WorldRun system cert first events answers new → AllByRecursion IsOnce new.datagrams }
{}

/// At each event a root that opens may cost the FAR of its opening, the measure of no other rises, where no more was admitted than is allowed,
/// and a dispatch of a root makes it less.
pub fn measure_falls_over_runs()
    ensures event { (system : System) (cert : Certificate) (repeats : ℕ) → AllHold system cert → PaysFar system cert repeats → repeats ≤ 255 → (old new : World) (event : WorldEvent) (answer : WorldAnswer) → IsWorldSound system cert old → WorldHappens system cert old event answer new → MeasureFalls system cert repeats old event answer new }
    ensures run { (system : System) (cert : Certificate) (repeats : ℕ) → AllHold system cert → PaysFar system cert repeats → repeats ≤ 255 → (old new : World) (events : List WorldEvent) (answers : List WorldAnswer) → IsWorldSound system cert old → (run : WorldRun system cert old events answers new) → MeasureFallsOver system cert repeats old events answers new run }
{}

/// The steps so far of each root, and what it may still cost, are together at most the FAR of its opening, from the first world on.
pub fn roots_are_paid()
    ensures first { (system : System) (cert : Certificate) (repeats : ℕ) (w : World) → IsFirst system w → ArePaid system cert repeats w }
    ensures next { (system : System) (cert : Certificate) (repeats : ℕ) → AllHold system cert → PaysFar system cert repeats → repeats ≤ 255 → (old new : World) (event : WorldEvent) (answer : WorldAnswer) → IsWorldSound system cert old → WorldHappens system cert old event answer new → ArePaid system cert repeats old → ArePaid system cert repeats new }
    ensures then { (system : System) (cert : Certificate) (repeats : ℕ) → AllHold system cert → PaysFar system cert repeats → repeats ≤ 255 → (old new : World) (events : List WorldEvent) (answers : List WorldAnswer) → IsWorldSound system cert old → WorldRun system cert old events answers new → ArePaid system cert repeats old → ArePaid system cert repeats new }
{}

/// Over every run from a first world, each root takes at most the FAR of its opening in steps on all devices, and is dispatched at most so often.
pub fn roots_are_bounded()
    ensures steps { (system : System) (cert : Certificate) → AllHold system cert → ((repeats : ℕ) → cert.repeats ≡ Some repeats → PaysFar system cert repeats) → (w : World) → IsFirst system w → BoundsRoots system cert w }
    ensures dispatches { (system : System) (cert : Certificate) → AllHold system cert → ((repeats : ℕ) → cert.repeats ≡ Some repeats → PaysFar system cert repeats) → (w : World) → IsFirst system w → EndsRoots system cert w }
{}
