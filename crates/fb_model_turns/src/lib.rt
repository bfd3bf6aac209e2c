//! Room: book. How many dispatches of its resource an event needs until all that it causes has ended: by the longest chain of emissions, or by all of them.
//! The laws hold for every count that fits (`DispatchesFit`), least or not, and for each state to which a device comes from its start. Functions have empty
//! bodies: nothing runs.
#![tactic(auto)]

ghost use Rattle.std.specs.Prelude.{ℕ, List};
ghost use Rattle.fb_model.specs.System.{Device};
ghost use Rattle.fb_model.specs.Wires.{Leaf, leaves};
ghost use Rattle.fb_model.specs.Certificates.{Certificate, ColumnFits, DeviceHolds, steps_of};
ghost use Rattle.fb_model.specs.Ranges.{Range};
ghost use Rattle.fb_model.specs.Devices.{Machine};
ghost use Rattle.fb_model_turns.specs.Turns.{ComesTo, Counts, DispatchesFit, EndsAlone, EndsInGenerations, HasNothingBeside, added, counts_of, largest};

/// With any events between, an open cause has ended at the latest after G * DEPTH dispatches of its resource, where G is the longest chain of emissions
/// that its opening can start.
pub fn causes_end_in_generations()
    ensures { (device : Device) (cert : Certificate) (counts : Counts) → DeviceHolds cert device → DispatchesFit largest counts (leaves device) → (m : Machine) → ComesTo cert device m → EndsInGenerations counts cert device m }
{}

/// If no other cause has room beside an open cause (`IsAlone`), nothing else is pending in its resource, and it has ended at the latest after D dispatches
/// of it, where D counts all dispatches that its opening can cause.
pub fn causes_end_alone()
    ensures beside { (device : Device) (cert : Certificate) → DeviceHolds cert device → (m : Machine) → ComesTo cert device m → HasNothingBeside cert device m }
    ensures ends { (device : Device) (cert : Certificate) (counts : Counts) → DeviceHolds cert device → DispatchesFit added counts (leaves device) → (m : Machine) → ComesTo cert device m → EndsAlone counts cert device m }
{}

/// What fits as a count of all dispatches fits as a count of the longest chain, and the steps that a certificate states fit as a count of all dispatches:
/// so there are G and D that fit with G at most D, and D at most WEIGHT.
pub fn counts_are_there()
    ensures chains { (counts : Counts) (all : List Leaf) → DispatchesFit added counts all → DispatchesFit largest counts all }
    ensures steps { (cert : Certificate) (ranges : List Range) (all : List Leaf) → ColumnFits (steps_of cert) ranges all → DispatchesFit added (counts_of cert) all }
{}
