//! Laws about the leaves of well typed systems: their paths differ, outputs lead to event inputs, and inputs take values of their types.

ghost use Rattle.std.specs.Prelude.{List, length, ◌≤◌};
ghost use Rattle.std.specs.List.{AllByRecursion};
ghost use Rattle.fb_model.specs.Declarations.{BlockTree, SourceTree};
ghost use Rattle.fb_model.specs.System.{Device, System};
ghost use Rattle.fb_model.specs.NetworkTyping.{ElaboratesWith};
ghost use Rattle.fb_model.specs.Wires.{Leaf, leaves};
ghost use Rattle.fb_model.specs.Certificates.{IsWired, IsNumbered};
ghost use Rattle.fb_model_laws.specs.Leaves.{AreApart, IsFed, IsClosed};

/// The paths of a device's leaves are all different.
pub fn paths_differ()
    ensures { (library : List BlockTree) (source : SourceTree) (system : System) → ElaboratesWith library source system → AllByRecursion (λ (d : Device). AreApart (leaves d)) system.devices }
{}

/// Each leaf of a device is found by its path, and its event outputs lead to event inputs of leaves of the device, through composites.
pub fn outputs_lead_to_inputs()
    ensures { (library : List BlockTree) (source : SourceTree) (system : System) → ElaboratesWith library source system → AllByRecursion (λ (d : Device). AllByRecursion (IsWired (leaves d)) (leaves d)) system.devices }
{}

/// The names of a leaf's variables differ, their first values lie in their types, and each input takes a constant of its type, or an output of a
/// leaf whose type widens to the input's own.
pub fn inputs_take_their_types()
    ensures { (library : List BlockTree) (source : SourceTree) (system : System) → ElaboratesWith library source system → AllByRecursion (λ (d : Device). AllByRecursion (IsFed (leaves d)) (leaves d)) system.devices }
{}

/// The charts of a device's leaves name states, events and outputs of their own block alone, which are few and apart.
pub fn charts_are_closed()
    ensures { (library : List BlockTree) (source : SourceTree) (system : System) → ElaboratesWith library source system → AllByRecursion (λ (d : Device). AllByRecursion (λ (leaf : Leaf). IsClosed leaf.kind) (leaves d)) system.devices }
{}

/// The numbers of a device's INPUT and OUTPUT, and the channels of its PUBLISH and SUBSCRIBE, have two bytes, and each has at most 16 value types.
pub fn services_are_numbered()
    ensures { (library : List BlockTree) (source : SourceTree) (system : System) → ElaboratesWith library source system → AllByRecursion (λ (d : Device). AllByRecursion (λ (leaf : Leaf). IsNumbered leaf.kind) (leaves d)) system.devices }
{}

/// A device has at most 16 resources, and at most 1,024 leaves for each of 16.
pub fn leaves_are_few()
    ensures { (library : List BlockTree) (source : SourceTree) (system : System) → ElaboratesWith library source system → AllByRecursion (λ (d : Device). (length (leaves d) ≤ 16384) × (length d.resources ≤ 16)) system.devices }
{}
