//! A law about the charts of well typed systems: algorithms and guards use variables as they are declared.

ghost use Rattle.std.specs.Prelude.{List};
ghost use Rattle.std.specs.List.{AllByRecursion};
ghost use Rattle.fb_model.specs.Declarations.{BlockTree, SourceTree};
ghost use Rattle.fb_model.specs.System.{Device, System};
ghost use Rattle.fb_model.specs.NetworkTyping.{ElaboratesWith};
ghost use Rattle.fb_model.specs.Wires.{Leaf, leaves};
ghost use Rattle.fb_model_laws.specs.Leaves.{OnChart};
ghost use Rattle.fb_model_laws.specs.Shaped.{IsShapely};

/// The variables of each chart among a device's leaves have a shape: those that are arrays have as many elements as their bounds say. Its
/// algorithms and guards use plain variables and arrays as such, within these bounds, and its algorithms write outputs and internal
/// variables alone.
pub fn charts_have_shapes()
    ensures { (library : List BlockTree) (source : SourceTree) (system : System) → ElaboratesWith library source system → AllByRecursion (λ (d : Device). AllByRecursion (λ (leaf : Leaf). OnChart IsShapely leaf.kind) (leaves d)) system.devices }
{}
