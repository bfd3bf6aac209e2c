//! Laws about the ranges that the finder gives variables.

ghost use Rattle.std.specs.Prelude.{ℕ, ◌≡◌, List};
ghost use Rattle.std.specs.List.{AllByRecursion};
ghost use Rattle.fb_model.specs.Certificates.{all_leaves, range_places, ranged};
ghost use Rattle.fb_model.specs.Declarations.{BlockTree, SourceTree};
ghost use Rattle.fb_model.specs.NetworkTyping.{ElaboratesWith};
ghost use Rattle.fb_model.specs.Ranges.{Range};
ghost use Rattle.fb_model.specs.System.{Block, Device, System};
ghost use Rattle.fb_model.specs.Wires.{Charted, Leaf, leaves};
ghost use Rattle.fb_model_laws.specs.Devices.{FindsItsLast};
ghost use Rattle.fb_model.specs.FinderRanges.{AreFound, IsLast, Settles};
ghost use Rattle.fb_model_laws.specs.Holding.{ChartBegins, LeafIsFed, LeafIsGood};

/// From one round on, rows come to one end.
pub fn rounds_have_one_end()
    ensures { (all : List Leaf) (n : ℕ) (xs ys zs : List Range) → Settles all n xs ys → Settles all n xs zs → ys ≡ zs }
{}

/// The rows of a device after its last round lie in the types of their variables, hold what these have at first, and hold the rows of the outputs
/// that inputs take.
pub fn last_rows_hold()
    ensures { (library : List BlockTree) (source : SourceTree) (system : System) → ElaboratesWith library source system → AllByRecursion (λ (d : Device). (zs : List Range) → IsLast (leaves d) zs → AllByRecursion (λ (leaf : Leaf). LeafIsGood zs leaf × LeafIsFed zs (leaves d) leaf) (leaves d)) system.devices }
{}

/// The rounds of a device end.
pub fn rounds_end()
    ensures { (library : List BlockTree) (source : SourceTree) (system : System) → ElaboratesWith library source system → AllByRecursion (λ (d : Device). (zs : List Range) × IsLast (leaves d) zs) system.devices }
{}

/// Among the rows of all devices, the leaves of each device find those that it has after its last round.
pub fn found_rows_are_last()
    ensures { (library : List BlockTree) (source : SourceTree) (system : System) (ranges : List Range) → ElaboratesWith library source system → AreFound system.devices ranges → AllByRecursion (FindsItsLast ranges) system.devices }
{}

/// The rows of all devices lie in the types of their variables, hold what these have at first, and hold the rows of the outputs that inputs take.
pub fn found_rows_hold()
    ensures { (library : List BlockTree) (source : SourceTree) (system : System) (ranges : List Range) → ElaboratesWith library source system → AreFound system.devices ranges → AllByRecursion (λ (d : Device). AllByRecursion (λ (leaf : Leaf). LeafIsGood ranges leaf × LeafIsFed ranges (leaves d) leaf) (leaves d)) system.devices }
{}

/// A chart whose rows hold is clear, but for its algorithms and guards.
pub fn good_rows_begin()
    ensures { (library : List BlockTree) (source : SourceTree) (system : System) → ElaboratesWith library source system → AllByRecursion (λ (d : Device). AllByRecursion (λ (leaf : Leaf). (ranges : List Range) → (all : List Leaf) → (block : Block) → leaf.kind ≡ Charted block → LeafIsGood ranges leaf → LeafIsFed ranges all leaf → ChartBegins ranges all leaf.path leaf.source block) (leaves d)) system.devices }
{}

/// The rows of all devices are the only ones that are found.
pub fn found_rows_are_one()
    ensures { (devices : List Device) (xs ys : List Range) → AreFound devices xs → AreFound devices ys → xs ≡ ys }
{}

/// The rows of all devices are those that a certificate must have, in the order of leaves and their variables.
pub fn found_rows_are_all()
    ensures { (devices : List Device) (xs : List Range) → AreFound devices xs → range_places xs ≡ ranged (all_leaves devices) }
{}
