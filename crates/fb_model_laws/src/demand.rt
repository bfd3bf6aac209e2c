//! Laws about demands: the inequalities between the numbers of a certificate.

ghost use Rattle.std.specs.Prelude.{ℕ, ◌≡◌, ◌≤◌, ◌↔◌, List, Some};
ghost use Rattle.fb_model.specs.Ranges.{Range};
ghost use Rattle.fb_model.specs.Wires.{Leaf};
ghost use Rattle.fb_model.specs.System.{System};
ghost use Rattle.fb_model.specs.Certificates.{all_leaves, far_of, Certificate, Column, ColumnFits, FarFits, Fits};
ghost use Rattle.fb_model.specs.Demands.{bare_demands, bare_network, IsClosedWalk, Node};
ghost use Rattle.fb_model.specs.Columns.{number_of, demands, network_demands, MeetAll};

/// A column without datagrams pays exactly where its numbers meet all demands.
pub fn columns_meet_demands()
    ensures { (col : Column) (ranges : List Range) (all : List Leaf) → ((c : ℕ) → col.sending c ≡ 0) → ColumnFits col ranges all ↔ MeetAll (number_of col) (demands col.unit ranges all) }
{}

/// Where there is a closed walk of demands, no certificate fits, whatever its ranges.
pub fn walks_exclude()
    ensures { (system : System) (cert : Certificate) (walk : List Node) → IsClosedWalk (bare_demands (all_leaves system.devices)) walk → Fits system cert → ⊥ }
{}

/// A certificate pays for all that happens on all devices exactly where its numbers meet all demands of the network.
pub fn networks_meet_demands()
    ensures { (cert : Certificate) (repeats : ℕ) (system : System) → FarFits cert repeats system ↔ MeetAll (number_of (far_of cert)) (network_demands repeats cert.ranges (all_leaves system.devices)) }
{}

/// Where there is a closed walk of demands of the network, no certificate with a row REPEATS fits, whatever its ranges and whatever the row says.
pub fn network_walks_exclude()
    ensures { (system : System) (cert : Certificate) (repeats : ℕ) (walk : List Node) → IsClosedWalk (bare_network (all_leaves system.devices)) walk → cert.repeats ≡ Some repeats → 1 ≤ repeats → Fits system cert → ⊥ }
{}
