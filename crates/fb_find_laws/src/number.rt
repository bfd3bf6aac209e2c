//! Laws about demands by numbers: least numbers of places are least numbers of nodes, and a closed walk of places is one of nodes.

ghost use Rattle.std.specs.Prelude.{ℕ, List, map};
ghost use Rattle.fb_model.specs.Wires.{Leaf};
ghost use Rattle.fb_model.specs.Demands.{bare_demands, bare_network, Demand, IsClosedWalk, Node, node_in};
ghost use Rattle.fb_find_graph.specs.Systems as numbered;
ghost use Rattle.fb_find_graph.specs.Systems.{IsLeast, IsPaying, System};
ghost use Rattle.fb_find_laws.specs.Numbered.{AreLeast, AreNumbers, AreOf, SaysSame};

/// The least numbers of places are the least numbers of the nodes that stand there.
pub fn least_numbers_are_least()
    ensures { (nodes : List Node) (ds : List Demand) (number : Node → ℕ) (system : System) (y : ℕ → ℕ) → AreNumbers nodes number → AreOf nodes ds → SaysSame ds number system → IsLeast system y → AreLeast nodes ds (λ v. y (number v)) }
{}

/// A closed walk through places is one through the nodes that stand there.
pub fn walks_are_walks()
    ensures { (nodes : List Node) (ds : List Demand) (number : Node → ℕ) (system : System) (walk : List ℕ) → AreNumbers nodes number → AreOf nodes ds → SaysSame ds number system → numbered.IsClosedWalk system walk → IsClosedWalk ds (map (node_in nodes) walk) }
{}

/// Of two demands of a system in a row one has a constant of 1 or more, whatever algorithms cost: so a closed walk through places is one of demands.
pub fn demands_pay()
    ensures { (nodes : List Node) (all : List Leaf) (number : Node → ℕ) (system : System) → AreNumbers nodes number → AreOf nodes (bare_demands all) → SaysSame (bare_demands all) number system → IsPaying system }
{}

/// The same over the network: a channel asks with 0, but for arrivals alone, and these ask with 1.
pub fn network_demands_pay()
    ensures { (nodes : List Node) (all : List Leaf) (number : Node → ℕ) (system : System) → AreNumbers nodes number → AreOf nodes (bare_network all) → SaysSame (bare_network all) number system → IsPaying system }
{}

/// And a closed walk through nodes is one through their places.
pub fn walks_have_places()
    ensures { (nodes : List Node) (ds : List Demand) (number : Node → ℕ) (system : System) (walk : List Node) → AreNumbers nodes number → AreOf nodes ds → SaysSame ds number system → IsClosedWalk ds walk → numbered.IsClosedWalk system (map number walk) }
{}
