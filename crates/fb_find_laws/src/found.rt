//! Laws about certificates that are found.

ghost use Rattle.std.specs.Prelude.{ℕ, ◌≤◌, ◌<◌, List, length, map, Option, Some};
ghost use Rattle.std.specs.List.{AllByRecursion, Contains};
ghost use Rattle.fb_model.specs.Declarations.{BlockTree, SourceTree};
ghost use Rattle.fb_model.specs.NetworkTyping.{ElaboratesWith};
ghost use Rattle.fb_model.specs.System as book;
ghost use Rattle.fb_model.specs.Wires.{Leaf};
ghost use Rattle.fb_model.specs.Names.{Name};
ghost use Rattle.fb_model.specs.Ranges.{Range};
ghost use Rattle.fb_model.specs.Certificates.{all_leaves, Certificate};
ghost use Rattle.fb_model.specs.Demands.{bare_demands, bare_network, Demand, IsMet, Node};
ghost use Rattle.fb_model.specs.Columns.{demands, network_demands};
ghost use Rattle.fb_find_graph.specs.Systems.{IsLeast, System};
ghost use Rattle.fb_find_laws.specs.Numbered.{AreLeast, AreNumbers, AreOf, SaysSame};
ghost use Rattle.fb_find_laws.specs.Finding.{IsMade};
ghost use Rattle.fb_model.specs.Finding.{IsFound};
ghost use Rattle.fb_find_laws.specs.Nodes.{by_number, capped_demand, number, nodes_of, AreGrouped, AreRowsOf};

/// The nodes of rows have the numbers of their places in the list.
pub fn rows_are_numbers()
    ensures { (repeats : Option ℕ) (all : List Leaf) (states events : List Name) (channels : List ℕ) → AreRowsOf repeats all states events channels → AreNumbers (nodes_of states events channels) (number states events channels) }
{}

/// All demands of a system are of nodes that have rows, and ask for such.
pub fn demands_are_of_nodes()
    ensures { (library : List BlockTree) (source : SourceTree) (system : book.System) (repeats : Option ℕ) (states events : List Name) (channels : List ℕ) → ElaboratesWith library source system → AreRowsOf repeats (all_leaves system.devices) states events channels
        → AreOf (nodes_of states events channels) (bare_demands (all_leaves system.devices)) × ((unit : ℕ) (ranges : List Range) → AreOf (nodes_of states events channels) (demands unit ranges (all_leaves system.devices))) }
{}

/// With a row REPEATS those of the network are so too.
pub fn network_demands_are_of_nodes()
    ensures { (library : List BlockTree) (source : SourceTree) (system : book.System) (repeats : ℕ) (states events : List Name) (channels : List ℕ) → ElaboratesWith library source system → AreRowsOf (Some repeats) (all_leaves system.devices) states events channels
        → AreOf (nodes_of states events channels) (bare_network (all_leaves system.devices)) × ((ranges : List Range) → AreOf (nodes_of states events channels) (network_demands repeats ranges (all_leaves system.devices))) }
{}

/// Demands by numbers, put together place by place, say what the demands say, but for constants above all rows.
pub fn groups_say_same()
    ensures { (nodes : List Node) (ds : List Demand) (number : Node → ℕ) (system : System) → AreNumbers nodes number → AreOf nodes ds → AreGrouped (length nodes) (map (by_number number) ds) system → SaysSame (map capped_demand ds) number system }
{}

/// Least numbers of places are least numbers of nodes, where none is above all rows.
pub fn small_numbers_are_least()
    ensures { (nodes : List Node) (ds : List Demand) (number : Node → ℕ) (system : System) (y : ℕ → ℕ) → AreNumbers nodes number → AreOf nodes ds → AreGrouped (length nodes) (map (by_number number) ds) system → IsLeast system y
        → ((p : ℕ) → p < length nodes → y p ≤ 1000000000000) → AreLeast nodes ds (λ v. y (number v)) }
{}

/// And where one is above a limit, it is so in all numbers that meet the demands.
pub fn great_numbers_are_needed()
    ensures { (nodes : List Node) (ds : List Demand) (number : Node → ℕ) (system : System) (y : ℕ → ℕ) (v : Node) (limit : ℕ) → AreNumbers nodes number → AreOf nodes ds → AreGrouped (length nodes) (map (by_number number) ds) system → IsLeast system y
        → Contains nodes v → limit < y (number v) → (x : Node → ℕ) → AllByRecursion (IsMet x) ds → limit < x v }
{}

/// What is made of least numbers and depths, under ranges that are found, is a certificate as the finder owes it: it fits, and is the least.
pub fn made_certificates_are_found()
    ensures { (repeats : Option ℕ) (system : book.System) (states events : List Name) (channels : List ℕ) (cert : Certificate) → AreRowsOf repeats (all_leaves system.devices) states events channels → IsMade repeats system states events channels cert → IsFound repeats system cert }
{}
