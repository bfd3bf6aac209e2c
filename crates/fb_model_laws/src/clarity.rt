//! Laws about systems that stand in texts: where all is clear under the rows, leaves keep these, and where a certificate fits, each device holds.

ghost use Rattle.std.specs.Prelude.{ℕ, List};
ghost use Rattle.std.specs.List.{AllByRecursion};
ghost use Rattle.fb_model.specs.Tokens.{Token};
ghost use Rattle.fb_model.specs.StructuredTextGrammar.{IsExpression, IsAlgorithm};
ghost use Rattle.fb_model.specs.Declarations.{SourceTree};
ghost use Rattle.fb_model.specs.DeclarationGrammar.{IsFile};
ghost use Rattle.fb_model.specs.NetworkTyping.{ElaboratesWith};
ghost use Rattle.fb_model.specs.System.{Device, System};
ghost use Rattle.fb_model.specs.Wires.{leaves};
ghost use Rattle.fb_model.specs.Ranges.{Range, LeafLies, LeafClears};
ghost use Rattle.fb_model.specs.Certificates.{Certificate, Fits, DeviceHolds};

/// In a system that stands in texts, whose rows lie in the types of their variables and hold what these begin with and what inputs take, and
/// whose algorithms and guards are all clear under the rows, every leaf keeps its values in the rows, whatever happens: no algorithm and no
/// guard traps, and no algorithm takes more steps than it costs.
pub fn clear_systems_lie()
    ensures { (ts us : List Token) (n k m l : ℕ) (library source : SourceTree) (system : System)
        → IsFile (IsExpression n) (IsAlgorithm n k) ts library → IsFile (IsExpression m) (IsAlgorithm m l) us source → ElaboratesWith library.blocks source system
        → (ranges : List Range) → AllByRecursion (λ (d : Device). AllByRecursion (LeafClears ranges (leaves d)) (leaves d)) system.devices → AllByRecursion (λ (d : Device). AllByRecursion (LeafLies ranges (leaves d)) (leaves d)) system.devices }
{}

/// Where a certificate fits a system that stands in texts, each device holds: its leaves are found by their paths, their outputs lead to event
/// inputs, their numbers and value types have room in messages, they keep their values in the rows, whatever happens, and the certificate pays for
/// them.
pub fn fitting_devices_hold()
    ensures { (ts us : List Token) (n k m l : ℕ) (library source : SourceTree) (system : System)
        → IsFile (IsExpression n) (IsAlgorithm n k) ts library → IsFile (IsExpression m) (IsAlgorithm m l) us source → ElaboratesWith library.blocks source system
        → (cert : Certificate) → Fits system cert → AllByRecursion (DeviceHolds cert) system.devices }
{}
