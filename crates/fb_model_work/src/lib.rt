//! Room: book. What a run spends, each primitive at its price: expressions, statements, charts, services and dispatches, and numbers that pay for it.
//! The law holds for every list of prices and every numbers that pay (`AllWorkFits`), least or not, and for each state to which a device comes from its start.
//! Functions have empty bodies: nothing runs.
#![tactic(auto)]

ghost use Rattle.std.specs.Prelude.{ℕ, List};
ghost use Rattle.std.specs.List.{AllByRecursion};
ghost use Rattle.fb_model.specs.Tokens.{Token};
ghost use Rattle.fb_model.specs.StructuredTextGrammar.{IsExpression, IsAlgorithm};
ghost use Rattle.fb_model.specs.Declarations.{SourceTree};
ghost use Rattle.fb_model.specs.DeclarationGrammar.{IsFile};
ghost use Rattle.fb_model.specs.NetworkTyping.{ElaboratesWith};
ghost use Rattle.fb_model.specs.System.{Device, System};
ghost use Rattle.fb_model.specs.Certificates.{Certificate, Fits};
ghost use Rattle.fb_model.specs.Devices.{Machine};
ghost use Rattle.fb_model_turns.specs.Turns.{ComesTo, Counts};
ghost use Rattle.fb_model_work.specs.Spending.{Prices};
ghost use Rattle.fb_model_work.specs.Work.{AllWorkFits, BoundsWork};

/// In a system that stands in texts and that a certificate fits, with any events between, all dispatches that belong to a cause spend together at most what
/// its opening weighs, where the numbers pay.
pub fn work_is_bounded()
    ensures { (ts us : List Token) (n k m l : ℕ) (library source : SourceTree) (system : System)
        → IsFile (IsExpression n) (IsAlgorithm n k) ts library → IsFile (IsExpression m) (IsAlgorithm m l) us source → ElaboratesWith library.blocks source system
        → (cert : Certificate) → Fits system cert → (prices : Prices) (counts : Counts) → AllWorkFits prices cert.ranges counts system
        → AllByRecursion (λ (d : Device). (s : Machine) → ComesTo cert d s → BoundsWork prices counts cert d s) system.devices }
{}
