//! The names of a system that stands in texts are words in capitals.

ghost use Rattle.std.specs.Prelude.{ℕ, List};
ghost use Rattle.std.specs.List.{AllByRecursion};
ghost use Rattle.fb_model.specs.Tokens.{Token};
ghost use Rattle.fb_model.specs.Spelling.{Spells};
ghost use Rattle.fb_model.specs.StructuredTextGrammar.{IsExpression, IsAlgorithm};
ghost use Rattle.fb_model.specs.Declarations.{SourceTree};
ghost use Rattle.fb_model.specs.DeclarationGrammar.{IsFile};
ghost use Rattle.fb_model.specs.NetworkTyping.{ElaboratesWith};
ghost use Rattle.fb_model.specs.System.{System};
ghost use Rattle.fb_model_laws.specs.Words.{IsWordyDevice, IsCapitalDevice};

/// The names of a system that stands in texts, its own and that of the event blocks declared beforehand, are words.
pub fn names_are_words()
    ensures { (before text : List ℕ) (ts us : List Token) (n k m l : ℕ) (library source : SourceTree) (system : System)
        → Spells 0 before ts → IsFile (IsExpression n) (IsAlgorithm n k) ts library → Spells 0 text us → IsFile (IsExpression m) (IsAlgorithm m l) us source
        → ElaboratesWith library.blocks source system → AllByRecursion IsWordyDevice system.devices }
{}

/// They are in capitals too: upper case leaves each of them as it is.
pub fn names_are_capitals()
    ensures { (before text : List ℕ) (ts us : List Token) (n k m l : ℕ) (library source : SourceTree) (system : System)
        → Spells 0 before ts → IsFile (IsExpression n) (IsAlgorithm n k) ts library → Spells 0 text us → IsFile (IsExpression m) (IsAlgorithm m l) us source
        → ElaboratesWith library.blocks source system → AllByRecursion IsCapitalDevice system.devices }
{}
