//! What systems and refusals are, over the definitions alone.

ghost use Rattle.std.specs.Prelude.{◌≡◌, List};
ghost use Rattle.fb_model.specs.Declarations.{BlockTree, SourceTree};
ghost use Rattle.fb_model.specs.System as book;
ghost use Rattle.fb_model.specs.NetworkTyping.{ElaboratesWith};
ghost use Rattle.fb_model.specs.EventBlocks.{AreEventBlocks, Elaborates};
ghost use Rattle.fb_faults.specs.declared.typing.TypeFault.{TypeFault};
ghost use Rattle.fb_faults.specs.declared.typing.TypeFault.TheVariants.{OutOfMemory};
ghost use Rattle.fb_model.specs.SourceFaults.{IsSourceFault};
ghost use Rattle.fb_model.specs.SourceFaults.{IsRefused};

/// A source is one system at most.
pub fn one_system()
    ensures with { (library : List BlockTree) (source : SourceTree) (s t : book.System) → ElaboratesWith library source s → ElaboratesWith library source t → s ≡ t }
    ensures beforehand { (source : SourceTree) (s t : book.System) → Elaborates source s → Elaborates source t → s ≡ t }
{}

/// Whichever declarations of the event blocks are beforehand, a source is the same system with them.
pub fn event_blocks_are_alike()
    ensures { (library : List BlockTree) (source : SourceTree) (s : book.System) → AreEventBlocks library → Elaborates source s → ElaboratesWith library source s }
{}

/// What is well typed has no fault that a refusal could name, unless it is that memory ran out.
pub fn refusals_are_true()
    ensures with { (library : List BlockTree) (source : SourceTree) (s : book.System) (f : TypeFault) → ElaboratesWith library source s → IsSourceFault library source f → f ≡ OutOfMemory }
    ensures beforehand { (source : SourceTree) (s : book.System) (f : TypeFault) → Elaborates source s → IsRefused source f → f ≡ OutOfMemory }
{}
