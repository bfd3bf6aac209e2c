//! What typed blocks and refusals are, over the definitions alone.

ghost use Rattle.std.specs.Prelude.{◌≡◌, ℕ, ℤ, List};
ghost use Rattle.fb_words.specs.declared.elem_type.ElemType.{ElemType};
ghost use Rattle.fb_model.specs.System as book;
ghost use Rattle.fb_model.specs.Trees.{Constant};
ghost use Rattle.fb_model.specs.Declarations.{BlockTree, ChartTree};
ghost use Rattle.fb_model.specs.BlockTyping.{Declared, IsGiven, IsFace, IsBasic, face_names};
ghost use Rattle.fb_model.specs.Typing.{AreDistinct};
ghost use Rattle.fb_faults.specs.declared.typing.TypeFault.{TypeFault};
ghost use Rattle.fb_faults.specs.declared.typing.TypeFault.TheVariants.{OutOfMemory};
ghost use Rattle.fb_model.specs.BlockFaults.{IsMisgiven, IsFaceFault, IsBasicFault};

/// An interface has one typed form at most.
pub fn one_face()
    ensures inputs { (b : BlockTree) (ins outs jns kuts : List Declared) (f g : book.Face) → IsFace b ins outs f → IsFace b jns kuts g → ins ≡ jns }
    ensures outputs { (b : BlockTree) (ins outs jns kuts : List Declared) (f g : book.Face) → IsFace b ins outs f → IsFace b jns kuts g → outs ≡ kuts }
    ensures face { (b : BlockTree) (ins outs jns kuts : List Declared) (f g : book.Face) → IsFace b ins outs f → IsFace b jns kuts g → f ≡ g }
{}

/// A basic block has one typed form at most.
pub fn one_block()
    ensures { (b : BlockTree) (c : ChartTree) (k j : book.Block) → IsBasic b c k → IsBasic b c j → k ≡ j }
{}

/// What is well typed has no fault that a refusal could name, unless it is that memory ran out.
pub fn refusals_are_true()
    ensures constants { (a : ElemType) (at : ℕ) (c : Constant) (n : ℤ) (f : TypeFault) → IsGiven a c n → IsMisgiven a at c f → ⊥ }
    ensures faces { (b : BlockTree) (ins outs : List Declared) (g : book.Face) (f : TypeFault) → IsFace b ins outs g → AreDistinct (face_names b ins outs) → IsFaceFault b f → (f ≡ OutOfMemory → ⊥) → ⊥ }
    ensures blocks { (b : BlockTree) (c : ChartTree) (k : book.Block) (f : TypeFault) → IsBasic b c k → IsBasicFault b c f → (f ≡ OutOfMemory → ⊥) → ⊥ }
{}
