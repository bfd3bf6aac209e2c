//! Declared types that are made.

ghost use Rattle.std.specs.Prelude.{◌≡◌, ℕ, List, string_bytes, OnOk, IfOk, IfSome};
ghost use Rattle.fb_model.specs.Declarations as decl;
ghost use Rattle.fb_types_networks.specs.Views.{body_of};
ghost use Rattle.fb_types.specs.Made.{shape_of, shape_uses, body_uses, IsMemo, IsDone};
ghost use Rattle.fb_types.specs.declared.made.Unmade.TheVariants.{Fault};

use fb_faults::TypeFault;
use fb_tree::BlockTree;
use fb_types_blocks::{Block, Face};
use fb_types_networks::{Body, Network};
use indexmap::IndexMap;
use std::alloc::{AllocError, AllocFailed, Global};
use std::rc::Rc;

/// What the instances of a declared type share.
#[derive(Drop)]
pub(crate) enum Shape {
    /// A basic block.
    Basic(Rc<Block>),
    /// A composite: its interface and what it is made of.
    Composite(Rc<Face>, Rc<Network>),
}

/// A declared type that is made, with how deep composites nest in it.
#[derive(Drop)]
pub(crate) struct Made {
    pub(crate) shape: Shape,
    pub(crate) deep: usize,
}

/// Types that are made, by their names.
pub(crate) type Memo = IndexMap<String, Made>;

/// Why a type is not made.
#[derive(Drop)]
pub(crate) enum Unmade<'a> {
    Fault(TypeFault),
    /// More composites nest in the type than may.
    TooDeep(&'a BlockTree),
}

impl<'a> From<TypeFault> for Unmade<'a> {
    ghost from_gives = { λ f u. u ≡ Fault f };

    fn from(fault: TypeFault) -> Unmade<'a> {
        Unmade::Fault(fault)
    }
}

impl<'a> From<AllocError> for Unmade<'a> {
    ghost use Rattle.fb_faults.specs.declared.typing.TypeFault.TheVariants.{OutOfMemory};

    ghost from_gives = { λ _ u. u ≡ Fault OutOfMemory };

    fn from(_: AllocError) -> Unmade<'a> {
        Unmade::Fault(TypeFault::OutOfMemory)
    }
}

impl<'a, T: Drop> From<AllocFailed<T>> for Unmade<'a> {
    ghost use Rattle.fb_faults.specs.declared.typing.TypeFault.TheVariants.{OutOfMemory};

    ghost from_gives = { λ _ u. u ≡ Fault OutOfMemory };

    fn from(_: AllocFailed<T>) -> Unmade<'a> {
        Unmade::Fault(TypeFault::OutOfMemory)
    }
}

/// A body of this shape.
pub(crate) fn body(shape: &Shape) -> Result<Body, AllocError>
    ensures body { IfOk result (λ b. body_of b ≡ shape_of shape.now) }
    ensures uses { IfOk result (λ b. (at : ℕ) → body_uses b at ≡ shape_uses shape.now) }
{
    match shape {
        Shape::Basic(block) => Ok(Body::Basic(block.clone()?)),
        Shape::Composite(face, network) => Ok(Body::Composite(face.clone()?, network.clone()?)),
    }
}

/// The made type of a name.
pub(crate) fn recall<'m>(memo: &'m Memo, name: &str) -> Option<&'m Made>
    ensures { (bs : List decl.BlockTree) → IsMemo bs memo.now → IfSome result (λ m. IsDone bs name.now m.now) }
{
    memo.get(name)
}

/// Remembers a made type by its name.
pub(crate) fn remember(memo: &mut Memo, name: &String, made: Made) -> Result<(), AllocError>
    ensures { (bs : List decl.BlockTree) → IsMemo bs memo.old → IsDone bs (string_bytes name.now) made → OnOk result (IsMemo bs memo.new) }
{
    memo.insert(name.clone()?, made)?;
    Ok(())
}
