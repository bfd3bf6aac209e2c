//! Causes that have not ended.

ghost use Rattle.std.specs.Prelude.{◌≡◌, Some, IfSome, IfNone};
ghost use Rattle.slab.specs.Slab.{get, ContainsKey, with_value};
ghost use Rattle.fb_sched.specs.Agenda.{IsNew, IsReactionOf};

use fb_chart::Point;
use slab::Slab;

/// A cause that has not ended: its number, the arrival that opened it, the places of that arrival's WEIGHT row, how many of its entries are pending, and its steps so far.
///
/// `places` counts entries of the resource's queue, and `steps` the steps of the certificate.
#[derive(Clone, Copy)]
pub struct Reaction {
    pub cause: u64,
    pub opening: Point,
    pub places: u64,
    pub pending: usize,
    pub steps: u64,
}

/// The reaction in a slot.
pub(crate) fn reaction_in(reactions: &Slab<Reaction>, slot: usize) -> Reaction
    requires { ContainsKey reactions.now slot }
    ensures { get reactions.now slot ≡ Some result }
{
    match reactions.get(slot) {
        Some(reaction) => *reaction,
        None => unreachable!(),
    }
}

/// Writes the reaction of a slot that holds one.
pub(crate) fn rewrite(reactions: &mut Slab<Reaction>, slot: usize, reaction: Reaction)
    requires { ContainsKey reactions.old slot }
    ensures { reactions.new ≡ with_value reactions.old slot reaction }
{
    match reactions.get_mut(slot) {
        Some(place) => *place = reaction,
        None => unreachable!(),
    }
}

/// The reaction of a cause.
pub(crate) fn find_in(reactions: &Slab<Reaction>, cause: u64) -> Option<Reaction>
    ensures found { IfSome result (IsReactionOf cause reactions.now.slots) }
    ensures none { IfNone result (IsNew cause reactions.now.slots) }
{
    for (_, reaction) in reactions.iter() {
        if reaction.cause == cause {
            return Some(*reaction);
        }
    }
    None
}
