//! Looks at what a world holds.

use fb_device::{Condition, Store};
use fb_world::World;
use fbr_story::{Looked, Variable};

// The value that a variable has in the store of its block.
fn value_in(store: &Store, variable: &Variable<'_>) -> Option<i64> {
    let location = store.layout().location(variable.name.as_str())?;
    let before = usize::try_from(variable.before).ok()?;
    Some(store.number(location.first.saturating_add(before)))
}

// The value that a variable has.
fn value_of(world: &World, variable: &Variable<'_>) -> Option<i64> {
    let device = world.get(variable.place.device)?;
    match device.look_at(variable.place.block) {
        Some(look) => value_in(look.own, variable),
        None => None,
    }
}

// The number of the state in which a block is.
fn state_of(world: &World, device: u16, block: u16) -> Option<u16> {
    let device = world.get(device)?;
    match device.look_at(block) {
        Some(look) => match look.condition {
            Condition::State(state) => Some(state),
            Condition::Service(_) => None,
        },
        None => None,
    }
}

// How many entries are pending.
fn pending_in(world: &World, device: u16, resource: u16) -> Option<u64> {
    let device = world.get(device)?;
    match device.fill_of(resource) {
        Some(fill) => u64::try_from(fill.pending).ok(),
        None => None,
    }
}

/// What was found there: a value, the number of a state, or how many entries are pending.
#[derive(Clone, Copy)]
pub(crate) enum Finding {
    Value(i64),
    State(u16),
    Pending(u64),
}

/// What is found there.
pub(crate) fn look(world: &World, looked: &Looked<'_>) -> Option<Finding> {
    match looked {
        Looked::Value(variable, _) => Some(Finding::Value(value_of(world, variable)?)),
        Looked::State(place, _, _) => {
            Some(Finding::State(state_of(world, place.device, place.block)?))
        }
        Looked::Queue(device, resource, _) => {
            Some(Finding::Pending(pending_in(world, *device, *resource)?))
        }
    }
}

/// Whether what is found there is what is expected.
pub(crate) fn is_expected(looked: &Looked<'_>, finding: Finding) -> bool {
    match (looked, finding) {
        (Looked::Value(_, wanted), Finding::Value(value)) => *wanted == value,
        (Looked::State(_, _, wanted), Finding::State(state)) => *wanted == state,
        (Looked::Queue(_, _, wanted), Finding::Pending(count)) => *wanted == count,
        _ => false,
    }
}
