//! What is followed so far.

ghost use Rattle.std.specs.Prelude.{◌≡◌, ◌+◌, ◌<◌, ◌∷◌, ◌++◌, [], suc, None, Some, OnOk, IfErr, map};
ghost use Rattle.fb_model.specs.Wires.{is_end};
ghost use Rattle.fb_types_networks.specs.Views.{end_of};
ghost use Rattle.fb_flat.specs.Sites.{path_of, text_of};
ghost use Rattle.fb_flat.specs.Walks.{reached, IsStop};

use crate::flat::Target;
use crate::site::{Trail, text};
use fb_types_networks::End;
use std::alloc::{AllocError, AllocFailed, Global};

/// Why connections are followed no further.
#[derive(Drop)]
pub enum Stop {
    /// Memory ran out.
    OutOfMemory,
    /// No more connections may be followed.
    Full,
}

impl From<AllocError> for Stop {
    ghost use Rattle.std.specs.Prelude.{◌≡◌};
    ghost use Rattle.fb_flat.specs.declared.walk.Stop.TheVariants.{OutOfMemory};

    ghost from_gives = { λ _ e. e ≡ OutOfMemory };

    fn from(_: AllocError) -> Stop {
        Stop::OutOfMemory
    }
}

impl<T: Drop> From<AllocFailed<T>> for Stop {
    ghost use Rattle.std.specs.Prelude.{◌≡◌};
    ghost use Rattle.fb_flat.specs.declared.walk.Stop.TheVariants.{OutOfMemory};

    ghost from_gives = { λ _ e. e ≡ OutOfMemory };

    fn from(_: AllocFailed<T>) -> Stop {
        Stop::OutOfMemory
    }
}

/// The targets that are reached so far, and how many connections may still be followed.
#[derive(Drop)]
pub struct Walk {
    pub targets: Vec<Target>,
    pub left: usize,
}

/// Whether an end is this port of the composite itself.
pub fn is_own(end: &End, port: &str) -> bool
    ensures { result ≡ is_end None port.now (end_of end.now) }
{
    end.instance.is_none() && port == end.port.as_str()
}

/// Whether an end is this port of this instance.
pub fn is_port(end: &End, instance: &str, port: &str) -> bool
    ensures { result ≡ is_end (Some instance.now) port.now (end_of end.now) }
{
    match &end.instance {
        None => false,
        Some(name) => instance == name.as_str() && port == end.port.as_str(),
    }
}

/// Adds an event input of the leaf on a trail.
pub fn reach(walk: &mut Walk, trail: &Trail, port: &str, alloc: Global) -> Result<(), Stop>
    ensures reached { OnOk result (reached walk.new ≡ reached walk.old ++ (text_of (path_of trail.now), port.now) ∷ []) }
    ensures counted { walk.new.left ≡ walk.old.left }
    ensures refused { IfErr result (IsStop ⊥) }
{
    let path = text(trail, alloc)?;
    let event = String::from_str(alloc, port)?;
    walk.targets.push(Target { path, event })?;
    Ok(())
}

/// One connection is followed.
pub fn step(walk: &mut Walk) -> Result<(), Stop>
    ensures kept { reached walk.new ≡ reached walk.old }
    ensures counted { OnOk result (suc walk.new.left ≡ walk.old.left) }
    ensures refused { IfErr result (IsStop (walk.old.left ≡ 0)) }
{
    if walk.left == 0 {
        return Err(Stop::Full);
    }
    walk.left -= 1;
    Ok(())
}
