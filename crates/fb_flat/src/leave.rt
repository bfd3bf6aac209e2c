//! Where event outputs lead.

ghost use Rattle.std.specs.Prelude.{◌≡◌, ◌+◌, ◌<◌, ◌++◌, OnOk, IfErr};
ghost use Rattle.fb_flat.specs.Sites.{left_by, left_count};
ghost use Rattle.fb_flat.specs.Walks.{reached, spots_of, IsStop};

use crate::enter::enter_named;
use crate::lookup::leaving;
use crate::site::Around;
use crate::walk::{Stop, Walk, is_port, step};
use std::alloc::Global;

/// Adds the event inputs of leaves that an event output of a body leads to.
pub fn leave(around: &Around, port: &str, walk: &mut Walk, alloc: Global) -> Result<(), Stop>
    ensures reached { OnOk result (reached walk.new ≡ reached walk.old ++ spots_of (left_by around.now port.now)) }
    ensures counted { OnOk result (walk.new.left + left_count around.now port.now ≡ walk.old.left) }
    ensures refused { IfErr result (IsStop (walk.old.left < left_count around.now port.now)) }
{
    match around {
        Around::Nothing => Ok(()),
        Around::Level(indexed, instance, trail, outer) => {
            match leaving(alloc, *indexed, Some(instance.name.as_str()), port)? {
                None => Ok(()),
                Some(connections) => {
                    for connection in connections {
                        if is_port(&connection.source, instance.name.as_str(), port) {
                            step(walk)?;
                            let port = connection.target.port.as_str();
                            match &connection.target.instance {
                                None => leave(*outer, port, walk, alloc)?,
                                Some(name) => enter_named(
                                    *indexed,
                                    name.as_str(),
                                    port,
                                    *trail,
                                    walk,
                                    alloc,
                                )?,
                            }
                        }
                    }
                    Ok(())
                }
            }
        }
    }
}
