//! What holds data inputs from around.

ghost use Rattle.std.specs.Prelude.{◌≡◌, IfOk};
ghost use Rattle.fb_flat.specs.Sources.{written_source, source_of};
ghost use Rattle.fb_flat.specs.Leaves.{held_by};

use crate::constant::given;
use crate::flat::Source;
use crate::give::give_named;
use crate::lookup::arriving;
use crate::site::Around;
use crate::walk::is_port;
use std::alloc::{AllocError, Global};

/// Where the value of a data input of a body comes from.
pub fn hold(around: &Around, port: &str, alloc: Global) -> Result<Source, AllocError>
    ensures { IfOk result (λ s. source_of s ≡ written_source (held_by around.now port.now)) }
{
    match around {
        Around::Nothing => Ok(Source::Number(0)),
        Around::Level(indexed, instance, trail, outer) => {
            match arriving(alloc, *indexed, Some(instance.name.as_str()), port)? {
                None => Ok(given(*instance, port)),
                Some(connections) => {
                    for connection in connections {
                        if is_port(&connection.target, instance.name.as_str(), port) {
                            let from = connection.source.port.as_str();
                            return match &connection.source.instance {
                                None => hold(*outer, from, alloc),
                                Some(name) => {
                                    give_named(*indexed, name.as_str(), from, *trail, alloc)
                                }
                            };
                        }
                    }
                    Ok(given(*instance, port))
                }
            }
        }
    }
}
