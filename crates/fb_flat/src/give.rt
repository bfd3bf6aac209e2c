//! What data outputs hold.

ghost use Rattle.std.specs.Prelude.{◌≡◌, None, [], IfOk};
ghost use Rattle.fb_model.specs.System.{constant};
ghost use Rattle.fb_model.specs.Wires.{Output_of, Constant, fed, given_by, given_in};
ghost use Rattle.fb_types_blocks.specs.Views.{variables_of};
ghost use Rattle.fb_types_networks.specs.Views.{body_of};
ghost use Rattle.fb_types_networks.specs.declared.typed.Body.{out-Body};
ghost use Rattle.fb_flat.specs.Indexes.{IsInside};
ghost use Rattle.fb_flat.specs.Sites.{path_of, inner_of};
ghost use Rattle.fb_flat.specs.Sources.{written_source, source_of};
ghost use Rattle.fb_flat.specs.Leaves.{values_in};

use crate::constant::start;
use crate::flat::Source;
use crate::lookup::{Indexed, Inside, arriving};
use crate::site::{Trail, text};
use crate::walk::is_own;
use fb_types_blocks::Face;
use fb_types_networks::Instance;
use std::alloc::{AllocError, Global};

// A data output of the leaf on a trail.
fn own(trail: &Trail, port: &str, alloc: Global) -> Result<Source, AllocError>
    ensures { IfOk result (λ s. source_of s ≡ written_source (Output_of (path_of trail.now) port.now)) }
{
    let path = text(trail, alloc)?;
    let name = String::from_str(alloc, port)?;
    Ok(Source::Output(path, name))
}

/// What a data output of an instance holds, on the trail of the instance.
#[cycle(giving)]
fn give(
    instance: &Instance,
    inside: &Inside,
    port: &str,
    trail: &Trail,
    alloc: Global,
) -> Result<Source, AllocError>
    requires { IsInside (out-Body instance.now.body) inside.now }
    ensures { IfOk result (λ s. source_of s ≡ written_source (given_by (body_of instance.now.body) (path_of trail.now) port.now)) }
{
    match inside {
        Inside::Leaf => own(trail, port, alloc),
        Inside::Composite(face, indexed) => pass(*face, indexed, port, trail, alloc),
    }
}

// What a data output of a composite holds, by the connections inside.
#[cycle(giving)]
fn pass(
    face: &Face,
    indexed: &Indexed,
    port: &str,
    trail: &Trail,
    alloc: Global,
) -> Result<Source, AllocError>
    ensures { IfOk result (λ s. source_of s ≡ written_source (fed (values_in indexed.now) None port.now (given_in (inner_of indexed.now) (path_of trail.now)) (λ i. Constant (constant [] (variables_of face.now.inputs) i)) (Constant (constant [] (variables_of face.now.outputs) port.now)))) }
{
    match arriving(alloc, indexed, None, port)? {
        None => Ok(start(&face.outputs, port)),
        Some(connections) => {
            for connection in connections {
                if is_own(&connection.target, port) {
                    let from = connection.source.port.as_str();
                    return match &connection.source.instance {
                        None => Ok(start(&face.inputs, from)),
                        Some(name) => give_named(indexed, name.as_str(), from, trail, alloc),
                    };
                }
            }
            Ok(start(&face.outputs, port))
        }
    }
}

/// What a data output of the first instance of a name holds, on the trail of the network.
#[cycle(giving)]
pub fn give_named(
    indexed: &Indexed,
    name: &str,
    port: &str,
    trail: &Trail,
    alloc: Global,
) -> Result<Source, AllocError>
    ensures { IfOk result (λ s. source_of s ≡ written_source (given_in (inner_of indexed.now) (path_of trail.now) name.now port.now)) }
{
    match indexed.position(name) {
        None => Ok(Source::Number(0)),
        Some(position) => {
            let instance = &indexed.instances()[position];
            let trail = Trail::Inside(instance.name.as_str(), &*trail);
            give(instance, indexed.inside(position), port, &trail, alloc)
        }
    }
}
