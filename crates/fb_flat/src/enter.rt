//! Where event inputs lead.

ghost use Rattle.std.specs.Prelude.{◌≡◌, ◌+◌, ◌<◌, ◌++◌, [], None, OnOk, IfErr, string_bytes};
ghost use Rattle.fb_model.specs.Wires.{entered, entered_in, followed, enter_count, enter_count_in, follow_count};
ghost use Rattle.fb_types_networks.specs.Views.{body_of};
ghost use Rattle.fb_types_networks.specs.declared.typed.Body.{out-Body};
ghost use Rattle.fb_flat.specs.Indexes.{IsInside};
ghost use Rattle.fb_flat.specs.Sites.{path_of, inner_of, events_in};
ghost use Rattle.fb_flat.specs.Walks.{reached, spots_of, IsStop};

use crate::lookup::{Indexed, Inside, leaving};
use crate::site::Trail;
use crate::walk::{Stop, Walk, is_own, reach, step};
use fb_types_networks::Instance;
use std::alloc::Global;

/// Adds the event inputs of leaves that an event input of an instance leads to, on the trail of the instance.
#[cycle(entering)]
fn enter(
    instance: &Instance,
    inside: &Inside,
    port: &str,
    trail: &Trail,
    walk: &mut Walk,
    alloc: Global,
) -> Result<(), Stop>
    requires { IsInside (out-Body instance.now.body) inside.now }
    ensures reached { OnOk result (reached walk.new ≡ reached walk.old ++ spots_of (entered (body_of instance.now.body) (path_of trail.now) port.now)) }
    ensures counted { OnOk result (walk.new.left + enter_count (body_of instance.now.body) port.now ≡ walk.old.left) }
    ensures refused { IfErr result (IsStop (walk.old.left < enter_count (body_of instance.now.body) port.now)) }
{
    match inside {
        Inside::Leaf => reach(walk, trail, port, alloc),
        Inside::Composite(_, indexed) => pass(indexed, port, trail, walk, alloc),
    }
}

// Adds those that an event input of a composite leads to, by the connections inside.
#[cycle(entering)]
fn pass(
    indexed: &Indexed,
    port: &str,
    trail: &Trail,
    walk: &mut Walk,
    alloc: Global,
) -> Result<(), Stop>
    ensures reached { OnOk result (reached walk.new ≡ reached walk.old ++ spots_of (followed (events_in indexed.now) None port.now (entered_in (inner_of indexed.now) (path_of trail.now)) (λ o. []))) }
    ensures counted { OnOk result (walk.new.left + follow_count (events_in indexed.now) None port.now (enter_count_in (inner_of indexed.now)) (λ o. 0) ≡ walk.old.left) }
    ensures refused { IfErr result (IsStop (walk.old.left < follow_count (events_in indexed.now) None port.now (enter_count_in (inner_of indexed.now)) (λ o. 0))) }
{
    match leaving(alloc, indexed, None, port)? {
        None => Ok(()),
        Some(connections) => {
            for connection in connections {
                if is_own(&connection.source, port) {
                    step(walk)?;
                    match &connection.target.instance {
                        None => {}
                        Some(name) => enter_named(
                            indexed,
                            name.as_str(),
                            connection.target.port.as_str(),
                            trail,
                            walk,
                            alloc,
                        )?,
                    }
                }
            }
            Ok(())
        }
    }
}

/// Adds those that an event input of the first instance of a name leads to, on the trail of the network.
#[cycle(entering)]
pub fn enter_named(
    indexed: &Indexed,
    name: &str,
    port: &str,
    trail: &Trail,
    walk: &mut Walk,
    alloc: Global,
) -> Result<(), Stop>
    ensures reached { OnOk result (reached walk.new ≡ reached walk.old ++ spots_of (entered_in (inner_of indexed.now) (path_of trail.now) name.now port.now)) }
    ensures counted { OnOk result (walk.new.left + enter_count_in (inner_of indexed.now) name.now port.now ≡ walk.old.left) }
    ensures refused { IfErr result (IsStop (walk.old.left < enter_count_in (inner_of indexed.now) name.now port.now)) }
{
    match indexed.position(name) {
        None => Ok(()),
        Some(position) => {
            let instance = &indexed.instances()[position];
            let trail = Trail::Inside(instance.name.as_str(), &*trail);
            enter(
                instance,
                indexed.inside(position),
                port,
                &trail,
                walk,
                alloc,
            )
        }
    }
}
