//! Event connections.

ghost use Rattle.std.specs.Prelude.{◌≡◌, List, map, IfOk, IfErr};
ghost use Rattle.fb_model.specs.NetworkTyping.{IsEventConnection, AreEventConnections, passes};
ghost use Rattle.fb_model.specs.System as book;
ghost use Rattle.fb_tree.specs.Files as trees_of;
ghost use Rattle.fb_types_blocks.specs.Views.{face_of};
ghost use Rattle.fb_types_networks.specs.Views.{names_of, end_of, connection_of};
ghost use Rattle.fb_types_networks.specs.Answers.{Finds};
ghost use Rattle.fb_types_networks.specs.Ends.{inner_of, IsTabled};
ghost use Rattle.fb_model.specs.NetworkFaults.{Among, IsEventFault};

use crate::end::Site;
use crate::typed::{Connection, End};
use fb_faults::TypeFault;
use fb_tree::ConnectionTree;
use fb_words::Way;
use std::alloc::Global;

/// Whether a connection goes from an own port to an own port.
pub fn passes(source: &End, target: &End) -> bool
    ensures { result ≡ passes (end_of source.now) (end_of target.now) }
{
    source.instance.is_none() && target.instance.is_none()
}

// A connection from an event source to an event target.
fn event(site: &Site, tree: &ConnectionTree) -> Result<Connection, TypeFault>
    ensures typed { IsTabled (names_of site.now.names.now) site.now.instances.now → IfOk result (λ c. IsEventConnection (face_of site.now.face.now) (inner_of site.now.instances.now) (trees_of.connection_of tree.now) (connection_of c)) }
    ensures refused { IsTabled (names_of site.now.names.now) site.now.instances.now → IfErr result (IsEventFault (face_of site.now.face.now) (inner_of site.now.instances.now) (trees_of.connection_of tree.now)) }
{
    let (source, _) = site.end(Way::EventSource, tree.at, &tree.source)?;
    let (target, _) = site.end(Way::EventTarget, tree.at, &tree.target)?;
    if passes(&source, &target) {
        return Err(TypeFault::BadConnection(tree.at));
    }
    Ok(Connection { source, target })
}

// The event connections, one after another.
fn each_event(
    alloc: Global,
    site: &Site,
    trees: &[ConnectionTree],
) -> Result<Vec<Connection>, TypeFault>
    ensures typed { IsTabled (names_of site.now.names.now) site.now.instances.now → IfOk result (λ v. AreEventConnections (face_of site.now.face.now) (inner_of site.now.instances.now) (map trees_of.connection_of trees.now) (map connection_of v.items)) }
    ensures refused { IsTabled (names_of site.now.names.now) site.now.instances.now → IfErr result (Among (IsEventFault (face_of site.now.face.now) (inner_of site.now.instances.now)) (map trees_of.connection_of trees.now)) }
{
    let mut connections = Vec::new(alloc);
    for tree in trees {
        connections.push(event(site, tree)?)?;
    }
    Ok(connections)
}

/// The event connections of a network, in text order. The table has the instances' names in order.
///
/// Refused with `UnknownName` at a name that is no instance or no port, and with `BadConnection` at the TO where a port goes the other
/// way or carries values, and where both ends are own ports.
pub fn events(
    alloc: Global,
    site: &Site,
    trees: &[ConnectionTree],
) -> Result<Vec<Connection>, TypeFault>
    ensures typed { IsTabled (names_of site.now.names.now) site.now.instances.now → IfOk result (λ v. AreEventConnections (face_of site.now.face.now) (inner_of site.now.instances.now) (map trees_of.connection_of trees.now) (map connection_of v.items)) }
    ensures refused { IsTabled (names_of site.now.names.now) site.now.instances.now → IfErr result (Among (IsEventFault (face_of site.now.face.now) (inner_of site.now.instances.now)) (map trees_of.connection_of trees.now)) }
    ensures only { IsTabled (names_of site.now.names.now) site.now.instances.now → (ds : List book.Connection) → AreEventConnections (face_of site.now.face.now) (inner_of site.now.instances.now) (map trees_of.connection_of trees.now) ds → Finds (λ v. map connection_of v.items) result ds }
{
    each_event(alloc, site, trees)
}
