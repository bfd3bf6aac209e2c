//! Data connections.

ghost use Rattle.std.specs.Prelude.{◌≡◌, List, ◌⊎◌, ◌++◌, ◌∷◌, [], map, not, cond, true, false, IfOk, IfErr};
ghost use Rattle.fb_model.specs.System as book;
ghost use Rattle.fb_model.specs.NetworkTyping.{IsValueConnection, AreValueConnections, is_taken};
ghost use Rattle.fb_tree.specs.Files as trees_of;
ghost use Rattle.fb_types_blocks.specs.Views.{face_of};
ghost use Rattle.fb_types_networks.specs.Views.{names_of, end_of, connection_of};
ghost use Rattle.fb_types_networks.specs.Answers.{Finds};
ghost use Rattle.fb_types_networks.specs.Ends.{inner_of, IsTabled, ends_of, carries_to};
ghost use Rattle.fb_faults.specs.declared.typing.TypeFault.TheVariants.{OutOfMemory};
ghost use Rattle.fb_model.specs.NetworkFaults.{IsValueFault, IsValuesFault};

use crate::end::Site;
use crate::event::passes;
use crate::typed::{Connection, End};
use fb_faults::TypeFault;
use fb_tree::ConnectionTree;
use fb_words::{Carried, Way};
use indexmap::IndexSet;
use st_types::widens;
use std::alloc::{AllocError, Global};

/// Ends that have a value.
pub type Taken = IndexSet<End>;

// A copy of an end.
fn copy(end: &End) -> Result<End, AllocError>
    ensures { IfOk result (λ e. end_of e ≡ end_of end.now) }
{
    let instance = match &end.instance {
        Some(name) => Some(name.clone()?),
        None => None,
    };
    let port = end.port.clone()?;
    Ok(End { instance, port })
}

/// Adds an end, and says whether it had no value before.
pub fn take(taken: &mut Taken, end: &End) -> Result<bool, AllocError>
    ensures added { IfOk result (λ added. added ≡ not (is_taken (ends_of taken.old) (end_of end.now))) }
    ensures ends { IfOk result (λ added. ends_of taken.new ≡ cond added (ends_of taken.old ++ end_of end.now ∷ []) (ends_of taken.old)) }
{
    Ok(taken.insert(copy(end)?)?)
}

// Whether a value of a source may go to a target.
fn fits(given: Carried, taken: Carried) -> bool
    ensures { result ≡ carries_to given taken }
{
    match (given, taken) {
        (Carried::Values(from), Carried::Values(to)) => widens(from, to),
        _ => true,
    }
}

// A connection from a data source to a data target, which gets its value by it.
fn value(site: &Site, taken: &mut Taken, tree: &ConnectionTree) -> Result<Connection, TypeFault>
    ensures typed { IsTabled (names_of site.now.names.now) site.now.instances.now → IfOk result (λ c. IsValueConnection (face_of site.now.face.now) (inner_of site.now.instances.now) (trees_of.connection_of tree.now) (connection_of c) × (is_taken (ends_of taken.old) (end_of c.target) ≡ false) × (ends_of taken.new ≡ ends_of taken.old ++ end_of c.target ∷ [])) }
    ensures refused { IsTabled (names_of site.now.names.now) site.now.instances.now → IfErr result (IsValueFault (face_of site.now.face.now) (inner_of site.now.instances.now) (ends_of taken.old) (trees_of.connection_of tree.now)) }
{
    let (source, given) = site.end(Way::ValueSource, tree.at, &tree.source)?;
    let (target, wanted) = site.end(Way::ValueTarget, tree.at, &tree.target)?;
    if passes(&source, &target) {
        return Err(TypeFault::BadConnection(tree.at));
    }
    if !fits(given, wanted) {
        return Err(TypeFault::TypeMismatch(tree.at));
    }
    if !take(taken, &target)? {
        return Err(TypeFault::TwoSources(tree.at));
    }
    Ok(Connection { source, target })
}

// The data connections, one after another.
fn each_value(
    alloc: Global,
    site: &Site,
    taken: &mut Taken,
    trees: &[ConnectionTree],
) -> Result<Vec<Connection>, TypeFault>
    ensures typed { IsTabled (names_of site.now.names.now) site.now.instances.now → IfOk result (λ v. AreValueConnections (face_of site.now.face.now) (inner_of site.now.instances.now) (ends_of taken.old) (map trees_of.connection_of trees.now) (map connection_of v.items)) }
    ensures refused { IsTabled (names_of site.now.names.now) site.now.instances.now → IfErr result (λ w. (w ≡ OutOfMemory) ⊎ IsValuesFault (face_of site.now.face.now) (inner_of site.now.instances.now) (ends_of taken.old) (map trees_of.connection_of trees.now) w) }
{
    let mut connections = Vec::new(alloc);
    for tree in trees {
        connections.push(value(site, taken, tree)?)?;
    }
    Ok(connections)
}

/// The data connections of a network, in text order, where these ends have a value already. The table has the instances' names in order.
///
/// Refused as events are; and at the TO with `TypeMismatch` where the target's type does not hold all values of the source's, and with
/// `TwoSources` where the target has a value already.
pub fn values(
    alloc: Global,
    site: &Site,
    taken: &mut Taken,
    trees: &[ConnectionTree],
) -> Result<Vec<Connection>, TypeFault>
    ensures typed { IsTabled (names_of site.now.names.now) site.now.instances.now → IfOk result (λ v. AreValueConnections (face_of site.now.face.now) (inner_of site.now.instances.now) (ends_of taken.old) (map trees_of.connection_of trees.now) (map connection_of v.items)) }
    ensures refused { IsTabled (names_of site.now.names.now) site.now.instances.now → IfErr result (λ w. (w ≡ OutOfMemory) ⊎ IsValuesFault (face_of site.now.face.now) (inner_of site.now.instances.now) (ends_of taken.old) (map trees_of.connection_of trees.now) w) }
    ensures only { IsTabled (names_of site.now.names.now) site.now.instances.now → (ds : List book.Connection) → AreValueConnections (face_of site.now.face.now) (inner_of site.now.instances.now) (ends_of taken.old) (map trees_of.connection_of trees.now) ds → Finds (λ v. map connection_of v.items) result ds }
{
    each_value(alloc, site, taken, trees)
}
