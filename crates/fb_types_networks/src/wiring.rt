//! Networks: what composites and resources are made of.

ghost use Rattle.std.specs.Prelude.{◌≡◌, ◌||◌, List, map, string_bytes, OnOk, IfOk, IfErr};
ghost use Rattle.fb_model.specs.Names.{is_in};
ghost use Rattle.fb_model.specs.System as book;
ghost use Rattle.fb_model.specs.Typing.{AreNew};
ghost use Rattle.fb_model.specs.NetworkTyping.{given_in, instance_texts, is_taken};
ghost use Rattle.fb_tree.specs.Files as trees_of;
ghost use Rattle.fb_types_blocks.specs.Views.{face_of};
ghost use Rattle.fb_model.specs.BlockFaults.{IsRepetition};
ghost use Rattle.fb_types_networks.specs.declared.typed.Network.{out-Network};
ghost use Rattle.fb_types_networks.specs.Views.{names_of, placed_of, connection_of, wired_of};
ghost use Rattle.fb_model.specs.NetworkFaults.{placed_in};
ghost use Rattle.fb_types_networks.specs.Ends.{ends_of};
ghost use Rattle.fb_types_networks.specs.Answers.{AreNamed, IsWired, FindsWired, given_by};
ghost use Rattle.fb_model.specs.NetworkFaults.{own_names};
ghost use Rattle.fb_model.specs.NetworkFaults.{IsNetworkFault};

use crate::end::Site;
use crate::event::events;
use crate::face::{has_event, has_variable};
use crate::typed::{Connection, End, Instance, Network};
use crate::value::{Taken, take, values};
use fb_faults::TypeFault;
use fb_tree::{InstanceTree, NetworkTree};
use fb_types_blocks::{Face, insert};
use indexmap::IndexSet;
use std::alloc::{AllocError, Global};

// Whether an interface has an event or a variable of this name.
fn has_name(face: &Face, name: &str) -> bool
    ensures { result ≡ is_in name.now (own_names (face_of face.now)) }
{
    (has_event(&face.event_inputs, name) || has_event(&face.event_outputs, name))
        || (has_variable(&face.inputs, name) || has_variable(&face.outputs, name))
}

// The table of the instances' names, which are new in the interface.
fn instance_table(
    alloc: Global,
    face: &Face,
    sources: &[InstanceTree],
) -> Result<IndexSet<String>, TypeFault>
    ensures new { OnOk result (AreNew (own_names (face_of face.now)) (instance_texts (map trees_of.instance_of sources.now))) }
    ensures names { IfOk result (λ t. names_of t ≡ instance_texts (map trees_of.instance_of sources.now)) }
    ensures refused { IfErr result (IsRepetition (own_names (face_of face.now)) (map (λ i. i.name) (map trees_of.instance_of sources.now))) }
{
    let mut names = IndexSet::new(alloc);
    for source in sources {
        if has_name(face, source.name.text.as_str()) {
            return Err(TypeFault::DuplicateName(source.name.at));
        }
        if !insert(&mut names, &source.name.text)? {
            return Err(TypeFault::DuplicateName(source.name.at));
        }
    }
    Ok(names)
}

// Adds the data inputs of an instance that have a parameter.
fn give(taken: &mut Taken, instance: &Instance) -> Result<(), AllocError>
    ensures { OnOk result ((e : book.End) → is_taken (ends_of taken.new) e ≡ is_taken (ends_of taken.old) e || is_taken (given_by (placed_of instance.now)) e) }
{
    for parameter in &instance.parameters {
        let end = End {
            instance: Some(instance.name.clone()?),
            port: parameter.name.clone()?,
        };
        let _ = take(taken, &end)?;
    }
    Ok(())
}

// The data inputs of instances that have a parameter.
fn given(alloc: Global, instances: &[Instance]) -> Result<Taken, AllocError>
    ensures { IfOk result (λ taken. (e : book.End) → is_taken (ends_of taken) e ≡ is_taken (given_in (placed_in (map placed_of instances.now))) e) }
{
    let mut taken = IndexSet::new(alloc);
    for instance in instances {
        give(&mut taken, instance)?;
    }
    Ok(taken)
}

// A network of its parts.
fn network(instances: Vec<Instance>, events: Vec<Connection>, values: Vec<Connection>) -> Network
    ensures parts { wired_of result ≡ (map placed_of instances.items, map connection_of events.items, map connection_of values.items) }
    ensures instances { (out-Network result).instances ≡ instances }
{
    Network {
        instances,
        events,
        values,
    }
}

// The network of these instances.
fn joined(
    alloc: Global,
    face: &Face,
    instances: Vec<Instance>,
    source: &NetworkTree,
) -> Result<Network, TypeFault>
    ensures instances { IfOk result (λ n. (out-Network n).instances ≡ instances) }
    ensures typed { AreNamed (trees_of.network_of source.now) (map placed_of instances.items) → IfOk result (λ n. IsWired (face_of face.now) (trees_of.network_of source.now) (map placed_of instances.items) (wired_of n)) }
    ensures refused { AreNamed (trees_of.network_of source.now) (map placed_of instances.items) → IfErr result (IsNetworkFault (face_of face.now) (trees_of.network_of source.now) (map placed_of instances.items)) }
{
    let names = instance_table(alloc, face, &source.instances)?;
    let mut taken = given(alloc, &instances)?;
    let site = Site {
        face,
        names: &names,
        instances: &instances,
    };
    let events = events(alloc, &site, &source.events)?;
    let values = values(alloc, &site, &mut taken, &source.values)?;
    Ok(network(instances, events, values))
}

/// The network of a composite with this interface, or of a resource, which has an empty one. The instances are those of the tree.
///
/// Refused with `DuplicateName` at an instance's name that is one of the interface's or of an earlier instance, and as `events` and
/// `values` are.
pub fn wire(
    alloc: Global,
    face: &Face,
    instances: Vec<Instance>,
    source: &NetworkTree,
) -> Result<Network, TypeFault>
    ensures instances { IfOk result (λ n. (out-Network n).instances ≡ instances) }
    ensures typed { AreNamed (trees_of.network_of source.now) (map placed_of instances.items) → IfOk result (λ n. IsWired (face_of face.now) (trees_of.network_of source.now) (map placed_of instances.items) (wired_of n)) }
    ensures refused { AreNamed (trees_of.network_of source.now) (map placed_of instances.items) → IfErr result (IsNetworkFault (face_of face.now) (trees_of.network_of source.now) (map placed_of instances.items)) }
    ensures only { AreNamed (trees_of.network_of source.now) (map placed_of instances.items) → (es vs : List book.Connection) → IsWired (face_of face.now) (trees_of.network_of source.now) (map placed_of instances.items) (map placed_of instances.items, es, vs) → FindsWired result (map placed_of instances.items, es, vs) }
{
    joined(alloc, face, instances, source)
}
