//! Resources.

ghost use Rattle.std.specs.Prelude.{◌≡◌, ◌≤◌, ◌⊎◌, ◌++◌, [], List, map, OnOk, IfOk, IfErr};
ghost use Rattle.std.specs.List.{Contains};
ghost use Rattle.fb_model.specs.Declarations as decl;
ghost use Rattle.fb_model.specs.Typing.{most_instances};
ghost use Rattle.fb_model.specs.NetworkTyping.{IsResource, AreResources, instance_count, no_face};
ghost use Rattle.fb_tree.specs.Files as trees_of;
ghost use Rattle.fb_types_blocks.specs.Views.{face_of};
ghost use Rattle.fb_types_networks.specs.declared.typed.Network.{out-Network};
ghost use Rattle.fb_types_networks.specs.Views.{instances_of, placed_of, wired_of};
ghost use Rattle.fb_types_networks.specs.Answers.{AreNamed, IsWired};
ghost use Rattle.fb_model.specs.NetworkFaults.{IsNetworkFault};
ghost use Rattle.fb_types.specs.Views.{resource_of, resource_offsets, offsets_in, resource_uses, device_uses};
ghost use Rattle.fb_model.specs.Nesting.{AllProvide, ResourcesProvide};
ghost use Rattle.fb_model.specs.SourceFaults.{IsCrowd, IsResourceFault};
ghost use Rattle.fb_types.specs.Made.{IsTable, IsMemo, IsNamed, IsDeeper, IsUnmade, IsHalted, IsRefusedType, IsRefusedInstance, AreMade};

use crate::count::few;
use crate::made::{Memo, Unmade};
use crate::make::parts;
use crate::rings::ring;
use crate::table::Types;
use crate::typed::Resource;
use fb_faults::TypeFault;
use fb_tree::{BlockTree, InstanceTree, NetworkTree, ResourceTree};
use fb_types_blocks::Face;
use fb_types_networks::{Instance, Network, wire};
use indexmap::IndexMap;
use std::alloc::Global;

/// The most composites that nest in one another.
pub const DEEP: usize = 16;

// The refusal of a type in which too many composites nest, or one that is inside itself.
fn too_deep<'a>(alloc: Global, types: &Types<'a>, block: &'a BlockTree) -> TypeFault
    ensures { (bs : List decl.BlockTree) → IsTable bs types.now → IsNamed bs (trees_of.block_of block.now) → IsDeeper bs DEEP (trees_of.block_of block.now) → IsRefusedType bs (trees_of.block_of block.now) result }
{
    match ring(alloc, types, block) {
        Ok(Some(at)) => TypeFault::RecursiveComposite(at),
        Ok(None) => TypeFault::Limit(block.name.at),
        Err(_) => TypeFault::OutOfMemory,
    }
}

/// The refusal, where this many composites may nest.
pub(crate) fn refusal<'a>(alloc: Global, types: &Types<'a>, unmade: Unmade<'a>) -> TypeFault
    ensures of_type { (bs : List decl.BlockTree) (b : decl.BlockTree) → IsTable bs types.now → IsUnmade bs DEEP b unmade.entry → IsRefusedType bs b result }
    ensures of_instance { (bs : List decl.BlockTree) (i : decl.InstanceTree) → IsTable bs types.now → IsHalted bs [] DEEP i unmade.entry → IsRefusedInstance bs i result }
{
    match unmade {
        Unmade::Fault(fault) => fault,
        Unmade::TooDeep(block) => too_deep(alloc, types, block),
    }
}

// An interface without ports.
fn without_ports(alloc: Global) -> Face
    ensures { face_of result ≡ no_face }
{
    Face {
        event_inputs: IndexMap::new(alloc),
        event_outputs: IndexMap::new(alloc),
        inputs: IndexMap::new(alloc),
        outputs: IndexMap::new(alloc),
    }
}

// The instances of a resource, no more than may be.
fn instances<'a>(
    alloc: Global,
    types: &Types<'a>,
    memo: &mut Memo,
    sources: &'a [InstanceTree],
) -> Result<Vec<Instance>, TypeFault>
    ensures made { (bs : List decl.BlockTree) → IsTable bs types.now → IsMemo bs memo.old → IfOk result (λ v. AreMade bs (map trees_of.instance_of sources.now) v.items) }
    ensures few { IfOk result (λ v. instance_count (instances_of v.items) ≤ most_instances) }
    ensures kept { (bs : List decl.BlockTree) → IsTable bs types.now → IsMemo bs memo.old → OnOk result (IsMemo bs memo.new) }
    ensures refused { (bs : List decl.BlockTree) → IsTable bs types.now → IsMemo bs memo.old → IfErr result (λ f. ((i : decl.InstanceTree) × Contains (map trees_of.instance_of sources.now) i × IsRefusedInstance bs i f) ⊎ IsCrowd bs most_instances (map trees_of.instance_of sources.now) f) }
{
    match parts(alloc, types, memo, &[], DEEP, sources) {
        Ok((instances, _)) => {
            few(&instances)?;
            Ok(instances)
        }
        Err(unmade) => Err(refusal(alloc, types, unmade)),
    }
}

// The network of a resource, over these instances.
fn network(
    alloc: Global,
    instances: Vec<Instance>,
    source: &NetworkTree,
) -> Result<Network, TypeFault>
    ensures instances { IfOk result (λ n. (out-Network n).instances ≡ instances) }
    ensures typed { AreNamed (trees_of.network_of source.now) (map placed_of instances.items) → IfOk result (λ n. IsWired no_face (trees_of.network_of source.now) (map placed_of instances.items) (wired_of n)) }
    ensures refused { AreNamed (trees_of.network_of source.now) (map placed_of instances.items) → IfErr result (IsNetworkFault no_face (trees_of.network_of source.now) (map placed_of instances.items)) }
{
    wire(alloc, &without_ports(alloc), instances, source)
}

// A resource.
fn resource<'a>(
    alloc: Global,
    types: &Types<'a>,
    memo: &mut Memo,
    source: &'a ResourceTree,
) -> Result<Resource, TypeFault>
    ensures typed { (bs : List decl.BlockTree) → IsTable bs types.now → IsMemo bs memo.old → IfOk result (λ q. IsResource bs (trees_of.resource_of source.now) (resource_of q)) }
    ensures offset { IfOk result (λ q. q.at ≡ (trees_of.resource_of source.now).name.at) }
    ensures uses { (bs : List decl.BlockTree) → IsTable bs types.now → IsMemo bs memo.old → IfOk result (λ q. AllProvide bs (trees_of.resource_of source.now).network.instances (resource_uses q)) }
    ensures kept { (bs : List decl.BlockTree) → IsTable bs types.now → IsMemo bs memo.old → OnOk result (IsMemo bs memo.new) }
    ensures refused { (bs : List decl.BlockTree) → IsTable bs types.now → IsMemo bs memo.old → IfErr result (IsResourceFault bs (trees_of.resource_of source.now)) }
{
    let instances = instances(alloc, types, memo, &source.network.instances)?;
    let network = network(alloc, instances, &source.network)?;
    let name = source.name.text.clone()?;
    Ok(Resource {
        name,
        at: source.name.at,
        network,
    })
}

/// The resources of a device, in text order.
pub(crate) fn resources<'a>(
    alloc: Global,
    types: &Types<'a>,
    memo: &mut Memo,
    sources: &'a [ResourceTree],
) -> Result<Vec<Resource>, TypeFault>
    ensures typed { (bs : List decl.BlockTree) → IsTable bs types.now → IsMemo bs memo.old → IfOk result (λ v. AreResources bs (map trees_of.resource_of sources.now) (map resource_of v.items)) }
    ensures offsets { IfOk result (λ v. resource_offsets v.items ≡ offsets_in (map trees_of.resource_of sources.now)) }
    ensures uses { (bs : List decl.BlockTree) → IsTable bs types.now → IsMemo bs memo.old → IfOk result (λ v. ResourcesProvide bs (map trees_of.resource_of sources.now) (device_uses v.items)) }
    ensures kept { (bs : List decl.BlockTree) → IsTable bs types.now → IsMemo bs memo.old → OnOk result (IsMemo bs memo.new) }
    ensures refused { (bs : List decl.BlockTree) → IsTable bs types.now → IsMemo bs memo.old → IfErr result (λ f. (r : decl.ResourceTree) × Contains (map trees_of.resource_of sources.now) r × IsResourceFault bs r f) }
{
    let mut resources = Vec::new(alloc);
    for source in sources {
        resources.push(resource(alloc, types, memo, source)?)?;
    }
    Ok(resources)
}
