//! Devices and whole systems.

ghost use Rattle.std.specs.Prelude.{◌≡◌, [], List, map, OnOk, IfOk, IfErr};
ghost use Rattle.std.specs.List.{Contains};
ghost use Rattle.fb_model.specs.Declarations as decl;
ghost use Rattle.fb_model.specs.NetworkTyping.{IsDevice, AreDevices};
ghost use Rattle.fb_tree.specs.Files as trees_of;
ghost use Rattle.fb_types.specs.Views.{device_of, resource_offsets, system_offsets, offsets_in, all_offsets, device_uses, system_uses};
ghost use Rattle.fb_model.specs.Nesting.{ResourcesProvide, DevicesProvide};
ghost use Rattle.fb_model.specs.SourceFaults.{IsDeviceFault};
ghost use Rattle.fb_types.specs.Made.{IsTable, IsMemo};

use crate::ends::numbers_differ;
use crate::made::Memo;
use crate::resource::resources;
use crate::table::Types;
use crate::typed::Device;
use fb_faults::TypeFault;
use fb_tree::DeviceTree;
use fb_types_blocks::{at_most, table};
use std::alloc::Global;

/// The most resources of a device.
pub const RESOURCES: usize = 16;

// A device.
fn device<'a>(
    alloc: Global,
    types: &Types<'a>,
    memo: &mut Memo,
    source: &'a DeviceTree,
) -> Result<Device, TypeFault>
    ensures typed { (bs : List decl.BlockTree) → IsTable bs types.now → IsMemo bs memo.old → IfOk result (λ e. IsDevice bs (trees_of.device_of source.now) (device_of e)) }
    ensures offsets { IfOk result (λ e. resource_offsets e.resources.items ≡ offsets_in (trees_of.device_of source.now).resources) }
    ensures uses { (bs : List decl.BlockTree) → IsTable bs types.now → IsMemo bs memo.old → IfOk result (λ e. ResourcesProvide bs (trees_of.device_of source.now).resources (device_uses e.resources.items)) }
    ensures kept { (bs : List decl.BlockTree) → IsTable bs types.now → IsMemo bs memo.old → OnOk result (IsMemo bs memo.new) }
    ensures refused { (bs : List decl.BlockTree) → IsTable bs types.now → IsMemo bs memo.old → IfErr result (IsDeviceFault bs (trees_of.device_of source.now)) }
{
    at_most(&source.resources, RESOURCES)?;
    table(alloc, &source.resources)?;
    let resources = resources(alloc, types, memo, &source.resources)?;
    numbers_differ(alloc, &resources)?;
    let name = source.name.text.clone()?;
    Ok(Device { name, resources })
}

/// The devices of a system, in text order.
pub(crate) fn devices<'a>(
    alloc: Global,
    types: &Types<'a>,
    memo: &mut Memo,
    sources: &'a [DeviceTree],
) -> Result<Vec<Device>, TypeFault>
    ensures typed { (bs : List decl.BlockTree) → IsTable bs types.now → IsMemo bs memo.old → IfOk result (λ v. AreDevices bs (map trees_of.device_of sources.now) (map device_of v.items)) }
    ensures offsets { IfOk result (λ v. system_offsets v.items ≡ all_offsets (map trees_of.device_of sources.now)) }
    ensures uses { (bs : List decl.BlockTree) → IsTable bs types.now → IsMemo bs memo.old → IfOk result (λ v. DevicesProvide bs (map trees_of.device_of sources.now) (system_uses v.items)) }
    ensures refused { (bs : List decl.BlockTree) → IsTable bs types.now → IsMemo bs memo.old → IfErr result (λ f. (d : decl.DeviceTree) × Contains (map trees_of.device_of sources.now) d × IsDeviceFault bs d f) }
{
    let mut devices = Vec::new(alloc);
    for source in sources {
        devices.push(device(alloc, types, memo, source)?)?;
    }
    Ok(devices)
}
