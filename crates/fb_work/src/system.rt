//! The work that the demands of a system ask for.

ghost use Rattle.std.specs.Prelude.{◌≡◌, ◌++◌, List, IfErr, IfOk, OnOk};
ghost use Rattle.std.specs.List.{AllByRecursion, Any};
ghost use Rattle.fb_model.specs.System.{Device};
ghost use Rattle.fb_model.specs.Wires as wires;
ghost use Rattle.fb_model.specs.Wires.{leaves};
ghost use Rattle.fb_model.specs.Ranges.{rows};
ghost use Rattle.fb_model.specs.Certificates.{all_leaves};
ghost use Rattle.fb_model_laws.specs.Leaves.{IsClosed};
ghost use Rattle.fb_model_laws.specs.Words.{IsWordyDevice, IsWordyLeaf};
ghost use Rattle.fb_cert.specs.Views.{certificate_of};
ghost use Rattle.fb_flat.specs.Tables.{AreDevices, IsDevice, IsLeaf};
ghost use Rattle.fb_find_demands.specs.Leaves.{AreClosed};
ghost use Rattle.fb_prices.specs.Words.{prices_of};
ghost use Rattle.fb_work_charts.specs.Reckoning.{all_capped};
ghost use Rattle.fb_work.specs.Algorithms.{IsDear, OrMemory};
ghost use Rattle.fb_work.specs.Demands.{all_works, leaf_works};

use crate::algorithms::leaf_costs;
use crate::refusal::NoWork;
use fb_cert::Certificate;
use fb_check_ranges::leaves_of;
use fb_flat::{Flat, FlatDevice, Leaf};
use fb_prices::Prices;
use fb_work_charts::{Scene, leaf_works};
use std::alloc::Global;

// Adds the work that the demands of a leaf ask for.
fn add_leaf(
    alloc: Global,
    prices: &Prices,
    certificate: &Certificate,
    leaf: &Leaf,
    works: &mut Vec<u64>,
) -> Result<(), NoWork>
    ensures value { (l : wires.Leaf) → IsLeaf leaf.now l → IsWordyLeaf l → IsClosed l.kind → OnOk result (works.new.items ≡ works.old.items ++ all_capped (leaf_works (prices_of prices.now) (certificate_of certificate.now).ranges l)) }
    ensures dear { (l : wires.Leaf) → IsLeaf leaf.now l → IsWordyLeaf l → IfErr result (OrMemory (IsDear (prices_of prices.now) (rows (certificate_of certificate.now).ranges l.path l.kind) l.kind)) }
{
    let costs = leaf_costs(alloc, prices, certificate, leaf)?;
    let scene = Scene {
        prices,
        algorithms: costs.as_slice(),
        outputs: leaf.outputs.as_slice(),
    };
    leaf_works(&scene, &leaf.body, works)?;
    Ok(())
}

// The same of the leaves of a device.
fn add_device(
    alloc: Global,
    prices: &Prices,
    certificate: &Certificate,
    device: &FlatDevice,
    works: &mut Vec<u64>,
) -> Result<(), NoWork>
    ensures value { (d : Device) → IsDevice device.now d → IsWordyDevice d → AllByRecursion (λ (l : wires.Leaf). IsClosed l.kind) (leaves d) → OnOk result (works.new.items ≡ works.old.items ++ all_capped (all_works (prices_of prices.now) (certificate_of certificate.now).ranges (leaves d))) }
    ensures dear { (d : Device) → IsDevice device.now d → IsWordyDevice d → IfErr result (OrMemory (Any (λ (l : wires.Leaf). IsDear (prices_of prices.now) (rows (certificate_of certificate.now).ranges l.path l.kind) l.kind) (leaves d))) }
{
    let own = leaves_of(alloc, device.resources.as_slice())?;
    for leaf in &own {
        add_leaf(alloc, prices, certificate, *leaf, works)?;
    }
    Ok(())
}

/// The work that the demands of a system ask for, in their order, where no algorithm costs too much.
pub(crate) fn system_works(
    alloc: Global,
    prices: &Prices,
    certificate: &Certificate,
    flat: &Flat,
) -> Result<Vec<u64>, NoWork>
    ensures value { (ds : List Device) → AreDevices flat.now.devices.items ds → AllByRecursion IsWordyDevice ds → AreClosed ds → IfOk result (λ v. v.items ≡ all_capped (all_works (prices_of prices.now) (certificate_of certificate.now).ranges (all_leaves ds))) }
    ensures dear { (ds : List Device) → AreDevices flat.now.devices.items ds → AllByRecursion IsWordyDevice ds → IfErr result (OrMemory (Any (λ (l : wires.Leaf). IsDear (prices_of prices.now) (rows (certificate_of certificate.now).ranges l.path l.kind) l.kind) (all_leaves ds))) }
{
    let mut works = Vec::new(alloc);
    for device in &flat.devices {
        add_device(alloc, prices, certificate, device, &mut works)?;
    }
    Ok(works)
}
