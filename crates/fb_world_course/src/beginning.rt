//! The first world of what was checked.

ghost use Rattle.std.specs.Prelude.{ℕ, ◌≡◌, ◌+◌, ◌<◌, ◌≤◌, [], length, IfOk, IfErr};
ghost use Rattle.std.specs.Vec.{vec_capacity};
ghost use Rattle.indexmap.specs.IndexMap.{spare};
ghost use Rattle.fb_model.specs.Devices.{first_stamp, at_first};
ghost use Rattle.fb_model.specs.World.{IsFirst};
ghost use Rattle.fb_verified.specs.Checked.{system_in, IsChecked};
ghost use Rattle.fb_device.specs.Refusals.{no_memory};
ghost use Rattle.fb_device_state.specs.Machines.{device_in, device_at, machine_of};
ghost use Rattle.fb_world_course.specs.Scenes.{world_in};
ghost use Rattle.fb_world_course.specs.Beginning.{Begins, HaveBegun};
ghost use Rattle.fb_world_course.specs.Keeping.{IsKept};

use crate::course::Course;
use crate::station::{Root, Station};
use fb_device::{Device, Refusal, load_checked};
use fb_verified::Verified;
use indexmap::IndexMap;
use std::alloc::{AllocError, Global};
use std::rc::Rc;

// How many causes a device has opened that has only begun.
fn begun(device: &Device) -> usize
    requires { machine_of device.now ≡ at_first (device_in device.now) 1 first_stamp }
    ensures { result + 1 ≡ (machine_of device.now).next }
{
    for count in 0..device.blocks() {
        if device.opening(count as u64 + 1).is_none() {
            return count;
        }
    }
    device.blocks()
}

// Room for so many roots, and a table for so many causes.
fn table(
    alloc: Global,
    count: usize,
    roots: &mut Vec<Root>,
) -> Result<IndexMap<u64, u64>, AllocError>
    ensures same { roots.new.items ≡ roots.old.items }
    ensures room { IfOk result (λ t. (length roots.new.items + count ≤ vec_capacity roots.new) × (count ≤ spare t) × (t.entries ≡ [])) }
{
    roots.reserve(count)?;
    IndexMap::with_capacity(alloc, count)
}

// The device of a number, which has started. Each BEGIN opens a root.
fn begin(
    alloc: Global,
    verified: &Rc<Verified>,
    number: u16,
    roots: &mut Vec<Root>,
) -> Result<Station, Refusal>
    requires within { number < length (system_in verified.now.value).devices }
    ensures begins { IfOk result (λ s. Begins verified.now.value number roots.old.items s roots.new.items) }
    ensures refused { IfErr result (λ f. f ≡ no_memory) }
{
    let ready = load_checked(alloc, verified.clone()?, number as usize)?;
    let device = ready.start();
    let count = begun(&device);
    let table = table(alloc, count, roots)?;
    let mut station = Station {
        device,
        causes: 0,
        roots: table,
    };
    station.open_all(number, count, roots);
    Ok(station)
}

// All devices, in text order.
fn begin_all(
    alloc: Global,
    verified: &Rc<Verified>,
    roots: &mut Vec<Root>,
) -> Result<Vec<Station>, Refusal>
    requires checked { IsChecked verified.now.value }
    requires none { roots.old.items ≡ [] }
    ensures begun { IfOk result (λ v. HaveBegun verified.now.value (length (system_in verified.now.value).devices) v.items roots.new.items) }
    ensures refused { IfErr result (λ f. f ≡ no_memory) }
{
    let count = verified.typed().devices.len();
    let mut stations = Vec::with_capacity(alloc, count)?;
    for number in 0..count {
        stations.push_reserved(begin(alloc, verified, number as u16, roots)?);
    }
    Ok(stations)
}

/// Where the world of what was checked begins.
pub fn first_course(alloc: Global, verified: &Rc<Verified>) -> Result<Course, Refusal>
    ensures first { IfOk result (λ c. IsFirst (system_in verified.now.value) (world_in verified.now.value c)) }
    ensures kept { IfOk result (IsKept verified.now.value) }
    ensures refused { IfErr result (λ f. f ≡ no_memory) }
{
    verified.fits();
    let mut roots = Vec::new(alloc);
    let stations = begin_all(alloc, verified, &mut roots)?;
    Ok(Course {
        stations,
        datagrams: Vec::new(alloc),
        roots,
        dispatches: 0,
    })
}
