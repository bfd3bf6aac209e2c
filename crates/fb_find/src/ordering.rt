//! The order in which numbers are found.

ghost use Rattle.std.specs.Prelude.{◌≡◌, IfErr, IfOk};
ghost use Rattle.fb_model.specs.System.{System};
ghost use Rattle.fb_find_demands.specs.Rights.{numbered, rights_of};
ghost use Rattle.fb_find.specs.Given.{IsNumbered};
ghost use Rattle.fb_find.specs.Columns.{IsCycle, FulfilsAll};
ghost use Rattle.fb_model.specs.Finding.{asked};

use fb_faults::NoBound;
use fb_find_demands::{Numbering, Right, group, network_rights, plain_rights};
use fb_find_rows::sorted;
use fb_flat::Flat;
use std::alloc::{AllocError, Global};

// What the system asks whatever algorithms cost.
fn asked_rights(
    alloc: Global,
    flat: &Flat,
    numbering: &Numbering,
    repeats: Option<u8>,
) -> Result<Vec<Right>, AllocError>
    ensures { (s : System) → IsNumbered repeats flat.now.devices.items numbering.now s → IfOk result (λ v. rights_of v.items ≡ numbered numbering.now (asked repeats s)) }
{
    match repeats {
        None => plain_rights(alloc, numbering, 1, flat),
        Some(_) => network_rights(alloc, numbering, flat),
    }
}

/// Each node's number after all that it demands, whatever algorithms cost, over the network where datagrams are followed; or a closed walk of demands, from that of
/// its places on whose row comes first.
pub fn order(
    alloc: Global,
    flat: &Flat,
    numbering: &Numbering,
    repeats: Option<u8>,
) -> Result<Vec<usize>, NoBound>
    requires { (s : System) × IsNumbered repeats flat.now.devices.items numbering.now s }
    ensures ordered { (s : System) → IsNumbered repeats flat.now.devices.items numbering.now s → IfOk result (λ order. FulfilsAll repeats numbering.now s order.items) }
    ensures cycle { (s : System) → IsNumbered repeats flat.now.devices.items numbering.now s → IfErr result (IsCycle repeats s) }
{
    let rights = asked_rights(alloc, flat, numbering, repeats)?;
    let count = numbering.count()?;
    let system = group(alloc, count, rights)?;
    sorted(
        alloc,
        &numbering.states,
        &numbering.events,
        numbering.channels.as_slice(),
        system.as_slice(),
    )
}
