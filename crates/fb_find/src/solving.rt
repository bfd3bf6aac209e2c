//! The least numbers of a column.

ghost use Rattle.std.specs.Prelude.{◌≤◌, List, IfErr, IfOk};
ghost use Rattle.fb_model.specs.Demands.{Demand};
ghost use Rattle.fb_find_demands.specs.Rights.{rights_of};
ghost use Rattle.fb_find.specs.Columns.{AreSmallest, IsColumn, IsPastFault};

use fb_faults::NoBound;
use fb_find_demands::{Numbering, Right, group};
use fb_find_rows::{Nodes, solved};
use std::alloc::Global;

/// The least numbers that meet the demands of a column, in the order of the nodes' numbers, each within the limit; or the resource of a node whose number is above it.
pub fn column(
    alloc: Global,
    numbering: &Numbering,
    order: &[usize],
    rights: Vec<Right>,
    limit: u64,
) -> Result<Vec<u64>, NoBound>
    requires demands { (ds : List Demand) × IsColumn numbering.now order.now (rights_of rights.items) ds }
    requires limit { limit ≤ 1000000000000 }
    ensures least { (ds : List Demand) → IsColumn numbering.now order.now (rights_of rights.items) ds → IfOk result (λ v. AreSmallest numbering.now ds limit v.items) }
    ensures refused { (ds : List Demand) → IsColumn numbering.now order.now (rights_of rights.items) ds → IfErr result (IsPastFault numbering.now ds limit) }
{
    let count = numbering.count()?;
    let system = group(alloc, count, rights)?;
    solved(
        alloc,
        &Nodes {
            states: &numbering.states,
            events: &numbering.events,
            ends: numbering.ends.as_slice(),
        },
        system.as_slice(),
        order,
        limit,
    )
}
