//! The least numbers that meet demands which a certificate meets.

ghost use Rattle.std.specs.Prelude.{ℕ, ◌≡◌, ◌≤◌, List, None, IfOk};
ghost use Rattle.fb_faults.specs.declared.no_bound.NoBound.TheVariants.{OutOfMemory};
ghost use Rattle.fb_model.specs.System.{System};
ghost use Rattle.fb_model.specs.Certificates.{Certificate, Fits};
ghost use Rattle.fb_model.specs.CertificateText.{most_steps};
ghost use Rattle.fb_model.specs.Demands.{Demand, Node};
ghost use Rattle.fb_model.specs.Columns.{MeetAll};
ghost use Rattle.fb_find_demands.specs.Rights.{rights_of};
ghost use Rattle.fb_find.specs.Columns.{AreSmallest, FulfilsAll, IsColumn};
ghost use Rattle.fb_find.specs.Given.{IsNumbered};

use fb_faults::NoBound;
use fb_find::{column, order};
use fb_find_demands::{Numbering, Right};
use fb_flat::Flat;
use std::alloc::{AllocError, Global};

/// The most steps of a row.
const MOST_STEPS: u64 = 1_000_000_000_000;

// Want of memory, which is all that can be here.
fn memory(fault: NoBound) -> AllocError
    requires { fault ≡ OutOfMemory }
{
    match fault {
        NoBound::OutOfMemory => AllocError,
        _ => unreachable!(),
    }
}

/// Each node's number after all that it demands: where a certificate fits, demands go in no circle.
pub fn ordered(alloc: Global, flat: &Flat, numbering: &Numbering) -> Result<Vec<usize>, AllocError>
    requires { (s : System) × (cert : Certificate) × IsNumbered None flat.now.devices.items numbering.now s × Fits s cert }
    ensures { (s : System) → IsNumbered None flat.now.devices.items numbering.now s → IfOk result (λ order. FulfilsAll None numbering.now s order.items) }
{
    match order(alloc, flat, numbering, None) {
        Ok(order) => Ok(order),
        Err(fault) => Err(memory(fault)),
    }
}

/// The least numbers that meet these demands: where there are some that meet them, none of them is above the limit of rows.
pub(crate) fn least(
    alloc: Global,
    numbering: &Numbering,
    order: &[usize],
    rights: Vec<Right>,
) -> Result<Vec<u64>, AllocError>
    requires { (ds : List Demand) × (y : Node → ℕ) × IsColumn numbering.now order.now (rights_of rights.items) ds × MeetAll y ds × ((x : Node) → y x ≤ most_steps) }
    ensures { (ds : List Demand) → IsColumn numbering.now order.now (rights_of rights.items) ds → IfOk result (λ v. AreSmallest numbering.now ds most_steps v.items) }
{
    match column(alloc, numbering, order, rights, MOST_STEPS) {
        Ok(numbers) => Ok(numbers),
        Err(fault) => Err(memory(fault)),
    }
}
