//! The work of a verified system.

ghost use Rattle.std.specs.Prelude.{◌≡◌, ◌<◌, None, List, IfErr, IfOk};
ghost use Rattle.std.specs.List.{Any};
ghost use Rattle.fb_model.specs.Names.{at_place};
ghost use Rattle.fb_model.specs.System.{System};
ghost use Rattle.fb_model.specs.Wires as wires;
ghost use Rattle.fb_model.specs.Ranges.{rows};
ghost use Rattle.fb_model.specs.Certificates.{all_leaves};
ghost use Rattle.fb_model.specs.CertificateText.{most_steps, names_in};
ghost use Rattle.fb_model.specs.Demands.{Demand};
ghost use Rattle.fb_cert.specs.Views.{certificate_of};
ghost use Rattle.fb_verified.specs.Checked.{certificate_in, system_in};
ghost use Rattle.fb_find_demands.specs.Rights.{numbered, rights_of};
ghost use Rattle.fb_find.specs.Columns.{AreSmallest, IsColumn};
ghost use Rattle.fb_find.specs.Given.{IsNumbered};
ghost use Rattle.fb_prices.specs.Words.{prices_of};
ghost use Rattle.fb_work.specs.Algorithms.{IsDear, OrMemory};
ghost use Rattle.fb_work.specs.Demands.{work_demands};
ghost use Rattle.fb_work.specs.Counting.{BoundsAllWork, IsCountable, IsLeastWork, IsPastLimit, IsTooMuch, work_in};

use crate::charged::charged;
use crate::refusal::{NoWork, past};
use crate::system::system_works;
use fb_cert::Certificate;
use fb_find::column;
use fb_find_demands::{Numbering, Right, numbering, plain_rights};
use fb_flat::Flat;
use fb_model_work::work_is_bounded;
use fb_prices::Prices;
use fb_turns::ordered;
use fb_verified::Verified;
use std::alloc::{AllocError, Global};

/// The most work that is told.
const MOST_WORK: u64 = 1_000_000_000_000;

/// Of each event input and arrival of a system, how much work it causes at most, until all that it causes has ended.
#[derive(Drop)]
pub struct Work {
    numbering: Numbering,
    numbers: Vec<u64>,
}

impl Work {
    /// How much work this event input or arrival of a leaf causes at most, its own dispatch included.
    pub fn of(&self, alloc: Global, path: &str, event: &str) -> Result<u64, AllocError>
        ensures { IfOk result (λ n. n ≡ (work_in self.now).weight (at_place (names_in path.now) event.now)) }
    {
        let node = self.numbering.event(alloc, path, event)?;
        Ok(match self.numbers.get(node) {
            Some(number) => *number,
            None => 0,
        })
    }
}

// The demands of work, by the numbers of nodes.
fn demanded(
    alloc: Global,
    flat: &Flat,
    certificate: &Certificate,
    prices: &Prices,
    numbering: &Numbering,
) -> Result<Vec<Right>, NoWork>
    ensures value { (s : System) → IsNumbered None flat.now.devices.items numbering.now s → IfOk result (λ v. rights_of v.items ≡ numbered numbering.now (work_demands (prices_of prices.now) (certificate_of certificate.now).ranges (all_leaves s.devices))) }
    ensures dear { (s : System) → IsNumbered None flat.now.devices.items numbering.now s → IfErr result (OrMemory (Any (λ (l : wires.Leaf). IsDear (prices_of prices.now) (rows (certificate_of certificate.now).ranges l.path l.kind) l.kind) (all_leaves s.devices))) }
{
    let works = system_works(alloc, prices, certificate, flat)?;
    let asked = plain_rights(alloc, numbering, 1, flat)?;
    let rights = charged(alloc, asked.as_slice(), works.as_slice())?;
    Ok(rights)
}

// The least numbers that meet them, each within the limit.
fn solved(
    alloc: Global,
    numbering: &Numbering,
    order: &[usize],
    rights: Vec<Right>,
) -> Result<Vec<u64>, NoWork>
    requires { (ds : List Demand) × IsColumn numbering.now order.now (rights_of rights.items) ds }
    ensures least { (ds : List Demand) → IsColumn numbering.now order.now (rights_of rights.items) ds → IfOk result (λ v. AreSmallest numbering.now ds most_steps v.items) }
    ensures refused { (ds : List Demand) → IsColumn numbering.now order.now (rights_of rights.items) ds → IfErr result (OrMemory (IsPastLimit ds)) }
{
    match column(alloc, numbering, order, rights, MOST_WORK) {
        Ok(numbers) => Ok(numbers),
        Err(fault) => Err(past(fault)),
    }
}

// The least work of a system whose nodes have these numbers, and that the certificate fits.
fn counted(
    alloc: Global,
    flat: &Flat,
    certificate: &Certificate,
    prices: &Prices,
    numbering: Numbering,
) -> Result<Work, NoWork>
    requires { (s : System) × IsCountable flat.now.devices.items numbering s (certificate_of certificate.now) }
    ensures least { (s : System) → IsCountable flat.now.devices.items numbering s (certificate_of certificate.now) → IfOk result (λ w. IsLeastWork (prices_of prices.now) (certificate_of certificate.now).ranges s (work_in w)) }
    ensures refused { (s : System) → IsCountable flat.now.devices.items numbering s (certificate_of certificate.now) → IfErr result (OrMemory (IsTooMuch (prices_of prices.now) (certificate_of certificate.now).ranges s)) }
{
    let order = ordered(alloc, flat, &numbering)?;
    let rights = demanded(alloc, flat, certificate, prices, &numbering)?;
    let numbers = solved(alloc, &numbering, order.as_slice(), rights)?;
    Ok(Work { numbering, numbers })
}

/// The work of a verified system at these prices: the least numbers that pay for it. Over every run of each device, all dispatches that belong to a cause spend
/// together at most what its opening weighs.
///
/// Refused with `TooMuch` where an algorithm, or in all numbers that pay a state or an event, costs more than 1,000,000,000,000.
pub fn count_work(alloc: Global, verified: &Verified, prices: &Prices) -> Result<Work, NoWork>
    ensures least { IfOk result (λ w. IsLeastWork (prices_of prices.now) (certificate_in verified.now).ranges (system_in verified.now) (work_in w)) }
    ensures bounds { IfOk result (λ w. BoundsAllWork (prices_of prices.now) (certificate_in verified.now) (system_in verified.now) (work_in w)) }
    ensures refused { IfErr result (OrMemory (IsTooMuch (prices_of prices.now) (certificate_in verified.now).ranges (system_in verified.now))) }
{
    verified.fits();
    work_is_bounded();
    let flat = verified.flat();
    let Ok(numbering) = numbering(alloc, None, flat) else {
        return Err(NoWork::OutOfMemory);
    };
    counted(alloc, flat, verified.certificate(), prices, numbering)
}
