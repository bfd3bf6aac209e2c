//! Counts of dispatches of a verified system.

ghost use Rattle.std.specs.Prelude.{◌≡◌, None, IfOk};
ghost use Rattle.fb_model.specs.Names.{at_place};
ghost use Rattle.fb_model.specs.System.{System};
ghost use Rattle.fb_model.specs.Certificates as book;
ghost use Rattle.fb_model.specs.CertificateText.{names_in};
ghost use Rattle.fb_model_turns.specs.Turns.{added, largest};
ghost use Rattle.fb_verified.specs.Checked.{system_in};
ghost use Rattle.fb_find.specs.Given.{IsNumbered};
ghost use Rattle.fb_turns.specs.Counting.{all_in, counts_in, longest_in, number_at, AreCounts, AreLeastCounts, HasFit, IsCountable};

use crate::demand::{all_demands, chain_demands};
use crate::least::{least, ordered};
use fb_find_demands::{Numbering, numbering, plain_rights};
use fb_flat::Flat;
use fb_verified::Verified;
use std::alloc::{AllocError, Global};

/// Of each event input and arrival of a system, how many dispatches of its resource it causes, all together, and in the longest chain of emissions.
#[derive(Drop)]
pub struct Turns {
    numbering: Numbering,
    all: Vec<u64>,
    longest: Vec<u64>,
}

// The number of a node; 0 where it has none.
fn number_of(numbers: &[u64], node: usize) -> u64
    ensures { result ≡ number_at numbers.now node }
{
    match numbers.get(node) {
        Some(number) => *number,
        None => 0,
    }
}

impl Turns {
    /// How many dispatches this event input or arrival of a leaf causes, its own included.
    pub fn dispatches(&self, alloc: Global, path: &str, event: &str) -> Result<u64, AllocError>
        ensures { IfOk result (λ n. n ≡ (all_in self.now).weight (at_place (names_in path.now) event.now)) }
    {
        let node = self.numbering.event(alloc, path, event)?;
        Ok(number_of(self.all.as_slice(), node))
    }

    /// How many dispatches the longest chain of emissions has that it starts, its own included.
    pub fn generations(&self, alloc: Global, path: &str, event: &str) -> Result<u64, AllocError>
        ensures { IfOk result (λ n. n ≡ (longest_in self.now).weight (at_place (names_in path.now) event.now)) }
    {
        let node = self.numbering.event(alloc, path, event)?;
        Ok(number_of(self.longest.as_slice(), node))
    }
}

// The counts of all dispatches, by the numbers of nodes.
fn all_counts(
    alloc: Global,
    flat: &Flat,
    numbering: &Numbering,
    order: &[usize],
) -> Result<Vec<u64>, AllocError>
    requires { (s : System) × (cert : book.Certificate) × IsCountable flat.now.devices.items numbering.now order.now s cert }
    ensures { (s : System) (cert : book.Certificate) → IsCountable flat.now.devices.items numbering.now order.now s cert → IfOk result (λ v. AreLeastCounts added s (counts_in numbering.now v.items)) }
{
    let asked = plain_rights(alloc, numbering, 1, flat)?;
    let rights = all_demands(alloc, numbering.states.len(), asked.as_slice())?;
    least(alloc, numbering, order, rights)
}

// And those of the longest chains.
fn chain_counts(
    alloc: Global,
    flat: &Flat,
    numbering: &Numbering,
    order: &[usize],
) -> Result<Vec<u64>, AllocError>
    requires { (s : System) × (cert : book.Certificate) × IsCountable flat.now.devices.items numbering.now order.now s cert }
    ensures { (s : System) (cert : book.Certificate) → IsCountable flat.now.devices.items numbering.now order.now s cert → IfOk result (λ v. AreLeastCounts largest s (counts_in numbering.now v.items)) }
{
    let asked = plain_rights(alloc, numbering, 1, flat)?;
    let rights = chain_demands(alloc, numbering.states.len(), asked.as_slice())?;
    least(alloc, numbering, order, rights)
}

// Both counts of a system whose nodes have these numbers, and that a certificate fits.
fn counted(alloc: Global, flat: &Flat, numbering: Numbering) -> Result<Turns, AllocError>
    requires { (s : System) × (cert : book.Certificate) × IsNumbered None flat.now.devices.items numbering s × HasFit s cert }
    ensures { (s : System) (cert : book.Certificate) → IsNumbered None flat.now.devices.items numbering s → HasFit s cert → IfOk result (AreCounts s) }
{
    let order = ordered(alloc, flat, &numbering)?;
    let all = all_counts(alloc, flat, &numbering, order.as_slice())?;
    let longest = chain_counts(alloc, flat, &numbering, order.as_slice())?;
    Ok(Turns {
        numbering,
        all,
        longest,
    })
}

/// The counts of dispatches of a verified system.
pub fn count_turns(alloc: Global, verified: &Verified) -> Result<Turns, AllocError>
    ensures { IfOk result (AreCounts (system_in verified.now)) }
{
    verified.fits();
    let flat = verified.flat();
    let Ok(numbering) = numbering(alloc, None, flat) else {
        return Err(AllocError);
    };
    counted(alloc, flat, numbering)
}
