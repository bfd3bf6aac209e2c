//! How deep the queue of a resource has to be.

ghost use Rattle.std.specs.Prelude.{◌≡◌, List, min, IfOk};
ghost use Rattle.fb_model.specs.Wires as wires;
ghost use Rattle.fb_cert.specs.Views.{certificate_of};
ghost use Rattle.fb_check_rows.specs.Depths.{IsBegin};
ghost use Rattle.fb_flat.specs.Tables.{AreLeaves, IsLeaf};
ghost use Rattle.fb_model.specs.Finding.{arrival_of, needed_depth};

use fb_cert::Certificate;
use fb_check_rows::{arrival_places, begin_places};
use fb_flat::{FlatResource, Leaf};
use std::alloc::{AllocError, Global};

// The places of a leaf's arrival, 0 where it has none.
fn arrival(alloc: Global, certificate: &Certificate, leaf: &Leaf) -> Result<u64, AllocError>
    ensures { IfOk result (λ n. (l : wires.Leaf) → IsLeaf leaf.now l → n ≡ arrival_of (certificate_of certificate.now) l) }
{
    let Ok(places) = arrival_places(alloc, certificate, leaf) else {
        return Err(AllocError);
    };
    Ok(places)
}

// The places of a leaf's BEGIN, 0 where it has none.
fn begin(alloc: Global, certificate: &Certificate, leaf: &Leaf) -> Result<u64, AllocError>
    ensures { IfOk result (IsBegin certificate.now leaf.now) }
{
    match begin_places(alloc, certificate, leaf) {
        Ok(places) => Ok(places),
        Err(_) => Err(AllocError),
    }
}

/// How deep the queue of a resource has to be under the places of a certificate, as far as `u64` tells.
pub(crate) fn needed(
    alloc: Global,
    certificate: &Certificate,
    resource: &FlatResource,
) -> Result<u64, AllocError>
    ensures { (all : List wires.Leaf) → AreLeaves resource.now.leaves.items all → IfOk result (λ n. n ≡ min (needed_depth (certificate_of certificate.now) all) 18446744073709551615) }
{
    let mut most: u64 = 1;
    let mut begins: u64 = 0;
    for leaf in &resource.leaves {
        most = most.max(arrival(alloc, certificate, leaf)?);
        begins = begins.saturating_add(begin(alloc, certificate, leaf)?);
    }
    Ok(most.max(begins))
}
