//! Whether a cause leaves no room for another in the queue of its resource.

ghost use Rattle.std.specs.Prelude.{◌≡◌, ◌<◌, ◌+◌, ◌↔◌, ◌∷◌, [], ℕ, IfOk, IsTrue, Some, false, slice_get};
ghost use Rattle.std.specs.List.{AllByRecursion, Any};
ghost use Rattle.fb_model.specs.Names.{Name, at_place};
ghost use Rattle.fb_model.specs.System as system;
ghost use Rattle.fb_model.specs.Services.{arrivals};
ghost use Rattle.fb_model.specs.Wires as wires;
ghost use Rattle.fb_model.specs.Certificates as book;
ghost use Rattle.fb_model.specs.Certificates.{kind_arrivals};
ghost use Rattle.fb_model.specs.CertificateText.{place_of};
ghost use Rattle.fb_model_turns.specs.Turns.{IsAlone};
ghost use Rattle.fb_cert.specs.Views.{certificate_of};
ghost use Rattle.fb_types_services.specs.Views.{service_of};
ghost use Rattle.fb_flat.specs.Sites.{dotted};
ghost use Rattle.fb_flat.specs.Tables.{IsLeaf, IsResource};
ghost use Rattle.fb_check_rows.specs.Depths.{depth_of, places_at};
ghost use Rattle.fb_verified.specs.Checked.{certificate_in};
ghost use Rattle.fb_turns.specs.Room.{ArePast, Fits, IsPast, IsPastHere};

use fb_cert::Certificate;
use fb_check_rows::arrival_places;
use fb_flat::{Body, FlatResource, Leaf, joined};
use fb_types_services::Service;
use fb_verified::Verified;
use std::alloc::{AllocError, Global};

// The places of a WEIGHT row, 0 where there is none.
fn places(certificate: &Certificate, path: &str) -> u64
    ensures { result ≡ book.amount (λ r. r.places) (certificate_of certificate.now).weights (place_of path.now) }
{
    match certificate.weight(path) {
        Some(amount) => amount.places,
        None => 0,
    }
}

// The same of an event of a leaf.
fn places_of(
    alloc: Global,
    certificate: &Certificate,
    path: &str,
    event: &str,
) -> Result<u64, AllocError>
    ensures { IfOk result (λ n. n ≡ places_at (certificate_of certificate.now) (dotted path.now event.now)) }
{
    let row = joined(alloc, path, event)?;
    Ok(places(certificate, row.as_str()))
}

// The depth of a resource, 0 where it has no row.
fn depth(certificate: &Certificate, resource: &FlatResource) -> u64
    ensures { result ≡ depth_of certificate.now resource.now }
{
    certificate.depth(resource.path.as_str()).unwrap_or(0)
}

// Whether a number is less than two others together.
fn is_past(depth: u64, own: u64, other: u64) -> bool
    ensures { IsTrue result ↔ (depth < own + other) }
{
    match own.checked_add(other) {
        Some(sum) => depth < sum,
        None => true,
    }
}

// Whether there is no room for the arrival of a service beside so many places.
fn service_is_past(
    alloc: Global,
    certificate: &Certificate,
    path: &str,
    service: &Service,
    depth: u64,
    own: u64,
) -> Result<bool, AllocError>
    ensures { IfOk result (λ b. IsTrue b ↔ ArePast depth own (certificate_of certificate.now) path.now (arrivals (service_of service.now))) }
{
    match service.arrival() {
        Some(event) => {
            let other = places_of(alloc, certificate, path, event)?;
            Ok(is_past(depth, own, other))
        }
        None => Ok(true),
    }
}

// The same of a leaf.
fn leaf_is_past(
    alloc: Global,
    certificate: &Certificate,
    leaf: &Leaf,
    depth: u64,
    own: u64,
) -> Result<bool, AllocError>
    ensures { IfOk result (λ b. (l : wires.Leaf) → IsLeaf leaf.now l → IsTrue b ↔ IsPast depth own (certificate_of certificate.now) l) }
{
    match &leaf.body {
        Body::Basic(_) => Ok(true),
        Body::Served(service) => service_is_past(
            alloc,
            certificate,
            leaf.path.as_str(),
            service,
            depth,
            own,
        ),
    }
}

// The same of each of these leaves.
fn leaves_are_past(
    alloc: Global,
    certificate: &Certificate,
    leaves: &[Leaf],
    depth: u64,
    own: u64,
) -> Result<bool, AllocError>
    ensures each { IfOk result (λ b. IsTrue b → AllByRecursion (IsPastHere depth own (certificate_of certificate.now)) leaves.now) }
    ensures one { IfOk result (λ b. b ≡ false → Any (Fits depth own (certificate_of certificate.now)) leaves.now) }
{
    for leaf in leaves {
        let is_past = leaf_is_past(alloc, certificate, leaf, depth, own)?;
        if !is_past {
            return Ok(false);
        }
    }
    Ok(true)
}

/// Whether no other cause has room in this resource beside one that the arrival of this leaf opened.
pub fn is_alone(
    alloc: Global,
    verified: &Verified,
    resource: &FlatResource,
    leaf: &Leaf,
) -> Result<bool, AllocError>
    ensures { (d : system.Device) (q : ℕ) (r : system.Resource) (l : wires.Leaf) (e : Name) → slice_get d.resources q ≡ Some r → IsResource q (d.name ∷ []) resource.now r → IsLeaf leaf.now l → kind_arrivals l.kind ≡ e ∷ []
        → IfOk result (λ b. IsTrue b ↔ IsAlone (certificate_in verified.now) d q (at_place l.path e)) }
{
    let certificate = verified.certificate();
    let Ok(own) = arrival_places(alloc, certificate, leaf) else {
        return Err(AllocError);
    };
    let depth = depth(certificate, resource);
    let leaves = resource.leaves.as_slice();
    leaves_are_past(alloc, certificate, leaves, depth, own)
}
