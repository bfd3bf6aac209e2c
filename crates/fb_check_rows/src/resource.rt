//! When each arrival fits in the queue of its resource.

ghost use Rattle.std.specs.Prelude.{◌≡◌, IfOk, IfErr, OnOk, string_bytes};
ghost use Rattle.fb_model.specs.Certificates as book;
ghost use Rattle.fb_model.specs.CertificateText.{place_of};
ghost use Rattle.fb_cert.specs.Views.{certificate_of};
ghost use Rattle.fb_types_services.specs.Views.{service_of};
ghost use Rattle.fb_check_rows.specs.Depths.{depth_of, arrival_of, IsMost, ResourceArrives, IsDepthFault, IsMemory};

use fb_cert::Certificate;
use fb_faults::Shallow;
use fb_flat::{Body, FlatResource, Leaf, joined};
use fb_types_services::Service;
use std::alloc::Global;

// The places of a WEIGHT row, 0 where there is none.
fn places(certificate: &Certificate, path: &str) -> u64
    ensures { result ≡ book.amount (λ r. r.places) (certificate_of certificate.now).weights (place_of path.now) }
{
    match certificate.weight(path) {
        Some(amount) => amount.places,
        None => 0,
    }
}

/// The places of a service's arrival, 0 where it has none.
pub fn service_places(
    alloc: Global,
    certificate: &Certificate,
    path: &str,
    service: &Service,
) -> Result<u64, Shallow>
    ensures value { IfOk result (λ n. n ≡ arrival_of (certificate_of certificate.now) path.now (service_of service.now)) }
    ensures refused { IfErr result IsMemory }
{
    match service.arrival() {
        Some(event) => {
            let row = joined(alloc, path, event)?;
            Ok(places(certificate, row.as_str()))
        }
        None => Ok(0),
    }
}

/// The places of a leaf's arrival, 0 where it has none.
pub fn arrival_places(alloc: Global, certificate: &Certificate, leaf: &Leaf) -> Result<u64, Shallow>
    ensures value { IfOk result (IsMost certificate.now leaf.now) }
    ensures refused { IfErr result IsMemory }
{
    match &leaf.body {
        Body::Basic(_) => Ok(0),
        Body::Served(service) => service_places(alloc, certificate, leaf.path.as_str(), service),
    }
}

/// The depth of a resource, 0 where it has no row.
pub fn depth(certificate: &Certificate, resource: &FlatResource) -> u64
    ensures { result ≡ depth_of certificate.now resource.now }
{
    certificate.depth(resource.path.as_str()).unwrap_or(0)
}

/// The places of each arrival of a resource are at most its depth.
pub fn arrivals_fit(
    alloc: Global,
    certificate: &Certificate,
    resource: &FlatResource,
) -> Result<(), Shallow>
    ensures fits { OnOk result (ResourceArrives certificate.now resource.now) }
    ensures refused { IfErr result (IsDepthFault certificate.now resource.now) }
{
    let depth = depth(certificate, resource);
    for leaf in &resource.leaves {
        if arrival_places(alloc, certificate, leaf)? > depth {
            return Err(Shallow::Depth(resource.path.clone()?));
        }
    }
    Ok(())
}
