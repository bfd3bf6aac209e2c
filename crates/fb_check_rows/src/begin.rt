//! When all BEGIN of a resource fit in its queue together: they arrive at once.

ghost use Rattle.std.specs.Prelude.{◌≡◌, IfOk, IfErr, OnOk};
ghost use Rattle.fb_types_services.specs.Views.{service_of};
ghost use Rattle.fb_check_rows.specs.Depths.{is_begun, IsBegin, ResourceBegins, IsDepthFault, IsMemory};

use crate::resource::{depth, service_places};
use fb_cert::Certificate;
use fb_faults::Shallow;
use fb_flat::{Body, FlatResource, Leaf};
use fb_types_services::Service;
use std::alloc::Global;

// Whether a service is one that says BEGIN.
fn begins(service: &Service) -> bool
    ensures { result ≡ is_begun (service_of service.now) }
{
    match service {
        Service::Restart => true,
        _ => false,
    }
}

/// The places of a leaf's BEGIN, 0 where it has none.
pub fn begin_places(alloc: Global, certificate: &Certificate, leaf: &Leaf) -> Result<u64, Shallow>
    ensures value { IfOk result (IsBegin certificate.now leaf.now) }
    ensures refused { IfErr result IsMemory }
{
    match &leaf.body {
        Body::Basic(_) => Ok(0),
        Body::Served(service) => {
            if begins(service) {
                service_places(alloc, certificate, leaf.path.as_str(), service)
            } else {
                Ok(0)
            }
        }
    }
}

/// The places of all BEGIN of a resource together are at most its depth.
pub fn begins_fit(
    alloc: Global,
    certificate: &Certificate,
    resource: &FlatResource,
) -> Result<(), Shallow>
    ensures fits { OnOk result (ResourceBegins certificate.now resource.now) }
    ensures refused { IfErr result (IsDepthFault certificate.now resource.now) }
{
    let mut left = depth(certificate, resource);
    for leaf in &resource.leaves {
        let places = begin_places(alloc, certificate, leaf)?;
        if places > left {
            return Err(Shallow::Depth(resource.path.clone()?));
        }
        left -= places;
    }
    Ok(())
}
