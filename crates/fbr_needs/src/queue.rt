//! What arrivals take of a queue.

use fb_cert::Certificate;
use fb_flat::{Body, Flat, FlatResource, joined};
use fb_types_services::Service;
use fbr_leaves::resource_at;
use std::alloc::{AllocError, Global};

/// What an arrival comes to: an INPUT, a SUBSCRIBE, a timer, or an E_RESTART, whose BEGIN comes once, at the start.
#[derive(Clone, Copy)]
pub enum ArrivalKind {
    Input,
    Subscribe,
    Timer,
    Begin,
}

/// An arrival, the places that one event there takes at most, and its kind.
#[derive(Drop)]
pub struct Arrival {
    pub path: String,
    pub places: u64,
    pub kind: ArrivalKind,
}

impl Arrival {
    /// Whether it is a BEGIN.
    pub fn is_begin(&self) -> bool {
        matches!(self.kind, ArrivalKind::Begin)
    }
}

/// The queue of a resource: its path, the depth that its row says, and the arrivals that it takes.
#[derive(Drop)]
pub struct Queue<'a> {
    pub path: &'a str,
    pub depth: u64,
    pub arrivals: Vec<Arrival>,
}

impl Queue<'_> {
    /// The places that all its arrivals take together, each of them once.
    pub fn places(&self) -> u64 {
        let mut places: u64 = 0;
        for arrival in &self.arrivals {
            places = places.saturating_add(arrival.places);
        }
        places
    }

    /// How many of an arrival the queue takes at once, if it holds nothing else.
    pub fn fitting(&self, arrival: &Arrival) -> u64 {
        self.depth.checked_div(arrival.places).unwrap_or(0)
    }

    /// The path of an arrival within the resource.
    pub fn within<'b>(&self, arrival: &'b Arrival) -> &'b str {
        let path = arrival.path.as_str();
        match path.strip_prefix(self.path) {
            Some(rest) => rest.strip_prefix('.').unwrap_or(rest),
            None => path,
        }
    }
}

// The places of an arrival, 0 where it has no row.
fn places(certificate: &Certificate, path: &str) -> u64 {
    match certificate.weight(path) {
        Some(amount) => amount.places,
        None => 0,
    }
}

// The kind of the arrival of a service, which has one.
fn kind_of(service: &Service) -> ArrivalKind {
    match service {
        Service::Input(_, _) => ArrivalKind::Input,
        Service::Restart => ArrivalKind::Begin,
        Service::Delay | Service::Cycle => ArrivalKind::Timer,
        _ => ArrivalKind::Subscribe,
    }
}

// The arrivals of a resource.
fn arrivals_of(
    alloc: Global,
    certificate: &Certificate,
    resource: &FlatResource,
) -> Result<Vec<Arrival>, AllocError> {
    let mut arrivals = Vec::new(alloc);
    for leaf in &resource.leaves {
        if let Body::Served(service) = &leaf.body {
            if let Some(event) = service.arrival() {
                let path = joined(alloc, leaf.path.as_str(), event)?;
                arrivals.push(Arrival {
                    places: places(certificate, path.as_str()),
                    kind: kind_of(service),
                    path,
                })?;
            }
        }
    }
    Ok(arrivals)
}

/// The queue of a resource.
pub fn queue_in<'a>(
    alloc: Global,
    certificate: &Certificate,
    resource: &'a FlatResource,
) -> Result<Queue<'a>, AllocError> {
    let path = resource.path.as_str();
    Ok(Queue {
        path,
        depth: certificate.depth(path).unwrap_or(0),
        arrivals: arrivals_of(alloc, certificate, resource)?,
    })
}

/// The queue of the resource of a path, if there is one.
pub fn queue_of<'a>(
    alloc: Global,
    flat: &'a Flat,
    certificate: &Certificate,
    path: &str,
) -> Result<Option<Queue<'a>>, AllocError> {
    match resource_at(flat, path) {
        Some(resource) => Ok(Some(queue_in(alloc, certificate, resource)?)),
        None => Ok(None),
    }
}
