//! Instances of basic blocks and services, and their paths.

use fb_flat::{Body, Leaf};
use fb_types_services::Service;
use fb_words::ElemType;

/// An instance of a basic block or a service: the numbers of its device and its block, and what it is.
#[derive(Clone, Copy)]
pub struct NumberedLeaf<'a> {
    pub device: u16,
    pub block: u16,
    pub leaf: &'a Leaf,
}

/// What a name is to stand for.
#[derive(Clone, Copy)]
pub enum Sort {
    Input,
    Output,
    Block,
}

impl Sort {
    /// Whether an instance is of this sort.
    pub fn has(self, leaf: &Leaf) -> bool {
        match (self, &leaf.body) {
            (Sort::Block, _) => true,
            (Sort::Input, Body::Served(Service::Input(_, _))) => true,
            (Sort::Output, Body::Served(Service::Output(_, _))) => true,
            _ => false,
        }
    }

    /// Its name.
    pub fn name(self) -> &'static str {
        match self {
            Sort::Input => "INPUT",
            Sort::Output => "OUTPUT",
            Sort::Block => "block",
        }
    }
}

/// A path as the names of its device and its resource, and what is behind.
pub fn parts(path: &str) -> Option<(&str, &str, &str)> {
    let (device, rest) = path.split_once('.')?;
    let (resource, inner) = rest.split_once('.')?;
    Some((device, resource, inner))
}

/// Whether a path is these two, joined by a dot.
pub fn is_joined(path: &str, first: &str, rest: &str) -> bool {
    match path.strip_prefix(first) {
        Some(behind) => match behind.strip_prefix('.') {
            Some(found) => found == rest,
            None => false,
        },
        None => false,
    }
}

/// A number in two bytes. There are never as many devices or blocks as it cannot hold.
pub fn short(number: usize) -> u16 {
    u16::try_from(number).unwrap_or(u16::MAX)
}

impl<'a> NumberedLeaf<'a> {
    /// The number of an INPUT or OUTPUT, and the types of its values.
    pub fn port(self) -> Option<(u16, &'a [ElemType])> {
        match &self.leaf.body {
            Body::Served(Service::Input(number, types) | Service::Output(number, types)) => {
                Some((*number, types.as_slice()))
            }
            _ => None,
        }
    }

    /// Whether it is a service that something comes to from outside its device, or that shows it something.
    pub(crate) fn meets_outside(self) -> bool {
        match &self.leaf.body {
            Body::Served(service) => matches!(
                service,
                Service::Input(_, _)
                    | Service::Output(_, _)
                    | Service::Publish(_, _)
                    | Service::Subscribe(_, _)
            ),
            Body::Basic(_) => false,
        }
    }

    /// Its path behind the names of its device and its resource.
    pub fn inner(self) -> &'a str {
        let path: &'a str = self.leaf.path.as_str();
        match parts(path) {
            Some((_, _, inner)) => inner,
            None => path,
        }
    }
}
