//! The numbers and the channels of services.

use fb_flat::{Body, Leaf};
use fb_types_services::{Channel, Service};
use fb_words::{ElemType, Format};

/// The channel that a leaf sends on.
pub fn sent_on(leaf: &Leaf) -> Option<&Channel> {
    match &leaf.body {
        Body::Served(Service::Publish(channel, _)) => Some(channel),
        _ => None,
    }
}

/// The channel that a leaf receives from.
pub fn received_from(leaf: &Leaf) -> Option<&Channel> {
    match &leaf.body {
        Body::Served(Service::Subscribe(channel, _)) => Some(channel),
        _ => None,
    }
}

/// The channel of a leaf that sends or receives.
pub fn channel_of(leaf: &Leaf) -> Option<&Channel> {
    match &leaf.body {
        Body::Served(Service::Publish(channel, _) | Service::Subscribe(channel, _)) => {
            Some(channel)
        }
        _ => None,
    }
}

/// The number of a leaf that is an INPUT or an OUTPUT, or that of its channel.
pub fn number_of(leaf: &Leaf) -> Option<u16> {
    match &leaf.body {
        Body::Served(Service::Input(number, _) | Service::Output(number, _)) => Some(*number),
        _ => Some(channel_of(leaf)?.number),
    }
}

/// The types of the values of a service; of a timer and of a block there are none.
pub fn types_of(leaf: &Leaf) -> &[ElemType] {
    match &leaf.body {
        Body::Served(
            Service::Input(_, types)
            | Service::Output(_, types)
            | Service::Publish(_, types)
            | Service::Subscribe(_, types),
        ) => types.as_slice(),
        _ => &[],
    }
}

/// How often a datagram of a channel may be admitted at a SUBSCRIBE, where the network brings each so many times.
pub fn admitted(repeats: u8, channel: &Channel) -> u8 {
    match channel.format {
        Format::First => repeats,
        Format::Second => 1,
    }
}
