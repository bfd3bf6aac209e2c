//! What the rows of services' events, and of channels, have to pay for.

use crate::chart::{add_output, add_unit};
use crate::term::{Account, Cause, Term};
use fb_check_columns::Column;
use fb_flat::{Flat, Leaf, joined};
use fb_types_services::Service;
use fbr_leaves::{admitted, received_from, sent_on};
use std::alloc::AllocError;

// Adds the datagram that an event can send.
fn add_datagram(
    account: &Account<'_>,
    leaf: &Leaf,
    event: &str,
    terms: &mut Vec<Term>,
) -> Result<(), AllocError> {
    if event == "INIT" {
        return Ok(());
    }
    match (account.column, sent_on(leaf)) {
        (Column::Far, Some(channel)) => {
            terms.push(Term {
                amount: account.column.sending(account.certificate, channel.number),
                cause: Cause::Channel(channel.number),
            })?;
            Ok(())
        }
        _ => Ok(()),
    }
}

/// What the row of a service's event has to pay for: its dispatch, what it can emit, and a datagram that it can send.
pub fn service_demand(
    account: &Account<'_>,
    leaf: &Leaf,
    service: &Service,
    event: &str,
) -> Result<Vec<Term>, AllocError> {
    let mut terms = Vec::new(account.alloc);
    add_unit(account, Cause::Dispatch, &mut terms)?;
    for name in service.emitted(event) {
        add_output(account, leaf, *name, &mut terms)?;
    }
    add_datagram(account, leaf, event, &mut terms)?;
    Ok(terms)
}

// Adds the deliveries to a leaf, where it is a SUBSCRIBE of the channel.
fn add_delivery(
    account: &Account<'_>,
    repeats: u8,
    number: u16,
    leaf: &Leaf,
    terms: &mut Vec<Term>,
) -> Result<(), AllocError> {
    let Some(channel) = received_from(leaf) else {
        return Ok(());
    };
    if channel.number == number {
        let path = joined(account.alloc, leaf.path.as_str(), "ARRIVE")?;
        let times = admitted(repeats, channel);
        let once = account.column.weight(account.certificate, path.as_str());
        terms.push(Term {
            amount: u64::from(times).saturating_mul(once),
            cause: Cause::Delivery(times, path),
        })?;
    }
    Ok(())
}

/// What the row of a channel has to pay for: its deliveries to each SUBSCRIBE.
pub fn channel_demand(
    account: &Account<'_>,
    repeats: u8,
    number: u16,
    flat: &Flat,
) -> Result<Vec<Term>, AllocError> {
    let mut terms = Vec::new(account.alloc);
    for device in &flat.devices {
        for resource in &device.resources {
            for leaf in &resource.leaves {
                add_delivery(account, repeats, number, leaf, &mut terms)?;
            }
        }
    }
    Ok(terms)
}
