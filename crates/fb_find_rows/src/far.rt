//! The rows FARSTATE, FAR and CHANNEL of a certificate.

ghost use Rattle.std.specs.Prelude.{◌≡◌, [], slice_index, OnOk};
ghost use Rattle.fb_cert.specs.Views.{rows_of};
ghost use Rattle.fb_find_rows.specs.Places.{texts_of};
ghost use Rattle.fb_find_rows.specs.Numbers.{counts, CanBeCounted, ChannelsCanBeCounted, with_channels, with_far_states, with_fars};

use crate::rows::number_at;
use fb_cert::{Certificate, Row};
use indexmap::IndexSet;
use std::alloc::{AllocError, Global};

/// Adds the rows FARSTATE of states, with their numbers in the order of the states.
pub fn add_far_states(
    alloc: Global,
    states: &IndexSet<String>,
    steps: &[u64],
    certificate: &mut Certificate,
) -> Result<(), AllocError>
    ensures { (rows_of certificate.old).far_states ≡ [] → CanBeCounted (texts_of states.now) steps.now → OnOk result (rows_of certificate.new ≡ with_far_states (counts (texts_of states.now) steps.now) (rows_of certificate.old)) }
{
    for index in 0..states.len() {
        let Some(text) = states.get_index(index) else {
            return Ok(());
        };
        let number = number_at(steps, index);
        let _ = certificate.add(alloc, Row::FarState(text.as_str(), number))?;
    }
    Ok(())
}

/// Adds the rows FAR of events, with their numbers in the order of the events.
pub fn add_fars(
    alloc: Global,
    events: &IndexSet<String>,
    steps: &[u64],
    certificate: &mut Certificate,
) -> Result<(), AllocError>
    ensures { (rows_of certificate.old).fars ≡ [] → CanBeCounted (texts_of events.now) steps.now → OnOk result (rows_of certificate.new ≡ with_fars (counts (texts_of events.now) steps.now) (rows_of certificate.old)) }
{
    for index in 0..events.len() {
        let Some(text) = events.get_index(index) else {
            return Ok(());
        };
        let number = number_at(steps, index);
        let _ = certificate.add(alloc, Row::Far(text.as_str(), number))?;
    }
    Ok(())
}

/// Adds the rows CHANNEL of channels, with their numbers in the order of the channels.
pub fn add_channels(
    alloc: Global,
    channels: &[u16],
    steps: &[u64],
    certificate: &mut Certificate,
) -> Result<(), AllocError>
    ensures { (rows_of certificate.old).channels ≡ [] → ChannelsCanBeCounted channels.now steps.now → OnOk result (rows_of certificate.new ≡ with_channels (counts channels.now steps.now) (rows_of certificate.old)) }
{
    for index in 0..channels.len() {
        let number = number_at(steps, index);
        let _ = certificate.add(alloc, Row::Channel(channels[index], number))?;
    }
    Ok(())
}
