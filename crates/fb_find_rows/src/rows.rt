//! The rows CHARGE and WEIGHT of a certificate.

ghost use Rattle.std.specs.Prelude.{◌≡◌, [], slice_index, OnOk};
ghost use Rattle.fb_cert.specs.Views.{rows_of};
ghost use Rattle.fb_find_rows.specs.Places.{texts_of};
ghost use Rattle.fb_find_rows.specs.Numbers.{amounts, CanBeSaid, with_charges, with_weights};

use fb_cert::{Amount, Certificate, Row};
use indexmap::IndexSet;
use std::alloc::{AllocError, Global};

/// The number at a place, 0 behind the end.
pub(crate) fn number_at(numbers: &[u64], place: usize) -> u64
    ensures { result ≡ slice_index numbers.now place }
{
    match numbers.get(place) {
        Some(number) => *number,
        None => 0,
    }
}

/// Adds the rows CHARGE of states, with the numbers of both columns in the order of the states.
pub fn add_charges(
    alloc: Global,
    states: &IndexSet<String>,
    steps: &[u64],
    places: &[u64],
    certificate: &mut Certificate,
) -> Result<(), AllocError>
    ensures { (rows_of certificate.old).charges ≡ [] → CanBeSaid (texts_of states.now) steps.now places.now → OnOk result (rows_of certificate.new ≡ with_charges (amounts (texts_of states.now) steps.now places.now) (rows_of certificate.old)) }
{
    for index in 0..states.len() {
        let Some(text) = states.get_index(index) else {
            return Ok(());
        };
        let amount = Amount {
            steps: number_at(steps, index),
            places: number_at(places, index),
        };
        let _ = certificate.add(alloc, Row::Charge(text.as_str(), amount))?;
    }
    Ok(())
}

/// Adds the rows WEIGHT of events, with the numbers of both columns in the order of the events.
pub fn add_weights(
    alloc: Global,
    events: &IndexSet<String>,
    steps: &[u64],
    places: &[u64],
    certificate: &mut Certificate,
) -> Result<(), AllocError>
    ensures { (rows_of certificate.old).weights ≡ [] → CanBeSaid (texts_of events.now) steps.now places.now → OnOk result (rows_of certificate.new ≡ with_weights (amounts (texts_of events.now) steps.now places.now) (rows_of certificate.old)) }
{
    for index in 0..events.len() {
        let Some(text) = events.get_index(index) else {
            return Ok(());
        };
        let amount = Amount {
            steps: number_at(steps, index),
            places: number_at(places, index),
        };
        let _ = certificate.add(alloc, Row::Weight(text.as_str(), amount))?;
    }
    Ok(())
}
