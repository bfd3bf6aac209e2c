//! What it costs to enter the states of a block type.

use fb_cert::{Amount, Certificate};
use fb_faults::Place;
use fb_tree::FileTree;
use fbr_draw::Picture;
use fbr_places::instance_at;
use indexmap::IndexMap;
use std::alloc::{AllocError, Global};

/// The most that it costs to enter a state of some instances.
#[derive(Clone, Copy)]
pub struct Charge {
    pub steps: u64,
    pub places: u64,
    /// Steps on all devices.
    pub far: Option<u64>,
}

/// Charges, by the names of states.
pub type Charges = IndexMap<String, Charge>;

// Whether a path is that of an instance of a block type.
fn is_instance(file: &FileTree, path: &str, block: &str) -> bool {
    match instance_at(file, path) {
        Some(instance) => instance.of_type.text.as_str() == block,
        None => false,
    }
}

// The greater number of two, where there are such.
fn most(one: Option<u64>, two: Option<u64>) -> Option<u64> {
    match (one, two) {
        (Some(one), Some(two)) => Some(one.max(two)),
        (Some(one), None) => Some(one),
        (None, two) => two,
    }
}

// Adds the row of a state.
fn add(
    alloc: Global,
    state: &str,
    amount: Amount,
    far: Option<u64>,
    charges: &mut Charges,
) -> Result<(), AllocError> {
    let charge = match charges.get(state) {
        Some(charge) => Charge {
            steps: amount.steps.max(charge.steps),
            places: amount.places.max(charge.places),
            far: most(far, charge.far),
        },
        None => Charge {
            steps: amount.steps,
            places: amount.places,
            far,
        },
    };
    charges.insert(String::from_str(alloc, state)?, charge)?;
    Ok(())
}

// The same of a certificate.
fn charges_in(
    alloc: Global,
    file: &FileTree,
    certificate: &Certificate,
    block: &str,
) -> Result<Charges, AllocError> {
    let mut charges = IndexMap::new(alloc);
    let mut last = "";
    let mut is_of = false;
    for index in 0..certificate.charge_count() {
        if let Some((path, amount)) = certificate.charge_at(index) {
            if let Some((instance, state)) = path.rsplit_once('.') {
                if instance != last {
                    is_of = is_instance(file, instance, block);
                    last = instance;
                }
                if is_of {
                    add(
                        alloc,
                        state,
                        amount,
                        certificate.far_state(path),
                        &mut charges,
                    )?;
                }
            }
        }
    }
    Ok(charges)
}

/// The most that it costs to enter each state of a block type, in all its instances, where a certificate says it.
pub fn charges_of(
    alloc: Global,
    picture: &Picture<'_>,
    block: &str,
) -> Result<Charges, AllocError> {
    match picture.certificate {
        Some(certificate) => charges_in(alloc, picture.file, certificate, block),
        None => Ok(IndexMap::new(alloc)),
    }
}

/// Whether a walk comes to a state of a block type.
pub fn walks_state(picture: &Picture<'_>, block: &str, state: &str) -> bool {
    for step in picture.walk {
        if let Place::State(path) = step.place {
            if let Some((instance, name)) = path.rsplit_once('.') {
                if name == state && is_instance(picture.file, instance, block) {
                    return true;
                }
            }
        }
    }
    false
}
