//! The rows of a basic block in a column, each read once.

ghost use Rattle.std.specs.Prelude.{◌≡◌, ◌≤◌, ◌<◌, Some, IfOk, IfErr, length, map, slice_get};
ghost use Rattle.fb_model.specs.Names.{Name};
ghost use Rattle.fb_model.specs.CertificateText.{most_steps};
ghost use Rattle.fb_check_columns.specs.Reckoning.{table_names, charge_of, weight_of};
ghost use Rattle.fb_check_columns.specs.Read.{AreRead};
ghost use Rattle.fb_check_columns.specs.Paying.{IsMemory};

use crate::column::Column;
use crate::weights::{charge, charge_in, weight, weight_in};
use fb_cert::Certificate;
use fb_faults::Shortfall;
use fb_types_blocks::{Action, Block, Events};
use indexmap::IndexMap;
use std::alloc::Global;

/// A leaf's basic block, the column of a certificate that it is judged in, and what the rows say there: the charge of each state and
/// the weight of each event input, in their orders.
#[derive(Clone, Copy)]
pub(crate) struct Rows<'a> {
    pub(crate) certificate: &'a Certificate,
    pub(crate) column: Column,
    pub(crate) path: &'a str,
    pub(crate) block: &'a Block,
    pub(crate) charges: &'a [u64],
    pub(crate) weights: &'a [u64],
}

impl Rows<'_> {
    /// The charge of the state at this place.
    pub(crate) fn charge_at(&self, index: usize) -> u64
        requires read { AreRead self.now }
        requires within { index < length self.now.block.now.states.entries }
        ensures value { (x : Name) → Some x ≡ slice_get (table_names self.now.block.now.states) index → result ≡ charge_of self.now.column self.now.certificate.now self.now.path.now x }
        ensures small { result ≤ most_steps }
    {
        self.charges[index]
    }

    /// The weight of the event input at this place.
    pub(crate) fn weight_at(&self, index: usize) -> u64
        requires read { AreRead self.now }
        requires within { index < length self.now.block.now.face.event_inputs.entries }
        ensures value { (x : Name) → Some x ≡ slice_get (table_names self.now.block.now.face.event_inputs) index → result ≡ weight_of self.now.column self.now.certificate.now self.now.path.now x }
        ensures small { result ≤ most_steps }
    {
        self.weights[index]
    }

    /// The charge of the state of this name; where no state has it, read from the certificate.
    pub(crate) fn charge(&self, alloc: Global, state: &str) -> Result<u64, Shortfall>
        requires { AreRead self.now }
        ensures value { IfOk result (λ n. n ≡ charge_of self.now.column self.now.certificate.now self.now.path.now state.now) }
        ensures small { IfOk result (λ n. n ≤ most_steps) }
        ensures refused { IfErr result IsMemory }
    {
        match self.block.states.get_index_of(state) {
            Some(index) => Ok(self.charge_at(index)),
            None => charge(alloc, self.certificate, self.column, self.path, state),
        }
    }

    /// The weight of the event input of this name; where no event input has it, read from the certificate.
    pub(crate) fn weight(&self, alloc: Global, event: &str) -> Result<u64, Shortfall>
        requires { AreRead self.now }
        ensures value { IfOk result (λ n. n ≡ weight_of self.now.column self.now.certificate.now self.now.path.now event.now) }
        ensures small { IfOk result (λ n. n ≤ most_steps) }
        ensures refused { IfErr result IsMemory }
    {
        match self.block.face.event_inputs.get_index_of(event) {
            Some(index) => Ok(self.weight_at(index)),
            None => weight(alloc, self.certificate, self.column, self.path, event),
        }
    }
}

/// The charges of all states, in their order.
pub(crate) fn charges(
    alloc: Global,
    certificate: &Certificate,
    column: Column,
    path: &str,
    states: &IndexMap<String, Vec<Action>>,
) -> Result<Vec<u64>, Shortfall>
    ensures values { IfOk result (λ v. v.items ≡ map (charge_of column certificate.now path.now) (table_names states.now)) }
    ensures refused { IfErr result IsMemory }
{
    let mut row = String::new(alloc);
    let mut charges = Vec::new(alloc);
    for index in 0..states.len() {
        let Some((state, _)) = states.get_index(index) else {
            return Ok(charges);
        };
        let charge = charge_in(&mut row, certificate, column, path, state.as_str())?;
        charges.push(charge)?;
    }
    Ok(charges)
}

/// The weights of all event inputs, in their order.
pub(crate) fn weights(
    alloc: Global,
    certificate: &Certificate,
    column: Column,
    path: &str,
    inputs: &Events,
) -> Result<Vec<u64>, Shortfall>
    ensures values { IfOk result (λ v. v.items ≡ map (weight_of column certificate.now path.now) (table_names inputs.now)) }
    ensures refused { IfErr result IsMemory }
{
    let mut row = String::new(alloc);
    let mut weights = Vec::new(alloc);
    for index in 0..inputs.len() {
        let Some((event, _)) = inputs.get_index(index) else {
            return Ok(weights);
        };
        let weight = weight_in(&mut row, certificate, column, path, event.as_str())?;
        weights.push(weight)?;
    }
    Ok(weights)
}
