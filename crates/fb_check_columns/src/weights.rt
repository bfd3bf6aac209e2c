//! The numbers of rows, and what an output of a leaf has to be paid.

ghost use Rattle.std.specs.Prelude.{◌≡◌, ◌≤◌, ℕ, map, min, string_bytes, IfOk, IfErr, OnOk};
ghost use Rattle.std.specs.List.{sum_by};
ghost use Rattle.fb_model.specs.CertificateText.{most_steps};
ghost use Rattle.fb_flat.specs.Sites.{dotted};
ghost use Rattle.fb_check_columns.specs.Sums.{IsSum};
ghost use Rattle.fb_check_columns.specs.Reckoning.{weight_of, charge_of, load_of, load_at, AreSums};
ghost use Rattle.fb_check_columns.specs.Paying.{IsMemory, IsCharge, IsWeight, Names, Pays};

use crate::column::{Column, is_within, plus};
use fb_cert::Certificate;
use fb_faults::Shortfall;
use fb_flat::{Output, Target, joined};
use std::alloc::{AllocError, Global};

/// The most that a row says.
const MOST: u64 = 1_000_000_000_000;

// A number, or the most that a row says.
fn capped(number: u64) -> u64
    ensures value { result ≡ min number most_steps }
    ensures small { result ≤ most_steps }
{
    number.min(MOST)
}

// Writes the row of a name at a path over a text: both joined by a dot.
fn write_row(row: &mut String, path: &str, name: &str) -> Result<(), AllocError>
    ensures { OnOk result (string_bytes row.new ≡ dotted path.now name.now) }
{
    row.clear();
    row.push_str(path)?;
    row.push_str(".")?;
    row.push_str(name)?;
    Ok(())
}

/// The weight of an event input or arrival. Its row is written over a text, which can be used again.
pub(crate) fn weight_in(
    row: &mut String,
    certificate: &Certificate,
    column: Column,
    path: &str,
    event: &str,
) -> Result<u64, Shortfall>
    ensures value { IfOk result (λ n. n ≡ weight_of column certificate.now path.now event.now) }
    ensures small { IfOk result (λ n. n ≤ most_steps) }
    ensures refused { IfErr result IsMemory }
{
    write_row(row, path, event)?;
    Ok(capped(column.weight(certificate, row.as_str())))
}

/// The charge of a state. Its row is written over a text, which can be used again.
pub(crate) fn charge_in(
    row: &mut String,
    certificate: &Certificate,
    column: Column,
    path: &str,
    state: &str,
) -> Result<u64, Shortfall>
    ensures value { IfOk result (λ n. n ≡ charge_of column certificate.now path.now state.now) }
    ensures small { IfOk result (λ n. n ≤ most_steps) }
    ensures refused { IfErr result IsMemory }
{
    write_row(row, path, state)?;
    Ok(capped(column.charge(certificate, row.as_str())))
}

/// The weight of an event input or arrival.
pub(crate) fn weight(
    alloc: Global,
    certificate: &Certificate,
    column: Column,
    path: &str,
    event: &str,
) -> Result<u64, Shortfall>
    ensures value { IfOk result (λ n. n ≡ weight_of column certificate.now path.now event.now) }
    ensures small { IfOk result (λ n. n ≤ most_steps) }
    ensures refused { IfErr result IsMemory }
{
    weight_in(&mut String::new(alloc), certificate, column, path, event)
}

/// The charge of a state.
pub(crate) fn charge(
    alloc: Global,
    certificate: &Certificate,
    column: Column,
    path: &str,
    state: &str,
) -> Result<u64, Shortfall>
    ensures value { IfOk result (λ n. n ≡ charge_of column certificate.now path.now state.now) }
    ensures small { IfOk result (λ n. n ≤ most_steps) }
    ensures refused { IfErr result IsMemory }
{
    charge_in(&mut String::new(alloc), certificate, column, path, state)
}

// The weights of all targets of an output.
fn load(
    row: &mut String,
    certificate: &Certificate,
    column: Column,
    targets: &[Target],
) -> Result<Option<u64>, Shortfall>
    ensures value { IfOk result (λ s. IsSum s (load_of column certificate.now targets.now)) }
    ensures refused { IfErr result IsMemory }
{
    let mut sum = Some(0);
    for target in targets {
        let next = weight_in(
            row,
            certificate,
            column,
            target.path.as_str(),
            target.event.as_str(),
        )?;
        sum = plus(sum, Some(next));
    }
    Ok(sum)
}

/// The loads of the outputs of a leaf: of each, the weights of all its targets.
pub(crate) fn loads(
    alloc: Global,
    certificate: &Certificate,
    column: Column,
    outputs: &[Output],
) -> Result<Vec<Option<u64>>, Shortfall>
    ensures values { IfOk result (λ v. AreSums v.items (map (λ o. load_of column certificate.now o.targets.items) outputs.now)) }
    ensures refused { IfErr result IsMemory }
{
    let mut row = String::new(alloc);
    let mut loads = Vec::new(alloc);
    for output in outputs {
        loads.push(load(&mut row, certificate, column, &output.targets)?)?;
    }
    Ok(loads)
}

// The load of the first output of a name, 0 where there is none.
fn load_named(
    alloc: Global,
    certificate: &Certificate,
    column: Column,
    outputs: &[Output],
    name: &str,
) -> Result<Option<u64>, Shortfall>
    ensures value { IfOk result (λ s. IsSum s (load_at column certificate.now outputs.now name.now)) }
    ensures refused { IfErr result IsMemory }
{
    for output in outputs {
        if name == output.name.as_str() {
            return load(
                &mut String::new(alloc),
                certificate,
                column,
                &output.targets,
            );
        }
    }
    Ok(Some(0))
}

/// The loads of all outputs of these names.
pub(crate) fn loads_named(
    alloc: Global,
    certificate: &Certificate,
    column: Column,
    outputs: &[Output],
    names: &[&str],
) -> Result<Option<u64>, Shortfall>
    ensures value { IfOk result (λ s. IsSum s (sum_by (load_at column certificate.now outputs.now) (map (λ n. n.now) names.now))) }
    ensures refused { IfErr result IsMemory }
{
    let mut sum = Some(0);
    for name in names {
        let next = load_named(alloc, certificate, column, outputs, *name)?;
        sum = plus(sum, next);
    }
    Ok(sum)
}

/// The charge of a state is at least what it has to pay.
pub(crate) fn charged(
    alloc: Global,
    path: &str,
    state: &str,
    need: Option<u64>,
    charge: u64,
) -> Result<(), Shortfall>
    requires { charge ≤ most_steps }
    ensures { (v : ℕ) → IsSum need v → Names (IsCharge path.now) state.now (v ≤ charge) result }
{
    if is_within(need, charge) {
        Ok(())
    } else {
        Err(Shortfall::Charge(joined(alloc, path, state)?))
    }
}

/// The weight of an event is at least 1, and what it has to pay.
pub(crate) fn weighed(
    alloc: Global,
    path: &str,
    event: &str,
    need: Option<u64>,
    weight: u64,
) -> Result<(), Shortfall>
    requires { weight ≤ most_steps }
    ensures { (v : ℕ) → IsSum need v → Names (IsWeight path.now) event.now (Pays weight v) result }
{
    if weight >= 1 && is_within(need, weight) {
        Ok(())
    } else {
        Err(Shortfall::Weight(joined(alloc, path, event)?))
    }
}
