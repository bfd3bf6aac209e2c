//! What algorithms and guards are under the ranges of a certificate.

use crate::case::Case;
use crate::systems::flat;
use crate::text::{ended, refused, text_of};
use fb_cert::{Certificate, parse_cert};
use fb_check_ranges::block_rows;
use fb_flat::{Body, Flat, Leaf};
use fb_ranges::{Ranges, check_algorithm, check_guard, copied, max_steps};
use st_types::{Algo, TypedExpr};
use std::alloc::{AllocError, Global};
use std::fmt::Write;

// The most steps of an algorithm, or why it is refused, by examinations in a copy of the rows.
fn cost(alloc: Global, algorithm: &Algo, rows: &Ranges) -> Result<String, AllocError> {
    let mut work = copied(rows)?;
    let mut asked = copied(rows)?;
    match check_algorithm(alloc, algorithm, rows, &mut work, &mut asked) {
        Ok(()) => match max_steps(alloc, algorithm, rows, &mut work, &mut asked) {
            Ok(Some(steps)) => format!(in alloc; "{steps}"),
            Ok(None) => String::from_str(alloc, "many"),
            Err(_) => Err(AllocError),
        },
        Err(fault) => refused(alloc, &fault),
    }
}

// Whether a guard is clear.
fn cleared(alloc: Global, guard: &TypedExpr, rows: &Ranges) -> Result<String, AllocError> {
    match check_guard(alloc, guard, rows) {
        Ok(()) => String::from_str(alloc, "clear"),
        Err(fault) => refused(alloc, &fault),
    }
}

// The most steps of each algorithm of a block under its rows, and whether its guards are clear.
fn leaf_ranges(
    alloc: Global,
    out: &mut String,
    leaf: &Leaf,
    certificate: &Certificate,
) -> Result<(), AllocError> {
    let Body::Basic(block) = &leaf.body else {
        return Ok(());
    };
    let rows = block_rows(alloc, certificate, leaf.path.as_str(), block)?;
    for (name, algorithm) in &block.procedures {
        let told = cost(alloc, algorithm, &rows)?;
        writeln!(out, "{name} {told}")?;
    }
    for transition in &block.transitions {
        if let Some(guard) = &transition.guard {
            let told = cleared(alloc, guard, &rows)?;
            out.push_str("guard ")?;
            out.push_str(told.as_str())?;
            out.push('\n')?;
        }
    }
    Ok(())
}

// The same of all leaves.
fn all_ranges(alloc: Global, flat: &Flat, rows: &Certificate) -> Result<String, AllocError> {
    let mut out = String::new(alloc);
    for device in &flat.devices {
        for resource in &device.resources {
            for leaf in &resource.leaves {
                leaf_ranges(alloc, &mut out, leaf, rows)?;
            }
        }
    }
    Ok(ended(out))
}

// The same under the ranges of a certificate's text.
fn certified(alloc: Global, flat: &Flat, text: &str) -> Result<String, AllocError> {
    match parse_cert(alloc, text) {
        Ok(rows) => {
            let answer = all_ranges(alloc, flat, &rows);
            rows.let_go();
            answer
        }
        Err(fault) => refused(alloc, &fault),
    }
}

/// The most steps of each algorithm of the basic blocks under the ranges of a certificate, or why it is refused, and whether their
/// guards are clear.
pub fn ranges(alloc: Global, case: &Case<'_>) -> Result<String, AllocError> {
    let text = format!(in alloc; "{}\n{}", case.text("certificate"), case.text("row"))?;
    match flat(alloc, case)? {
        Ok(flat) => {
            let answer = certified(alloc, &flat, text.as_str());
            flat.let_go();
            answer
        }
        Err(refusal) => Ok(refusal),
    }
}
