//! What a row of a certificate says, and what it needs.

use crate::chart::{input_demands, state_demands};
use crate::service::{channel_demand, service_demand};
use crate::term::{Account, Cause, Of, Term, sum_of};
use fb_cert::Certificate;
use fb_check_columns::Column;
use fb_flat::{Body, Flat, Leaf};
use fbr_leaves::place_at;
use std::alloc::{AllocError, Global};

/// A row of a certificate, with the terms of what it needs.
#[derive(Drop)]
pub struct Sum<'a> {
    /// The kind of the row.
    pub row: &'static str,
    pub of: Of<'a>,
    pub says: u64,
    pub needs: u64,
    /// What is counted.
    pub unit: &'static str,
    /// Whether that is on all devices.
    pub is_far: bool,
    pub terms: Vec<Term>,
}

// The kind of row that states have in a column.
fn state_row(column: Column) -> &'static str {
    match column {
        Column::Steps | Column::Places => "CHARGE",
        Column::Far => "FARSTATE",
    }
}

// The kind of row that event inputs and arrivals have in a column.
fn event_row(column: Column) -> &'static str {
    match column {
        Column::Steps | Column::Places => "WEIGHT",
        Column::Far => "FAR",
    }
}

// What a column counts.
fn unit(column: Column) -> &'static str {
    match column {
        Column::Steps => "steps",
        Column::Places => "places",
        Column::Far => "steps on all devices",
    }
}

// The terms of the first of these demands that are more than a row says.
fn unpaid(demands: Vec<Vec<Term>>, says: u64) -> Option<Vec<Term>> {
    for terms in demands {
        if sum_of(&terms) > says {
            return Some(terms);
        }
    }
    None
}

// The sum of a row of which one of these demands is more than it says, if one is.
fn row_sum<'a>(
    account: &Account<'_>,
    row: &'static str,
    path: &'a str,
    says: u64,
    demands: Vec<Vec<Term>>,
) -> Option<Sum<'a>> {
    let terms = unpaid(demands, says)?;
    Some(Sum {
        row,
        of: Of::Path(path),
        says,
        needs: sum_of(&terms),
        unit: unit(account.column),
        is_far: matches!(account.column, Column::Far),
        terms,
    })
}

// What an event input or arrival of a leaf has to pay for.
fn event_demands(
    account: &Account<'_>,
    leaf: &Leaf,
    event: &str,
) -> Result<Vec<Vec<Term>>, AllocError> {
    let mut demands = match &leaf.body {
        Body::Basic(block) => input_demands(account, leaf, block, event)?,
        Body::Served(service) => {
            let mut demands = Vec::new(account.alloc);
            demands.push(service_demand(account, leaf, service, event)?)?;
            demands
        }
    };
    let mut own = Vec::new(account.alloc);
    own.push(Term {
        amount: 1,
        cause: Cause::Own,
    })?;
    demands.push(own)?;
    Ok(demands)
}

// The sum of the row of a state in a column, where it needs more than it says.
fn state_sum<'a>(
    account: &Account<'_>,
    flat: &Flat,
    path: &'a str,
) -> Result<Option<Sum<'a>>, AllocError> {
    let Some((leaf, name)) = place_at(flat, path) else {
        return Ok(None);
    };
    let Body::Basic(block) = &leaf.body else {
        return Ok(None);
    };
    let demands = state_demands(account, leaf, block, name)?;
    let says = account.column.charge(account.certificate, path);
    Ok(row_sum(account, state_row(account.column), path, says, demands))
}

// The sum of the row of an event input or arrival in a column, where it needs more than it says.
fn event_sum<'a>(
    account: &Account<'_>,
    flat: &Flat,
    path: &'a str,
) -> Result<Option<Sum<'a>>, AllocError> {
    let Some((leaf, name)) = place_at(flat, path) else {
        return Ok(None);
    };
    let demands = event_demands(account, leaf, name)?;
    let says = account.column.weight(account.certificate, path);
    Ok(row_sum(account, event_row(account.column), path, says, demands))
}

/// What the row of a state says and needs: in steps, or where these suffice in places.
pub fn charge_sum<'a>(
    alloc: Global,
    flat: &Flat,
    certificate: &Certificate,
    path: &'a str,
) -> Result<Option<Sum<'a>>, AllocError> {
    for column in [Column::Steps, Column::Places] {
        let account = Account {
            alloc,
            certificate,
            column,
        };
        let sum = state_sum(&account, flat, path)?;
        if sum.is_some() {
            return Ok(sum);
        }
    }
    Ok(None)
}

/// What the row of an event input or arrival says and needs: in steps, or where these suffice in places.
pub fn weight_sum<'a>(
    alloc: Global,
    flat: &Flat,
    certificate: &Certificate,
    path: &'a str,
) -> Result<Option<Sum<'a>>, AllocError> {
    for column in [Column::Steps, Column::Places] {
        let account = Account {
            alloc,
            certificate,
            column,
        };
        let sum = event_sum(&account, flat, path)?;
        if sum.is_some() {
            return Ok(sum);
        }
    }
    Ok(None)
}

/// What the row of a state, an event input or an arrival says and needs in steps on all devices.
pub fn far_sum<'a>(
    alloc: Global,
    flat: &Flat,
    certificate: &Certificate,
    path: &'a str,
) -> Result<Option<Sum<'a>>, AllocError> {
    let account = Account {
        alloc,
        certificate,
        column: Column::Far,
    };
    let sum = state_sum(&account, flat, path)?;
    if sum.is_some() {
        return Ok(sum);
    }
    event_sum(&account, flat, path)
}

/// What the row of a channel says and needs in steps on all devices.
pub fn channel_sum<'a>(
    alloc: Global,
    flat: &Flat,
    certificate: &Certificate,
    number: u16,
) -> Result<Sum<'a>, AllocError> {
    let account = Account {
        alloc,
        certificate,
        column: Column::Far,
    };
    let repeats = certificate.repeats().unwrap_or(1);
    let terms = channel_demand(&account, repeats, number, flat)?;
    Ok(Sum {
        row: "CHANNEL",
        of: Of::Channel(number),
        says: account.column.sending(certificate, number),
        needs: sum_of(&terms),
        unit: unit(account.column),
        is_far: matches!(account.column, Column::Far),
        terms,
    })
}
