//! What a row of a certificate has to pay for, term by term.

use fb_cert::Certificate;
use fb_check_columns::Column;
use std::alloc::Global;

/// What a row is of: a place by its path, or a channel.
#[derive(Clone, Copy)]
pub enum Of<'a> {
    Path(&'a str),
    Channel(u16),
}

/// What a term is there for.
#[derive(Drop)]
pub enum Cause {
    /// The event or the arrival itself.
    Own,
    Dispatch,
    Crossing,
    /// The algorithm of this name.
    Algorithm(String),
    /// The row of the state of this path.
    State(String),
    /// The row of the event input of this path.
    Event(String),
    /// The row of this channel.
    Channel(u16),
    /// So many deliveries to the SUBSCRIBE whose arrival has this path.
    Delivery(u8, String),
}

/// A term of a sum.
#[derive(Drop)]
pub struct Term {
    pub amount: u64,
    pub cause: Cause,
}

/// A column of a certificate.
#[derive(Clone, Copy)]
pub struct Account<'a> {
    pub alloc: Global,
    pub certificate: &'a Certificate,
    pub column: Column,
}

/// What terms are together.
pub fn sum_of(terms: &[Term]) -> u64 {
    let mut sum: u64 = 0;
    for term in terms {
        sum = sum.saturating_add(term.amount);
    }
    sum
}
