//! Columns of a certificate, and sums in them.

ghost use Rattle.std.specs.Prelude.{◌≡◌, ◌≤◌, ◌+◌, ◌↔◌, ℕ, IsTrue};
ghost use Rattle.fb_model.specs.CertificateText.{most_steps};
ghost use Rattle.fb_cert.specs.Views.{certificate_of, steps_in, places_in, count_in};
ghost use Rattle.fb_check_columns.specs.Columns.{unit_of, column_of};
ghost use Rattle.fb_check_columns.specs.Reckoning.{weight_row, charge_row};
ghost use Rattle.fb_check_columns.specs.Sums.{IsSum};

use fb_cert::{Amount, Certificate};

/// A column of a certificate: its steps, its places, or its steps on all devices.
#[derive(Clone, Copy)]
pub enum Column {
    Steps,
    Places,
    Far,
}

// The steps of a row, 0 where there is no row.
fn steps(row: Option<Amount>) -> u64
    ensures { result ≡ steps_in row }
{
    match row {
        Some(amount) => amount.steps,
        None => 0,
    }
}

// The places of a row, 0 where there is no row.
fn places(row: Option<Amount>) -> u64
    ensures { result ≡ places_in row }
{
    match row {
        Some(amount) => amount.places,
        None => 0,
    }
}

// The only number of a row, 0 where there is no row.
fn count(row: Option<u64>) -> u64
    ensures { result ≡ count_in row }
{
    match row {
        Some(number) => number,
        None => 0,
    }
}

impl Column {
    /// What a dispatch or a crossing counts.
    pub fn unit(self) -> u64
        ensures value { result ≡ unit_of self }
        ensures small { result ≤ 1 }
    {
        match self {
            Column::Steps => 1,
            Column::Places => 0,
            Column::Far => 1,
        }
    }

    /// What the row of an event input or arrival says in this column.
    pub fn weight(self, certificate: &Certificate, row: &str) -> u64
        ensures { result ≡ weight_row self certificate.now row.now }
    {
        match self {
            Column::Steps => steps(certificate.weight(row)),
            Column::Places => places(certificate.weight(row)),
            Column::Far => count(certificate.far(row)),
        }
    }

    /// What the row of a state says in this column.
    pub fn charge(self, certificate: &Certificate, row: &str) -> u64
        ensures { result ≡ charge_row self certificate.now row.now }
    {
        match self {
            Column::Steps => steps(certificate.charge(row)),
            Column::Places => places(certificate.charge(row)),
            Column::Far => count(certificate.far_state(row)),
        }
    }

    /// What a datagram of a channel has to be paid in this column.
    pub fn sending(self, certificate: &Certificate, number: u16) -> u64
        ensures { result ≡ (column_of self (certificate_of certificate.now)).sending number }
    {
        match self {
            Column::Steps => 0,
            Column::Places => 0,
            Column::Far => count(certificate.channel(number)),
        }
    }
}

/// The sum of two numbers; `None` stands for one that is more than the most steps of a row.
pub fn plus(a: Option<u64>, b: Option<u64>) -> Option<u64>
    ensures { (v w : ℕ) → IsSum a v → IsSum b w → IsSum result (v + w) }
{
    match a {
        Some(a) => match b {
            Some(b) => a.checked_add(b),
            None => None,
        },
        None => None,
    }
}

/// Whether a sum is at most this number.
pub fn is_within(sum: Option<u64>, most: u64) -> bool
    requires { most ≤ most_steps }
    ensures { (v : ℕ) → IsSum sum v → IsTrue result ↔ (v ≤ most) }
{
    match sum {
        Some(sum) => sum <= most,
        None => false,
    }
}
