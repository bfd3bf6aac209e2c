//! A system with a certificate that fits it.

ghost use Rattle.std.specs.Prelude.{◌≡◌, map};
ghost use Rattle.std.specs.Option.{option_map};
ghost use Rattle.fb_model.specs.Certificates.{Fits};
ghost use Rattle.fb_cert.specs.Views.{rows_of, certificate_of};
ghost use Rattle.fb_types.specs.Views.{system_of};
ghost use Rattle.fb_flat.specs.Leaves.{flat_device, written_device};
ghost use Rattle.fb_verified.specs.Lookups.{is_same_path, row_at};
ghost use Rattle.fb_verified.specs.Checked.{IsChecked};

use fb_cert::{Amount, Certificate};
use fb_flat::Flat;
use fb_types::{Configuration, Typed};
use std::marker::Model;

/// A system, its leaves with their wires, and a certificate that fits it: `check` of `fb_verdict` makes one, and whoever else shows that the certificate fits.
///
/// Paths are names joined by dots, from the device inwards; letter case has no meaning in them.
#[derive(Drop)]
pub struct Verified {
    typed: Typed,
    flat: Flat,
    certificate: Certificate,
}

impl Model for Verified {
    ghost use Rattle.fb_types.specs.contracts.typed.Configuration as configurations;
    ghost use Rattle.fb_flat.specs.contracts.flat.Flat as flats;
    ghost use Rattle.std.specs.Coded.{codes};
    ghost use Rattle.fb_verified.specs.Checked.{Checked, IsChecked};

    ghost Value = { Checked };

    ghost coded = { Prim.hlevel (codes, configurations.the_row.coded, flats.the_row.coded) };

    ghost view = { λ v. record { typed = v.typed; flat = v.flat; certificate = v.certificate } };

    ghost invariant = { λ v. IsChecked (record { typed = v.typed; flat = v.flat; certificate = v.certificate }) };
}

// Whether two paths are the same but for letter case.
fn is_same_path(one: &str, other: &str) -> bool
    ensures { result ≡ is_same_path one.now other.now }
{
    one.eq_ignore_ascii_case(other)
}

// The WEIGHT row of a path.
#[tactic(auto, using(crate::proofs::Lookups::row_here, crate::proofs::Lookups::row_past, crate::proofs::Lookups::row_none))]
fn weight_of(certificate: &Certificate, path: &str) -> Option<Amount>
    ensures { result ≡ row_at path.now (rows_of certificate.now).weights }
{
    for index in 0..certificate.weight_count() {
        let Some((row, amount)) = certificate.weight_at(index) else {
            return None;
        };
        if is_same_path(row, path) {
            return Some(amount);
        }
    }
    None
}

// The DEPTH row of a path.
#[tactic(auto, using(crate::proofs::Lookups::row_here, crate::proofs::Lookups::row_past, crate::proofs::Lookups::row_none))]
fn depth_of(certificate: &Certificate, path: &str) -> Option<u64>
    ensures { result ≡ row_at path.now (rows_of certificate.now).depths }
{
    for index in 0..certificate.depth_count() {
        let Some((row, depth)) = certificate.depth_at(index) else {
            return None;
        };
        if is_same_path(row, path) {
            return Some(depth);
        }
    }
    None
}

// The FAR row of a path.
#[tactic(auto, using(crate::proofs::Lookups::row_here, crate::proofs::Lookups::row_past, crate::proofs::Lookups::row_none))]
fn far_row(certificate: &Certificate, path: &str) -> Option<u64>
    ensures { result ≡ row_at path.now (rows_of certificate.now).fars }
{
    for index in 0..certificate.far_count() {
        let Some((row, steps)) = certificate.far_at(index) else {
            return None;
        };
        if is_same_path(row, path) {
            return Some(steps);
        }
    }
    None
}

impl Verified {
    /// A system, its leaves, and a certificate that fits it.
    pub fn new(typed: Typed, flat: Flat, certificate: Certificate) -> Verified
        requires fits { Fits (system_of typed) (certificate_of certificate) }
        requires tables { map flat_device flat.devices.items ≡ map written_device (system_of typed).devices }
        ensures { result ≡ record { typed = typed; flat = flat; certificate = certificate } }
    {
        typed.stands_in_text();
        certificate.stands_in_text();
        Verified {
            typed,
            flat,
            certificate,
        }
    }

    /// Lets it go. (A crate that lets it go by itself proves the end of each of its parts anew; this call is proved once.)
    pub fn let_go(self) {
        let Verified {
            typed,
            flat,
            certificate,
        } = self;
        typed.let_go();
        flat.let_go();
        certificate.let_go();
    }

    /// That the certificate fits the system, which stands in texts with it, for proofs: nothing is done.
    pub fn fits(&self)
        ensures { IsChecked self.now }
    {
        let _ = &self.typed;
    }

    /// The system, well typed.
    pub fn typed(&self) -> &Configuration
        ensures { result.now ≡ self.now.typed }
    {
        self.typed.configuration()
    }

    /// Its leaves, and where their event outputs lead.
    pub fn flat(&self) -> &Flat
        ensures { result.now ≡ self.now.flat }
    {
        &self.flat
    }

    /// The certificate that fits it.
    pub fn certificate(&self) -> &Certificate
        ensures { result.now ≡ self.now.certificate }
    {
        &self.certificate
    }

    /// The steps that one event at this event input or arrival can cause at most: those of its WEIGHT row. `None` where it has none.
    pub fn steps_of(&self, path: &str) -> Option<u64>
        ensures { result ≡ option_map (λ amount. amount.steps) (row_at path.now (rows_of self.now.certificate).weights) }
    {
        weight_of(&self.certificate, path).map(|amount| amount.steps)
    }

    /// The places that one event at this event input or arrival can take at most: those of its WEIGHT row. `None` where it has none.
    pub fn places_of(&self, path: &str) -> Option<u64>
        ensures { result ≡ option_map (λ amount. amount.places) (row_at path.now (rows_of self.now.certificate).weights) }
    {
        weight_of(&self.certificate, path).map(|amount| amount.places)
    }

    /// The steps on all devices that one event at this event input or arrival can cause at most, where each datagram is delivered at most REPEATS times to a
    /// device: those of its FAR row. `None` where it has none, as without a row REPEATS.
    pub fn far_of(&self, path: &str) -> Option<u64>
        ensures { result ≡ row_at path.now (rows_of self.now.certificate).fars }
    {
        far_row(&self.certificate, path)
    }

    /// The depth of this resource: that of its DEPTH row. `None` where it has none.
    pub fn depth(&self, path: &str) -> Option<u64>
        ensures { result ≡ row_at path.now (rows_of self.now.certificate).depths }
    {
        depth_of(&self.certificate, path)
    }
}
