//! Who is told of a verdict: people on a page, or programs.

use fb_verified::Verified;
use fbr_diagnosis::{Asked, Diagnosis, Meaning};
use fbr_explain::{meaning_parts, tell_bounds, tell_diagnosis};
use fbr_places::{Named, Writing};
use std::alloc::{AllocError, Global};

/// What is told of a verdict, part by part.
pub trait Teller {
    /// Tells the bounds of what fits, and the notes on its text but for those whose names are allowed; and whether there are notes.
    fn bounds(
        &mut self,
        alloc: Global,
        verified: &Verified,
        app: Named<'_>,
        allowed: &str,
    ) -> Result<bool, AllocError>;

    /// Tells where a refusal stands, what was found there, and what to do.
    fn diagnosis(&mut self, asked: Asked<'_>, diagnosis: &Diagnosis<'_>) -> Result<(), AllocError>;

    /// Tells which byte of a file that was not read is the first that is no UTF-8.
    fn stray(&mut self, said: &str);

    /// Tells what a number says and what to do, where there is no more to say.
    fn meaning(&mut self, meaning: Meaning);
}

impl Teller for Writing {
    fn bounds(
        &mut self,
        alloc: Global,
        verified: &Verified,
        app: Named<'_>,
        allowed: &str,
    ) -> Result<bool, AllocError> {
        tell_bounds(alloc, verified, app, allowed, self)
    }

    fn diagnosis(
        &mut self,
        _asked: Asked<'_>,
        diagnosis: &Diagnosis<'_>,
    ) -> Result<(), AllocError> {
        tell_diagnosis(diagnosis, self);
        Ok(())
    }

    fn stray(&mut self, said: &str) {
        self.put(said);
        self.put("\n");
    }

    fn meaning(&mut self, meaning: Meaning) {
        for part in meaning_parts(meaning) {
            self.put(part);
        }
    }
}
