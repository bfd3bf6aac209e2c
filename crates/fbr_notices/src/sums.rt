//! What turns did, in all.

ghost use Rattle.std.specs.Prelude.{◌≡◌, []};
ghost use Rattle.fbr_notices.specs.Sums.{sums_of, with_report};

use fb_turn::Report;
use std::fmt;

/// What turns did, in all.
#[derive(Clone, Copy)]
pub struct Sums {
    pub fired: u64,
    pub received: u64,
    pub denied: u64,
    pub ran: u64,
    pub sent: u64,
    pub lost: u64,
}

// What came to a device, as `fired 0 received 1 denied 0`.
#[derive(Clone, Copy)]
struct Came(Sums);

impl fmt::Display for Came {
    ghost use Rattle.std.specs.Prelude.{Some};
    ghost use Rattle.fbr_notices.specs.Sums.{came_text};

    ghost output = { λ c. Some (came_text c.0) };

    fn fmt<W: fmt::Write>(&self, f: &mut fmt::Formatter<W>) -> fmt::Result {
        let Came(sums) = self;
        let Sums {
            fired,
            received,
            denied,
            ..
        } = *sums;
        write!(f, "fired {fired} received {received} denied {denied}")
    }
}

// What ran and went out, as `ran 3 sent 1 lost 0`.
#[derive(Clone, Copy)]
struct Went(Sums);

impl fmt::Display for Went {
    ghost use Rattle.std.specs.Prelude.{Some};
    ghost use Rattle.fbr_notices.specs.Sums.{went_text};

    ghost output = { λ w. Some (went_text w.0) };

    fn fmt<W: fmt::Write>(&self, f: &mut fmt::Formatter<W>) -> fmt::Result {
        let Went(sums) = self;
        let Sums {
            ran,
            sent,
            lost,
            ..
        } = *sums;
        write!(f, "ran {ran} sent {sent} lost {lost}")
    }
}

/// `fired 0 received 1 denied 0 ran 3 sent 1 lost 0`
impl fmt::Display for Sums {
    ghost use Rattle.std.specs.Prelude.{Some};
    ghost use Rattle.fbr_notices.specs.Sums.{sums_text};

    ghost output = { λ s. Some (sums_text s) };

    fn fmt<W: fmt::Write>(&self, f: &mut fmt::Formatter<W>) -> fmt::Result {
        let came = Came(*self);
        let went = Went(*self);
        write!(f, "{came} {went}")
    }
}

impl Sums {
    /// Before the first turn.
    pub fn none() -> Sums
        ensures { result ≡ sums_of [] }
    {
        Sums {
            fired: 0,
            received: 0,
            denied: 0,
            ran: 0,
            sent: 0,
            lost: 0,
        }
    }

    /// With one turn more. A sum stays where it can rise no more.
    pub fn with(self, report: Report) -> Sums
        ensures { result ≡ with_report self report }
    {
        Sums {
            fired: self.fired.saturating_add(report.fired as u64),
            received: self.received.saturating_add(report.received as u64),
            denied: self.denied.saturating_add(report.denied as u64),
            ran: self.ran.saturating_add(report.ran as u64),
            sent: self.sent.saturating_add(report.sent as u64),
            lost: self.lost.saturating_add(report.lost as u64),
        }
    }
}
