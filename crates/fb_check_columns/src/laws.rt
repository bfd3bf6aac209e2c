//! What a refusal says against the certificate.

ghost use Rattle.std.specs.Prelude.{◌≡◌, ℕ, List};
ghost use Rattle.fb_model.specs.System.{System};
ghost use Rattle.fb_model.specs.Ranges.{Range};
ghost use Rattle.fb_model.specs.Certificates.{Certificate, Column};
ghost use Rattle.fb_faults.specs.declared.shortfall.Shortfall.{Shortfall};
ghost use Rattle.fb_faults.specs.declared.shortfall.Shortfall.TheVariants.{OutOfMemory};
ghost use Rattle.fb_check_columns.specs.Fitting.{AllPay};
ghost use Rattle.fb_model.specs.Misfits.{IsUnpaid, IsShortChannel, ChannelsPay};

/// Where a row does not pay, the rows of the system do not all pay; so no refusal is told of a system whose rows do.
pub fn refusals_deny()
    ensures { (col : Column) (ranges : List Range) (s : System) (f : Shortfall) → IsUnpaid col ranges s f → AllPay col ranges s → f ≡ OutOfMemory }
{}

/// Where the row of a channel does not pay, the rows of the channels do not all pay; so no refusal is told where they do.
pub fn channels_deny()
    ensures { (cert : Certificate) (repeats : ℕ) (s : System) (f : Shortfall) → IsShortChannel cert repeats s f → ChannelsPay cert repeats s → f ≡ OutOfMemory }
{}
