//! What a refusal says against the certificate.

ghost use Rattle.std.specs.Prelude.{◌≡◌, List};
ghost use Rattle.fb_model.specs.System.{System};
ghost use Rattle.fb_model.specs.Ranges.{Range};
ghost use Rattle.fb_faults.specs.declared.unclear.Unclear.{Unclear};
ghost use Rattle.fb_faults.specs.declared.unclear.Unclear.TheVariants.{OutOfMemory};
ghost use Rattle.fb_model.specs.Misfits.{AllClear, IsUnclear};

/// Where something is not clear, not all is; so no refusal is told of a system whose rows are all clear.
pub fn refusals_deny()
    ensures { (ranges : List Range) (s : System) (f : Unclear) → IsUnclear ranges s f → AllClear ranges s → f ≡ OutOfMemory }
{}
