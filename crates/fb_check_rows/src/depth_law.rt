//! A law of refusals.

ghost use Rattle.std.specs.Prelude.{◌≡◌};
ghost use Rattle.std.specs.List.{AllByRecursion};
ghost use Rattle.fb_model.specs.System.{System};
ghost use Rattle.fb_model.specs.Certificates.{Certificate};
ghost use Rattle.fb_faults.specs.declared.shallow.Shallow.{Shallow};
ghost use Rattle.fb_faults.specs.declared.shallow.Shallow.TheVariants.{OutOfMemory};
ghost use Rattle.fb_check_rows.specs.Depths.{IsDeep};
ghost use Rattle.fb_model.specs.Misfits.{IsShallowFault};

/// A refusal that is true of a certificate and a system denies that all queues are deep enough, unless memory ran out.
pub fn refusals_deny()
    ensures { (cert : Certificate) (s : System) (f : Shallow) → IsShallowFault cert s f → AllByRecursion (IsDeep cert) s.devices → f ≡ OutOfMemory }
{}
