//! Laws about certificates with room.

ghost use Rattle.std.specs.Prelude.{◌≡◌, ℕ};
ghost use Rattle.fb_model.specs.System.{System};
ghost use Rattle.fb_model.specs.Certificates.{Certificate, Fits};
ghost use Rattle.fb_cert.specs.Views.{Rows, book_of};
ghost use Rattle.fb_find_room.specs.Room.{roomy, roomy_rows};

/// A certificate that fits a system still fits it with room in its queues.
pub fn roomy_certificates_fit()
    ensures fits { (times : ℕ) (system : System) (cert : Certificate) → Fits system cert → Fits system (roomy times system.devices cert) }
    ensures rows { (times : ℕ) (system : System) (rows : Rows) → book_of (roomy_rows times system.devices rows) ≡ roomy times system.devices (book_of rows) }
{}
