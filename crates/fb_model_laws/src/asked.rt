//! Laws about what algorithms ask of rows: rows only grow, and nothing leaves rows that hold all that is asked.

ghost use Rattle.std.specs.Prelude.{◌≡◌, ◌≢◌, true};
ghost use Rattle.fb_model.specs.Names.{Name};
ghost use Rattle.fb_model.specs.Language.{Algorithm};
ghost use Rattle.fb_model.specs.Spans.{within};
ghost use Rattle.fb_model.specs.Clear.{Spans, Leaves, examined};
ghost use Rattle.fb_model.specs.Asking.{grown};

/// What an algorithm asks only enlarges rows.
pub fn rows_only_grow()
    ensures { (rows : Spans) (a : Algorithm) (x : Name) → within (rows x) (grown rows a x) ≡ true }
{}

/// Where the rows hold all that an algorithm asks, nothing leaves them: it is clear under them, or may trap.
pub fn what_is_asked_is_enough()
    ensures { (rows : Spans) (a : Algorithm) → ((x : Name) → within (grown rows a x) (rows x) ≡ true) → examined rows a ≢ Leaves }
{}
