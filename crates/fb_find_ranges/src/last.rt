//! All rounds.

ghost use Rattle.std.specs.Prelude.{◌≡◌, map, List, IfOk};
ghost use Rattle.std.specs.List.{AllByRecursion};
ghost use Rattle.fb_model.specs.Wires as wires;
ghost use Rattle.fb_model_laws.specs.Leaves.{AreApart, IsFed};
ghost use Rattle.fb_flat.specs.Tables.{AreLeaves};
ghost use Rattle.fb_ranges.specs.Views.{spans_of};
ghost use Rattle.fb_find_ranges.specs.Found.{AreLastTables};
ghost use Rattle.fb_find_ranges.specs.Lines.{next_number};

use crate::first::first_rows;
use crate::near::near;
use crate::round::next;
use crate::same::are_same;
use crate::table::all_ranges;
use crate::widen::LAST_EARLY_ROUND;
use fb_flat::Leaf;
use fb_ranges::Ranges;
use std::alloc::{AllocError, Global};

// The number of the next round. All late rounds are alike, and have one number.
fn later(round: u8) -> u8
    ensures { result ≡ next_number round }
{
    if round <= LAST_EARLY_ROUND {
        round + 1
    } else {
        round
    }
}

/// The ranges of the variables of a device's leaves after the last round of the finder, leaf by leaf: of a basic block those of all its
/// variables, of a service none.
pub fn last_rows(alloc: Global, leaves: &[&Leaf]) -> Result<Vec<Ranges>, AllocError>
    ensures { (bs : List wires.Leaf) → AreLeaves (map (λ l. l.now) leaves.now) bs → AreApart bs → AllByRecursion (IsFed bs) bs → IfOk result (λ v. AreLastTables bs (map spans_of v.items)) }
{
    let near = near(alloc, leaves)?;
    let mut rows = first_rows(alloc, leaves)?;
    let mut round = 1;
    loop {
        let grown = next(alloc, round, &near, rows.as_slice())?;
        if are_same(rows.as_slice(), grown.as_slice()) {
            return all_ranges(alloc, rows.as_slice());
        }
        rows = grown;
        round = later(round);
    }
}
