//! Laws of armed timers.

ghost use Rattle.std.specs.Prelude.{ℕ, ◌≡◌, ◌==◌, List, None, Some, if◌then◌else◌, slice_get};
ghost use Rattle.fb_model.specs.Wires.{Leaf};
ghost use Rattle.fb_model.specs.Store.{Store};
ghost use Rattle.fb_model.specs.Devices.{due_timers};
ghost use Rattle.fb_sched.specs.declared.armed.Armed.{Armed};
ghost use Rattle.fb_sched.specs.Order.{IsOrdered, AreApart, placed, without, due_of, due_at};
ghost use Rattle.fb_sched.specs.Expiry.{AreArmed, leaves_at, leaf_of};

/// The leaves of the timers that are due at a moment are the due timers of the book, in the same order.
pub fn due_timers_are_leaves()
    ensures { (store : Store) (all : List Leaf) (armed : List Armed) (clock : ℕ) → IsOrdered armed → AreApart armed → AreArmed store all armed → due_timers store clock all ≡ leaves_at all (due_at clock armed) }
{}

/// Of the timers that are due at a moment, the one of an index is that of the leaf of this index among the due timers of the book.
pub fn due_timer_is_leaf()
    ensures { (store : Store) (all : List Leaf) (armed : List Armed) (clock index : ℕ) → IsOrdered armed → AreApart armed → AreArmed store all armed → slice_get (due_timers store clock all) index ≡ leaf_of all (slice_get (due_at clock armed) index) }
{}

/// What is armed of each block once a timer more is armed.
pub fn arming_adds()
    ensures { (x : Armed) (armed : List Armed) (k : ℕ) → due_of armed x.block ≡ None → due_of (placed x armed) k ≡ (if x.block == k then Some x.due else due_of armed k) }
{}

/// What is armed of each block once the timer of one is disarmed.
pub fn disarming_clears()
    ensures { (armed : List Armed) (k j : ℕ) → AreApart armed → due_of (without armed k) j ≡ (if k == j then None else due_of armed j) }
{}
