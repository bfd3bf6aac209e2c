//! Values that services receive and send.

ghost use Rattle.std.specs.Prelude.{◌≡◌, ◌≤◌, ◌<◌, ℕ, List, length};
ghost use Rattle.std.specs.List.{AllByRecursion};
ghost use Rattle.fb_model.specs.Names.{Name};
ghost use Rattle.fb_model.specs.Language.{setting};
ghost use Rattle.fb_model.specs.Serving.{is_true, bit};
ghost use Rattle.st_exec.specs.Cells.{values_of, forms_of};
ghost use Rattle.st_exec.specs.Kept.{plain_slot_of, room_of};
ghost use Rattle.fb_chart.specs.Ports.{slots_of, received_in, numbers_at};

use crate::{MOST_VALUES, Store, Values};

// Whether a variable is true.
pub(crate) fn is_set(own: &Store, slot: usize) -> bool
    ensures { (x : Name) → plain_slot_of own.now x ≡ slot → result ≡ is_true (values_of own.now x) }
{
    own.number(slot) > 0
}

// A variable becomes true or false.
pub(crate) fn set_bit(own: &mut Store, slot: usize, value: bool)
    requires { slot < room_of own.old }
    ensures values { (x : Name) → plain_slot_of own.old x ≡ slot → values_of own.new ≡ setting (values_of own.old) x (bit value) }
    ensures forms { forms_of own.new ≡ forms_of own.old }
{
    if value {
        own.set_number(slot, 1);
    } else {
        own.set_number(slot, 0);
    }
}

// Variables take numbers, in order.
pub(crate) fn receive(slots: &[usize], values: &[i64], own: &mut Store)
    requires few { length values.now ≤ length slots.now }
    requires within { AllByRecursion (λ (s : ℕ). s < room_of own.old) slots.now }
    ensures values { (names : List Name) → slots.now ≡ slots_of (forms_of own.old) names → values_of own.new ≡ received_in names values.now (values_of own.old) }
    ensures forms { forms_of own.new ≡ forms_of own.old }
{
    for at in 0..values.len() {
        own.set_number(slots[at], values[at]);
    }
}

// The numbers of variables, in order.
pub(crate) fn sent_values(slots: &[usize], own: &Store) -> Values
    requires { length slots.now ≤ MOST_VALUES }
    ensures { (names : List Name) → slots.now ≡ slots_of (forms_of own.now) names → result.items ≡ numbers_at names (values_of own.now) }
{
    let mut values = Values::new();
    for slot in slots {
        values.push(own.number(*slot));
    }
    values
}
