//! The values of the variables of one block, by slots.

ghost use Rattle.std.specs.Prelude.{◌≡◌, ◌<◌, ◌≤◌, ◌+◌, ◌≤ℤ◌, ◌-ℤ◌, ℤ, unsigned_abs, Some, IsSome, IfOk};
ghost use Rattle.fb_model.specs.Names.{Name};
ghost use Rattle.fb_model.specs.Values.{One, number_of, numbers_of};
ghost use Rattle.fb_model.specs.Language.{element_at, setting, setting_part, Done};
ghost use Rattle.fb_model.specs.BlockTyping.{extent};
ghost use Rattle.fb_model.specs.Shapes.{HasShape};
ghost use Rattle.st_exec.specs.Cells.{values_of, forms_of, shape_of, length_of, IsDeclared, filled};
ghost use Rattle.st_exec.specs.Kept.{zeros_in, slot_of, plain_slot_of, count_of, room_of};

use crate::Layout;
use crate::row::{number_at, spread, write};
use std::alloc::{AllocError, Global};
use std::marker::Model;
use std::rc::Rc;

/// The values of the variables of one block, all numbers in a row. Contracts see the variables in the order in which the layout declares them, each with
/// its name, its bounds and its value, and say of a slot what is so of the variable whose slot it is.
#[derive(Drop)]
pub struct Store {
    layout: Rc<Layout>,
    numbers: Vec<i64>,
}

impl Model for Store {
    ghost use Rattle.std.specs.Prelude.{List, ◌≡◌, length};
    ghost use Rattle.st_exec.specs.Forms.{size_of};
    ghost use Rattle.st_exec.specs.Cells.{Cell};
    ghost use Rattle.st_exec.specs.Kept.{cells_at};

    ghost Value = { List Cell };

    ghost view = { λ s. cells_at s.layout.value s.numbers.items };

    ghost invariant = { λ s. size_of s.layout.value ≡ length s.numbers.items };
}

impl Store {
    /// A store of a layout in which all numbers are 0.
    pub fn zeros(alloc: Global, layout: Rc<Layout>) -> Result<Store, AllocError>
        ensures { IfOk result (λ s. s ≡ zeros_in layout.value) }
    {
        let mut numbers = Vec::new(alloc);
        numbers.resize(layout.size(), 0)?;
        Ok(Store { layout, numbers })
    }

    /// Where the numbers of the variables lie.
    pub fn layout(&self) -> &Layout
        ensures { result.now ≡ forms_of self.now }
    {
        &self.layout
    }

    /// Each variable has its form: one number where it has no bounds, else as many elements as these say.
    pub fn keeps_forms(&self)
        ensures { HasShape (shape_of self.now) (values_of self.now) }
    {
        let _ = &self.layout;
    }

    /// The number of the variable that has this slot; 0 behind all slots, where arrays and undeclared names have theirs.
    pub fn number(&self, slot: usize) -> i64
        ensures { (x : Name) → plain_slot_of self.now x ≡ slot → result ≡ number_of (values_of self.now x) }
    {
        number_at(&self.numbers, slot)
    }

    /// The element of an index of the array that has this first slot and this lowest index.
    pub(crate) fn element(&self, first: usize, low: i64, index: i64) -> i64
        ensures { (x : Name) (high : ℤ) → slot_of self.now x ≡ first → IsSome (element_at low high (numbers_of (values_of self.now x)) index) → element_at low high (numbers_of (values_of self.now x)) index ≡ Some result }
    {
        let slot = first.saturating_add(index.abs_diff(low) as usize);
        number_at(&self.numbers, slot)
    }

    /// Gives the variable that has this slot another number.
    pub fn set_number(&mut self, slot: usize, number: i64)
        requires { slot < room_of self.old }
        ensures values { (x : Name) → plain_slot_of self.old x ≡ slot → values_of self.new ≡ setting (values_of self.old) x (One number) }
        ensures forms { forms_of self.new ≡ forms_of self.old }
    {
        self.numbers[slot] = number;
    }

    /// Gives the element of an index another number, of the array that has this first slot and this lowest index.
    pub(crate) fn set_element(&mut self, first: usize, low: i64, index: i64, number: i64)
        requires { first + unsigned_abs (index -ℤ low) < room_of self.old }
        ensures values { (x : Name) (high : ℤ) → slot_of self.old x ≡ first → length_of self.old x ≡ Some (extent (low, high)) → low ≤ℤ index → index ≤ℤ high → setting_part (values_of self.old) x low high index number ≡ Done (values_of self.new) 0 }
        ensures forms { forms_of self.new ≡ forms_of self.old }
    {
        self.numbers[first + index.abs_diff(low) as usize] = number;
    }

    /// Gives the variable that has so many slots from this one on a number, an array this number in each element.
    pub fn fill(&mut self, first: usize, count: usize, number: i64)
        requires { first + count ≤ room_of self.old }
        ensures values { (x : Name) → slot_of self.old x ≡ first → count_of self.old x ≡ count → values_of self.new ≡ setting (values_of self.old) x (filled (shape_of self.old x) number) }
        ensures forms { forms_of self.new ≡ forms_of self.old }
    {
        spread(&mut self.numbers, first, count, number);
    }

    /// Gives the variable of a name a number, an array this number in each element.
    pub fn set_all(&mut self, name: &str, number: i64)
        requires { IsDeclared self.old name.now }
        ensures values { values_of self.new ≡ setting (values_of self.old) name.now (filled (shape_of self.old name.now) number) }
        ensures forms { forms_of self.new ≡ forms_of self.old }
    {
        let Some(location) = self.layout.location(name) else {
            unreachable!()
        };
        self.fill(location.first, location.count(), number);
    }

    /// Gives the variable that has so many slots from this one on the value of a variable of another store: both are no arrays, or arrays of one length.
    pub fn copy(&mut self, first: usize, from: &Store, source: usize, count: usize)
        requires room { first + count ≤ room_of self.old }
        requires enough { source + count ≤ room_of from.now }
        ensures values { (x y : Name) → slot_of self.old x ≡ first → slot_of from.now y ≡ source → count_of self.old x ≡ count → length_of self.old x ≡ length_of from.now y → values_of self.new ≡ setting (values_of self.old) x (values_of from.now y) }
        ensures forms { forms_of self.new ≡ forms_of self.old }
    {
        write(&mut self.numbers, first, &from.numbers, source, count);
    }
}
