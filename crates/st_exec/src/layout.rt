//! Where the numbers of a block's variables lie.

ghost use Rattle.std.specs.Prelude.{◌≡◌, ◌++◌, [], ◌∷◌, true, false, not, if◌then◌else◌, MatchOption, IfOk, OnErr};
ghost use Rattle.fb_model.specs.Names.{is_in};
ghost use Rattle.st_exec.specs.Forms.{slot_in, plain_slot, size_of, bounds_in, names_in, IsDeclaredIn};
ghost use Rattle.st_exec.specs.Laid.{found};

use crate::location::{Location, find, give, same_locations};
use indexmap::IndexMap;
use std::alloc::{AllocError, Global};
use std::marker::Model;

/// Where the numbers of the variables of a block lie: one after another in the order in which they are declared, those of an array in a row. Contracts see
/// the variables in this order, each with its bounds where it is an array.
#[derive(Drop)]
pub struct Layout {
    locations: IndexMap<String, Location>,
    size: usize,
}

impl Model for Layout {
    ghost use Rattle.std.specs.Prelude.{List};
    ghost use Rattle.st_exec.specs.Forms.{Form};
    ghost use Rattle.st_exec.specs.Laid.{forms_in, IsLaid};

    ghost Value = { List Form };

    ghost view = { λ l. forms_in l.locations.entries };

    ghost invariant = { λ l. IsLaid 0 l.locations.entries l.size };
}

impl Layout {
    /// A layout with no variables.
    pub fn new(alloc: Global) -> Layout
        ensures { result ≡ [] }
    {
        Layout {
            locations: IndexMap::new(alloc),
            size: 0,
        }
    }

    /// Adds a variable, an array where it has bounds.
    ///
    /// `Ok(false)` where the name is declared already, and an error where there is no memory; the layout is then as before.
    pub fn declare(
        &mut self,
        alloc: Global,
        name: &str,
        bounds: Option<(i64, i64)>,
    ) -> Result<bool, AllocError>
        ensures is_new { IfOk result (λ is_new. is_new ≡ not (is_in name.now (names_in self.old))) }
        ensures added { IfOk result (λ is_new. self.new ≡ (if is_new then self.old ++ (name.now, bounds) ∷ [] else self.old)) }
        ensures unchanged { OnErr result (self.new ≡ self.old) }
    {
        if find(&self.locations, name).is_some() {
            return Ok(false);
        }
        match give(alloc, &mut self.locations, self.size, name, bounds) {
            Ok(end) => {
                self.size = end;
                Ok(true)
            }
            Err(fault) => Err(fault),
        }
    }

    /// Whether another layout has the same variables in the same order.
    pub fn is_like(&self, other: &Layout) -> bool
        ensures { result ≡ true → self.now ≡ other.now }
    {
        same_locations(&self.locations, &other.locations)
    }

    /// How many slots there are.
    pub fn size(&self) -> usize
        ensures { result ≡ size_of self.now }
    {
        self.size
    }

    /// Where the numbers of a variable are; none where it is not declared.
    pub fn location(&self, name: &str) -> Option<Location>
        ensures { MatchOption result (is_in name.now (names_in self.now) ≡ false) (λ p. (p.first ≡ slot_in self.now name.now) × (p.bounds ≡ bounds_in self.now name.now) × IsDeclaredIn self.now name.now) }
    {
        find(&self.locations, name)
    }

    /// The first slot of a variable; behind all slots where it is not declared.
    pub fn slot(&self, name: &str) -> usize
        ensures { result ≡ slot_in self.now name.now }
    {
        match find(&self.locations, name) {
            Some(location) => location.first,
            None => self.size,
        }
    }

    /// The slot of a variable that is one number; behind all slots where it is an array or not declared.
    pub fn plain_slot(&self, name: &str) -> usize
        ensures { result ≡ plain_slot self.now name.now }
    {
        match find(&self.locations, name) {
            Some(location) => match location.bounds {
                None => location.first,
                Some(_) => self.size,
            },
            None => self.size,
        }
    }
}
