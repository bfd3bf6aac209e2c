//! The ranges of a block's variables, by their names.

ghost use Rattle.std.specs.Prelude.{◌≡◌, ◌<◌, ◌++◌, ◌∷◌, [], length, true, None, ◌&&◌, IfOk, Some, OnErr, OnOk, map, string_bytes};
ghost use Rattle.std.specs.Str.{bytes_eq};
ghost use Rattle.std.specs.Ordering.{int_eq};
ghost use Rattle.fb_words.specs.declared.elem_type.ElemType.TheVariants as t;
ghost use Rattle.fb_model.specs.Spans.{whole};
ghost use Rattle.fb_model.specs.Clear.{changed};
ghost use Rattle.fb_ranges_intervals.specs.Views.{span_of};
ghost use Rattle.fb_ranges.specs.Views.{keys_of, number_of, spans_of};

use crate::rows::Ranges;
use fb_ranges_intervals::{Interval, whole};
use fb_words::ElemType;
use indexmap::IndexSet;
use st_types::VariableName;
use std::alloc::{AllocError, Global};
use std::rc::Rc;

/// Whether two ranges are the same.
pub fn is_same(one: Interval, other: Interval) -> bool
    ensures { result ≡ (int_eq one.low other.low && int_eq one.high other.high) }
{
    one.low == other.low && one.high == other.high
}

// Whether rows are the same in their order. (Not said: that it ever says so.)
fn are_same(rows: &[Interval], others: &[Interval]) -> bool
    ensures { result ≡ true → map span_of rows.now ≡ map span_of others.now }
{
    if rows.len() != others.len() {
        return false;
    }
    for at in 0..rows.len() {
        if !is_same(rows[at], others[at]) {
            return false;
        }
    }
    true
}

/// How long a name is at most that is compared letter by letter: for the few of most names that is the fastest.
const SHORT: usize = 8;

// Whether two names are the same.
fn is_name(one: &[u8], other: &[u8]) -> bool
    ensures { result ≡ bytes_eq one.now other.now }
{
    if one.len() != other.len() {
        return false;
    }
    if one.len() > SHORT {
        return one == other;
    }
    for at in 0..one.len() {
        if one[at] != other[at] {
            return false;
        }
    }
    true
}

// Adds a name that is not there yet.
fn put(names: &mut Rc<IndexSet<String>>, name: String) -> Result<(), AllocError>
    requires { number_of (keys_of names.old.value) (string_bytes name) ≡ None }
    ensures set { OnOk result (keys_of names.new.value ≡ keys_of names.old.value ++ string_bytes name ∷ []) }
    ensures unchanged { OnErr result (keys_of names.new.value ≡ keys_of names.old.value) }
{
    let names = Rc::make_mut(names)?;
    names.insert(name)?;
    Ok(())
}

impl Ranges {
    /// No ranges.
    ///
    /// Fails where memory runs out.
    pub fn new(alloc: Global) -> Result<Ranges, AllocError>
        ensures { IfOk result (λ r. spans_of r ≡ (λ x. whole t.Lint)) }
    {
        Ok(Ranges {
            alloc,
            names: Rc::new(alloc, IndexSet::new(alloc))?,
            rows: Vec::new(alloc),
        })
    }

    /// The range of the variable of a name: all numbers of LINT where it has no row.
    pub fn find(&self, name: &str) -> Interval
        ensures { span_of result ≡ spans_of self.now name.now }
    {
        match self.names.get_index_of(name) {
            Some(number) => self.rows[number],
            None => whole(ElemType::Lint),
        }
    }

    // Whether the row with a number is that of the variable of this name.
    fn is_at(&self, name: &str, number: usize) -> bool
        ensures named { result ≡ true → number_of (keys_of self.now.names.value) name.now ≡ Some number }
        ensures within { result ≡ true → number < length self.now.rows.items }
    {
        match self.names.as_slice().get(number) {
            Some(key) => is_name(key.as_bytes(), name.as_bytes()),
            None => false,
        }
    }

    /// The same, where the row with this number is looked at first.
    pub fn find_near(&self, name: &str, number: usize) -> Interval
        ensures { span_of result ≡ spans_of self.now name.now }
    {
        if self.is_at(name, number) {
            return self.rows[number];
        }
        self.find(name)
    }

    /// The range of a variable.
    pub fn find_at(&self, variable: &VariableName) -> Interval
        ensures { span_of result ≡ spans_of self.now (string_bytes variable.now.name) }
    {
        self.find_near(variable.as_str(), variable.number)
    }

    // Gives the variable of a name that has no row a range.
    fn add(&mut self, name: &str, interval: Interval) -> Result<(), AllocError>
        requires { number_of (keys_of self.old.names.value) name.now ≡ None }
        ensures set { OnOk result (spans_of self.new ≡ changed name.now (λ _. span_of interval) (spans_of self.old)) }
        ensures unchanged { OnErr result (spans_of self.new ≡ spans_of self.old) }
    {
        let key = String::from_str(self.alloc, name)?;
        self.rows.reserve(1)?;
        put(&mut self.names, key)?;
        match self.rows.push(interval) {
            Ok(()) => Ok(()),
            Err(_) => unreachable!(),
        }
    }

    /// Gives the variable of a name a range, in place of any that it has.
    ///
    /// Fails where memory runs out; then the ranges are as before.
    pub fn insert(&mut self, name: &str, interval: Interval) -> Result<(), AllocError>
        ensures set { OnOk result (spans_of self.new ≡ changed name.now (λ _. span_of interval) (spans_of self.old)) }
        ensures unchanged { OnErr result (spans_of self.new ≡ spans_of self.old) }
    {
        match self.names.get_index_of(name) {
            Some(number) => {
                self.rows[number] = interval;
                Ok(())
            }
            None => self.add(name, interval),
        }
    }

    /// The same, where the row with this number is looked at first.
    pub fn insert_near(
        &mut self,
        name: &str,
        number: usize,
        interval: Interval,
    ) -> Result<(), AllocError>
        ensures set { OnOk result (spans_of self.new ≡ changed name.now (λ _. span_of interval) (spans_of self.old)) }
        ensures unchanged { OnErr result (spans_of self.new ≡ spans_of self.old) }
    {
        if self.is_at(name, number) {
            self.rows[number] = interval;
            return Ok(());
        }
        self.insert(name, interval)
    }

    /// Gives a variable a range, as `insert`.
    pub fn insert_at(
        &mut self,
        variable: &VariableName,
        interval: Interval,
    ) -> Result<(), AllocError>
        ensures set { OnOk result (spans_of self.new ≡ changed (string_bytes variable.now.name) (λ _. span_of interval) (spans_of self.old)) }
        ensures unchanged { OnErr result (spans_of self.new ≡ spans_of self.old) }
    {
        self.insert_near(variable.as_str(), variable.number, interval)
    }

    /// Whether the same variables have the same ranges, in the same order: then the ranges are the same. (Not said: that it ever says so.)
    pub fn is_like(&self, other: &Ranges) -> bool
        ensures { result ≡ true → spans_of self.now ≡ spans_of other.now }
    {
        are_same(&self.rows, &other.rows) && self.names.as_slice() == other.names.as_slice()
    }
}
