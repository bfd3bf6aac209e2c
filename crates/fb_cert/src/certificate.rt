//! Certificates as tables of their rows.

ghost use Rattle.std.specs.Prelude.{◌≡◌, ◌==◌, ◌&&◌, not, length, slice_get, IfOk, IfErr, if◌then◌else◌};
ghost use Rattle.std.specs.Map.{lookup};
ghost use Rattle.std.specs.Option.{option_map};
ghost use Rattle.fb_ranges_intervals.specs.Views.{span_of};
ghost use Rattle.fb_cert.specs.Views.{rows_of, no_rows, text_row_of, has_row, with_row, with_depth_at, first_at, shown, span_shown, row_shown, depth_shown, far_shown, channel_shown, range_shown, certificate_of, steps_in, places_in, count_in, span_in};
ghost use Rattle.fb_cert.specs.Adding.{is_sayable, is_within};
ghost use Rattle.fb_model.specs.Certificates as book;
ghost use Rattle.fb_model.specs.CertificateText.{place_of, names_in, all_but_last, last_name, most_places, IsTold};
ghost use Rattle.fb_model.specs.Ranges.{row_at};
ghost use Rattle.fb_model.specs.System.{Variable};

use crate::lists::Lists;
use crate::row::{MOST_PLACES, Row};
use crate::sayable::is_sayable;
use fb_ranges_intervals::Interval;
use std::alloc::{AllocError, Global};
use std::marker::Model;

/// What a place costs: steps, and places in the queue.
#[derive(Clone, Copy)]
pub struct Amount {
    pub steps: u64,
    pub places: u64,
}

/// The rows of a certificate in text order, by the path or the number that each names. Paths are in upper case, their names joined by dots.
///
/// It stands in a text: [`parse_cert`](crate::parse_cert) reads it there, or [`print_cert`](crate::print_cert) prints one.
#[derive(Drop)]
pub struct Certificate {
    pub(crate) lists: Lists,
}

impl Model for Certificate {
    ghost use Rattle.fb_cert.specs.Rows.{Rows, rows_in};
    ghost use Rattle.fb_cert.specs.Sayable.{AreSayable};

    ghost Value = { Rows };

    ghost view = { λ c. rows_in c.lists };

    ghost invariant = { λ c. AreSayable (rows_in c.lists) };
}

impl Certificate {
    /// No rows.
    pub fn new(alloc: Global) -> Certificate
        ensures { rows_of result ≡ no_rows }
    {
        Certificate {
            lists: Lists::new(alloc),
        }
    }

    /// Adds a row at the end of its kind, if a text can say it and its path or number stands in no row of its kind; says whether it did.
    pub fn add(&mut self, alloc: Global, row: Row) -> Result<bool, AllocError>
        ensures tells { IfOk result (λ new. new ≡ (is_sayable (text_row_of row.entry) && not (has_row (text_row_of row.entry) (rows_of self.old)))) }
        ensures added { IfOk result (λ new. rows_of self.new ≡ (if new then with_row (text_row_of row.entry) (rows_of self.old) else rows_of self.old)) }
        ensures kept { IfErr result (λ _. rows_of self.new ≡ rows_of self.old) }
    {
        if !is_sayable(&row) {
            return Ok(false);
        }
        self.lists.add(alloc, row)
    }

    /// Puts another number into the row `DEPTH` at an index in text order, if a text can say it: from 1 to 4,096. Says whether it can. Where there is no
    /// such row nothing changes.
    pub fn set_depth(&mut self, index: usize, depth: u64) -> bool
        ensures tells { result ≡ is_within 1 most_places depth }
        ensures set { rows_of self.new ≡ (if result then with_depth_at index depth (rows_of self.old) else rows_of self.old) }
    {
        if depth < 1 || depth > MOST_PLACES {
            return false;
        }
        self.lists.set_depth(index, depth);
        true
    }

    /// Lets the certificate go. (A crate that lets it go by itself proves the end of each of its parts anew; this call is proved once.)
    pub fn let_go(self) {
        self.lists.let_go()
    }

    /// That it stands in a text, for proofs: nothing is done.
    pub fn stands_in_text(&self)
        ensures { IsTold (certificate_of self.now) }
    {
        let _ = &self.lists;
    }

    /// The row `REPEATS`.
    pub fn repeats(&self) -> Option<u8>
        ensures row { result ≡ (rows_of self.now).repeats }
        ensures book { result ≡ (certificate_of self.now).repeats }
    {
        self.lists.repeats
    }

    /// The row `RANGE` of a variable.
    pub fn range(&self, path: &str) -> Option<Interval>
        ensures row { option_map span_of result ≡ first_at path.now (rows_of self.now).ranges }
        ensures span { (v : Variable) → v.name ≡ last_name (names_in path.now) → span_in v result ≡ row_at (certificate_of self.now).ranges (all_but_last (names_in path.now)) v }
    {
        self.lists.ranges.get(path).copied()
    }

    /// The row `CHARGE` of a state.
    pub fn charge(&self, path: &str) -> Option<Amount>
        ensures row { result ≡ first_at path.now (rows_of self.now).charges }
        ensures steps { steps_in result ≡ book.amount (λ r. r.steps) (certificate_of self.now).charges (place_of path.now) }
        ensures places { places_in result ≡ book.amount (λ r. r.places) (certificate_of self.now).charges (place_of path.now) }
    {
        self.lists.charges.get(path).copied()
    }

    /// The row `WEIGHT` of an event input or an arrival.
    pub fn weight(&self, path: &str) -> Option<Amount>
        ensures row { result ≡ first_at path.now (rows_of self.now).weights }
        ensures steps { steps_in result ≡ book.amount (λ r. r.steps) (certificate_of self.now).weights (place_of path.now) }
        ensures places { places_in result ≡ book.amount (λ r. r.places) (certificate_of self.now).weights (place_of path.now) }
    {
        self.lists.weights.get(path).copied()
    }

    /// The row `DEPTH` of a resource.
    pub fn depth(&self, path: &str) -> Option<u64>
        ensures row { result ≡ first_at path.now (rows_of self.now).depths }
        ensures depth { count_in result ≡ book.depth_at (certificate_of self.now).depths (names_in path.now) }
    {
        self.lists.depths.get(path).copied()
    }

    /// The row `FAR` of an event input or an arrival.
    pub fn far(&self, path: &str) -> Option<u64>
        ensures row { result ≡ first_at path.now (rows_of self.now).fars }
        ensures steps { count_in result ≡ book.far_amount (certificate_of self.now).fars (place_of path.now) }
    {
        self.lists.fars.get(path).copied()
    }

    /// The row `FARSTATE` of a state.
    pub fn far_state(&self, path: &str) -> Option<u64>
        ensures row { result ≡ first_at path.now (rows_of self.now).far_states }
        ensures steps { count_in result ≡ book.far_amount (certificate_of self.now).far_states (place_of path.now) }
    {
        self.lists.far_states.get(path).copied()
    }

    /// The row `CHANNEL` of a channel.
    pub fn channel(&self, number: u16) -> Option<u64>
        ensures row { result ≡ lookup (λ c. number == c) (rows_of self.now).channels }
        ensures steps { count_in result ≡ book.channel_amount (certificate_of self.now).channels number }
    {
        self.lists.channels.get(&number).copied()
    }

    /// How many rows `RANGE` there are.
    pub fn range_count(&self) -> usize
        ensures { result ≡ length (rows_of self.now).ranges }
    {
        self.lists.ranges.len()
    }

    /// How many rows `CHARGE` there are.
    pub fn charge_count(&self) -> usize
        ensures { result ≡ length (rows_of self.now).charges }
    {
        self.lists.charges.len()
    }

    /// How many rows `WEIGHT` there are.
    pub fn weight_count(&self) -> usize
        ensures { result ≡ length (rows_of self.now).weights }
    {
        self.lists.weights.len()
    }

    /// How many rows `DEPTH` there are.
    pub fn depth_count(&self) -> usize
        ensures { result ≡ length (rows_of self.now).depths }
    {
        self.lists.depths.len()
    }

    /// How many rows `FAR` there are.
    pub fn far_count(&self) -> usize
        ensures { result ≡ length (rows_of self.now).fars }
    {
        self.lists.fars.len()
    }

    /// How many rows `FARSTATE` there are.
    pub fn far_state_count(&self) -> usize
        ensures { result ≡ length (rows_of self.now).far_states }
    {
        self.lists.far_states.len()
    }

    /// How many rows `CHANNEL` there are.
    pub fn channel_count(&self) -> usize
        ensures { result ≡ length (rows_of self.now).channels }
    {
        self.lists.channels.len()
    }

    /// The row `RANGE` at an index in text order, with its path.
    pub fn range_at(&self, index: usize) -> Option<(&str, Interval)>
        ensures row { option_map span_shown result ≡ slice_get (rows_of self.now).ranges index }
        ensures book { option_map range_shown result ≡ slice_get (certificate_of self.now).ranges index }
    {
        let (path, interval) = self.lists.ranges.get_index(index)?;
        Some((path.as_str(), *interval))
    }

    /// The row `CHARGE` at an index in text order, with its path.
    pub fn charge_at(&self, index: usize) -> Option<(&str, Amount)>
        ensures row { option_map shown result ≡ slice_get (rows_of self.now).charges index }
        ensures book { option_map row_shown result ≡ slice_get (certificate_of self.now).charges index }
    {
        let (path, amount) = self.lists.charges.get_index(index)?;
        Some((path.as_str(), *amount))
    }

    /// The row `WEIGHT` at an index in text order, with its path.
    pub fn weight_at(&self, index: usize) -> Option<(&str, Amount)>
        ensures row { option_map shown result ≡ slice_get (rows_of self.now).weights index }
        ensures book { option_map row_shown result ≡ slice_get (certificate_of self.now).weights index }
    {
        let (path, amount) = self.lists.weights.get_index(index)?;
        Some((path.as_str(), *amount))
    }

    /// The row `DEPTH` at an index in text order, with its path.
    pub fn depth_at(&self, index: usize) -> Option<(&str, u64)>
        ensures row { option_map shown result ≡ slice_get (rows_of self.now).depths index }
        ensures book { option_map depth_shown result ≡ slice_get (certificate_of self.now).depths index }
    {
        let (path, depth) = self.lists.depths.get_index(index)?;
        Some((path.as_str(), *depth))
    }

    /// The row `FAR` at an index in text order, with its path.
    pub fn far_at(&self, index: usize) -> Option<(&str, u64)>
        ensures row { option_map shown result ≡ slice_get (rows_of self.now).fars index }
        ensures book { option_map far_shown result ≡ slice_get (certificate_of self.now).fars index }
    {
        let (path, steps) = self.lists.fars.get_index(index)?;
        Some((path.as_str(), *steps))
    }

    /// The row `FARSTATE` at an index in text order, with its path.
    pub fn far_state_at(&self, index: usize) -> Option<(&str, u64)>
        ensures row { option_map shown result ≡ slice_get (rows_of self.now).far_states index }
        ensures book { option_map far_shown result ≡ slice_get (certificate_of self.now).far_states index }
    {
        let (path, steps) = self.lists.far_states.get_index(index)?;
        Some((path.as_str(), *steps))
    }

    /// The row `CHANNEL` at an index in text order, with its number.
    pub fn channel_at(&self, index: usize) -> Option<(u16, u64)>
        ensures row { result ≡ slice_get (rows_of self.now).channels index }
        ensures book { option_map channel_shown result ≡ slice_get (certificate_of self.now).channels index }
    {
        let (number, steps) = self.lists.channels.get_index(index)?;
        Some((*number, *steps))
    }
}
