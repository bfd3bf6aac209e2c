//! The state file of a device that runs.

ghost use Rattle.std.specs.Prelude.{◌≡◌, true, false};
ghost use Rattle.fbr_files.specs.Outcomes.{IsContents};
ghost use Rattle.fb_keys.specs.State.{state_text};
ghost use Rattle.fb_keys.specs.Views.{state_of};

use fb_keys::{State, spell};
use fb_seal::Ledger;
use fbr_files::Keep;
use std::alloc::Global;

/// A peer as a state file knows it: its number, and the mark of its key.
#[derive(Clone, Copy)]
pub struct Mark {
    pub number: u16,
    pub mark: [u8; 16],
}

/// The state file of a device that runs: each counter is written down in it before it is used.
#[derive(Drop)]
pub struct StateFile<K> {
    alloc: Global,
    keeper: K,
    state: State,
    marks: Vec<Mark>,
}

impl<K: Keep> StateFile<K> {
    /// The file that a keeper keeps, which holds this state, for these peers.
    pub fn new(alloc: Global, keeper: K, state: State, marks: Vec<Mark>) -> StateFile<K>
        ensures { (result.keeper ≡ keeper) × (result.state ≡ state) × (result.marks ≡ marks) }
    {
        StateFile {
            alloc,
            keeper,
            state,
            marks,
        }
    }

    // Puts the text of the state into the file, and answers whether that was done.
    fn put(&mut self) -> bool
        ensures put { result ≡ true → IsContents (K.held self.new.keeper) (state_text (state_of self.new.state)) }
        ensures kept { result ≡ false → K.held self.new.keeper ≡ K.held self.old.keeper }
        ensures same { (self.new.state ≡ self.old.state) × (self.new.marks ≡ self.old.marks) }
    {
        match spell(self.alloc, &self.state) {
            Ok(text) => self.keeper.put(text.as_str().as_bytes()),
            Err(_) => false,
        }
    }
}

impl<K: Keep> Ledger for StateFile<K> {
    ghost use Rattle.fbr_seals.specs.Sealing.{WritesDown, book_of};

    ghost writes = { λ f note done g. WritesDown (book_of K.held f) note done (book_of K.held g) };

    fn reserve(&mut self, upto: u64) -> bool {
        let before = self.state.own;
        self.state.own = upto;
        if self.put() {
            return true;
        }
        self.state.own = before;
        false
    }

    fn allow(&mut self, place: usize, upto: u64) -> bool {
        let Some(mark) = self.marks.get(place) else {
            return false;
        };
        let mark = *mark;
        if self.state.raise(mark.number, mark.mark, upto).is_err() {
            return false;
        }
        self.put()
    }
}
