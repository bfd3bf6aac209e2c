//! The steps of the causes that have not ended.

use std::alloc::{AllocError, Global};

// A cause at a resource, and its steps so far.
#[derive(Clone, Copy)]
struct Open {
    resource: usize,
    cause: u64,
    steps: u64,
}

/// The steps of the causes that have not ended. There are never more of them than the queues of their resources have places.
#[derive(Drop)]
pub struct Causes {
    open: Vec<Open>,
}

/// A dispatch of a cause at a resource: its steps, and whether the cause has ended with it.
#[derive(Clone, Copy)]
pub struct Turn {
    pub resource: usize,
    pub cause: u64,
    pub steps: u64,
    pub is_last: bool,
}

impl Causes {
    /// No cause has begun.
    pub fn new(alloc: Global) -> Causes {
        Causes {
            open: Vec::new(alloc),
        }
    }

    /// Another run begins, in which no cause has begun.
    pub fn clear(&mut self) {
        self.open.clear();
    }

    /// Makes room for the causes of a queue that has so many places.
    pub fn reserve(&mut self, places: u64) -> Result<(), AllocError> {
        self.open.reserve(usize::try_from(places).unwrap_or(0))?;
        Ok(())
    }

    // The place of a cause.
    fn place(&self, resource: usize, cause: u64) -> Option<usize> {
        for (place, open) in self.open.iter().enumerate() {
            if open.resource == resource && open.cause == cause {
                return Some(place);
            }
        }
        None
    }

    /// A cause is dispatched. Gives all its steps so far.
    pub fn take(&mut self, turn: Turn) -> Result<u64, AllocError> {
        let place = self.place(turn.resource, turn.cause);
        let before = match place {
            Some(place) => match self.open.get(place) {
                Some(open) => open.steps,
                None => 0,
            },
            None => 0,
        };
        let steps = before.saturating_add(turn.steps);
        match place {
            Some(place) => {
                if place < self.open.len() {
                    if turn.is_last {
                        let _ = self.open.swap_remove(place);
                    } else if let Some(open) = self.open.get_mut(place) {
                        open.steps = steps;
                    }
                }
            }
            None => {
                if !turn.is_last {
                    self.open.push(Open {
                        resource: turn.resource,
                        cause: turn.cause,
                        steps,
                    })?;
                }
            }
        }
        Ok(steps)
    }
}
