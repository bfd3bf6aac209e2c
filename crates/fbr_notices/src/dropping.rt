//! Datagrams that a link dropped, by the reason. It is told to people, and no contract says it.

use fb_link::{Link, Socket, UdpLink};
use fb_seal::{Dropped, Gate, Ledger, SealedLink};
use std::io::Write;

/// How many datagrams a link has dropped so far.
#[derive(Clone, Copy)]
pub struct Drops {
    /// Their senders are not named by `--from`.
    pub strangers: u64,
    /// They were not sealed, or not so that they are taken.
    pub unsealed: Option<Dropped>,
}

/// A link that counts what it drops, by the reason.
pub trait Counts {
    /// The counts so far.
    fn drops(&self) -> Drops;
}

impl<S: Socket> Counts for UdpLink<S> {
    fn drops(&self) -> Drops {
        Drops {
            strangers: self.strangers(),
            unsealed: None,
        }
    }
}

impl<L: Link + Counts, K: Ledger, G: Gate> Counts for SealedLink<L, K, G> {
    fn drops(&self) -> Drops {
        Drops {
            strangers: self.below().drops().strangers,
            unsealed: Some(self.refused()),
        }
    }
}

// Whether none was dropped.
fn is_none(dropped: &Dropped) -> bool {
    dropped.not_sealed == 0
        && dropped.strangers == 0
        && dropped.forged == 0
        && dropped.stale == 0
        && dropped.ahead == 0
        && dropped.fast == 0
}

/// Tells which datagrams were dropped that were not sealed as they have to be, where some were.
pub fn tell_unsealed<E: Write>(unsealed: Option<Dropped>, errors: &mut E) {
    if let Some(dropped) = unsealed {
        if !is_none(&dropped) {
            let (bare, unknown, forged) = (dropped.not_sealed, dropped.strangers, dropped.forged);
            let (stale, ahead, fast) = (dropped.stale, dropped.ahead, dropped.fast);
            let _ = writeln!(
                errors,
                "fbr: dropped so far: not sealed {bare}, of an unknown number {unknown}, under another key {forged}, taken before or too old {stale}, not written down {ahead}, above their rate {fast}"
            );
        }
    }
}
