//! How long a device waits that has found nothing to do.

use fb_device::Device;
use fb_link::Link;
use fb_turn::Report;
use std::time::Duration;

/// How long a device waits at most that is to take a number of turns, in milliseconds.
const COUNTED: u64 = 5;

/// How long one waits at most that runs until it is stopped.
const UNCOUNTED: u64 = 100;

// How long a device waits whose next timer is due at a moment: until then, but no longer than it may. One that is due and has no room waits as long as others.
fn until(due: Option<u64>, now: u64, most: u64) -> u64 {
    match due {
        Some(due) if due > now => most.min(due.saturating_sub(now)),
        _ => most,
    }
}

/// Waits for the link behind a turn that found nothing to do, until the next timer of the device is due; and answers whether it did.
pub(crate) fn rest<L: Link>(
    link: &L,
    device: &Device,
    report: Report,
    now: u64,
    turns: u64,
) -> bool {
    if report.fired > 0 || report.received > 0 || report.ran > 0 {
        return false;
    }
    let most = if turns == u64::MAX {
        UNCOUNTED
    } else {
        COUNTED
    };
    link.wait(Duration::from_millis(until(device.next_due(), now, most)));
    true
}
