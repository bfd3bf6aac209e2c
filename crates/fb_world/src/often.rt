//! Whether datagrams were admitted more often than their certificate pays for.

ghost use Rattle.std.specs.Prelude.{ℕ, ◌≡◌, ◌+◌, ◌<◌, ◌≤◌, Some, MatchOption, map, length, slice_get};
ghost use Rattle.std.specs.List.{AllByRecursion};
ghost use Rattle.fb_model.specs.World.{AreWithin};
ghost use Rattle.fb_world_course.specs.Scenes.{datagram_of};
ghost use Rattle.fb_world.specs.Laws.{AreSeldom, IsNextOften, IsOften, IsSeldom, IsTooOften};

use crate::answer::TooOften;
use fb_world_course::Sent;

// The first of these counts that is more than so much.
fn first_above(counts: &[u16], most: u16) -> Option<u16>
    requires { length counts.now ≤ 16 }
    ensures { MatchOption result (AllByRecursion (λ n. n ≤ most) counts.now) (λ at. (n : ℕ) × (slice_get counts.now at ≡ Some n) × (most < n)) }
{
    for at in 0..counts.len() {
        if counts[at] > most {
            return Some(at as u16);
        }
    }
    None
}

// The first device that admitted a datagram more than so often, if it is of this root and has no stamp.
fn device_of(sent: &Sent, root: u64, most: u16) -> Option<u16>
    ensures { MatchOption result (IsSeldom most root (datagram_of sent.now)) (IsOften most root (datagram_of sent.now)) }
{
    if sent.root != root {
        return None;
    }
    match sent.message.stamp() {
        Some(_) => None,
        None => first_above(&sent.admissions, most),
    }
}

// The first device that admitted a datagram more than so often, if it has no stamp.
fn device_above(sent: &Sent, most: u16) -> Option<u16>
    ensures { MatchOption result (IsSeldom most sent.now.root (datagram_of sent.now)) (IsOften most sent.now.root (datagram_of sent.now)) }
{
    device_of(sent, sent.root, most)
}

/// The first datagram of a root that has no stamp and that a device admitted more than so often, and the first such device.
pub fn too_often(datagrams: &[Sent], root: u64, most: u16) -> Option<TooOften>
    ensures { MatchOption result (AreWithin most root (map datagram_of datagrams.now)) (IsTooOften most root (map datagram_of datagrams.now)) }
{
    for at in 0..datagrams.len() {
        match device_of(&datagrams[at], root, most) {
            Some(device) => {
                return Some(TooOften {
                    root,
                    datagram: at as u64 + 1,
                    device,
                });
            }
            None => {}
        }
    }
    None
}

/// The first datagram behind so many that has no stamp and that a device admitted more than so often, with its root, and the first such device.
pub fn next_too_often(datagrams: &[Sent], behind: usize, most: u16) -> Option<TooOften>
    ensures { MatchOption result (AreSeldom most behind (length datagrams.now + 1) (map datagram_of datagrams.now)) (IsNextOften most behind (map datagram_of datagrams.now)) }
{
    for at in behind..datagrams.len() {
        let sent = &datagrams[at];
        match device_above(sent, most) {
            Some(device) => {
                return Some(TooOften {
                    root: sent.root,
                    datagram: 1 + at as u64,
                    device,
                });
            }
            None => {}
        }
    }
    None
}
