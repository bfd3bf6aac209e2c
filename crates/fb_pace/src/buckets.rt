//! The buckets of peers.

ghost use Rattle.std.specs.Prelude.{◌≡◌, ◌<◌, IfSome, length};
ghost use Rattle.std.specs.List.{position_from};
ghost use Rattle.fb_pace.specs.Buckets.{after_ask, bucket_of, has_number, passes_by};

use crate::bucket::Bucket;

/// A peer that has a rate: its number and its bucket.
#[derive(Clone, Copy)]
pub struct Paced {
    pub number: u16,
    pub bucket: Bucket,
}

/// The buckets of peers, one for each number that has a rate.
#[derive(Drop)]
pub struct Buckets {
    peers: Vec<Paced>,
}

// Whether a peer has this number.
fn has_number(peer: &Paced, number: u16) -> bool
    ensures { result ≡ has_number number peer.now }
{
    peer.number == number
}

// The place of the first peer with this number.
fn position(peers: &[Paced], number: u16) -> Option<usize>
    ensures first { result ≡ position_from (has_number number) 0 peers.now }
    ensures within { IfSome result (λ place. place < length peers.now) }
{
    for place in 0..peers.len() {
        if has_number(&peers[place], number) {
            return Some(place);
        }
    }
    None
}

impl Buckets {
    /// These buckets. Of two with one number the first is used.
    pub fn new(peers: Vec<Paced>) -> Buckets
        ensures { result.peers ≡ peers }
    {
        Buckets { peers }
    }

    /// Whether a datagram of the peer with this number passes at this nanosecond, by the bucket of that peer alone. Who has no rate always passes.
    pub fn passes(&mut self, number: u16, now: u64) -> bool
        ensures answer { result ≡ passes_by (bucket_of number self.old.peers.items) now }
        ensures after { self.new.peers.items ≡ after_ask number now self.old.peers.items }
    {
        match position(self.peers.as_slice(), number) {
            Some(place) => {
                let mut peer = self.peers[place];
                let passes = peer.bucket.passes(now);
                self.peers[place] = peer;
                passes
            }
            None => true,
        }
    }
}
