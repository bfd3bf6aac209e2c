//! What no clause says: moments that were worked out by hand.

use crate::{Bucket, Buckets, Paced, Rate};
use std::test::Fail;

// Ten datagrams a second, three at once.
const RATE: Rate = Rate {
    interval: 100_000_000,
    burst: 3,
};

#[test]
fn a_burst_and_then_the_rate(rt: HostRuntime) -> Result<(), Fail> {
    let mut bucket = Bucket::new(RATE);
    let start = 5_000_000_000;
    for _ in 0..3 {
        assert!(rt; bucket.passes(start), "one of the burst");
    }
    assert!(rt; !bucket.passes(start), "the fourth at once");
    assert!(rt; !bucket.passes(start + 99_999_999), "a nanosecond early");
    assert!(rt; bucket.passes(start + 100_000_000), "an interval later");
    assert!(rt; !bucket.passes(0), "the clock went back");
    assert!(rt; bucket.passes(u64::MAX), "the last nanosecond");
    Ok(())
}

#[test]
fn a_bucket_each(rt: HostRuntime) -> Result<(), Fail> {
    let mut peers = Vec::new(rt.alloc());
    for number in [1, 2] {
        peers.push(Paced {
            number,
            bucket: Bucket::new(RATE),
        })?;
    }
    let mut buckets = Buckets::new(peers);
    for _ in 0..9 {
        let _ = buckets.passes(1, 0);
        assert!(rt; buckets.passes(3, 0), "one without a rate");
    }
    assert!(rt; !buckets.passes(1, 0), "it has sent too much");
    for _ in 0..3 {
        assert!(rt; buckets.passes(2, 0), "the other one's burst is whole");
    }
    Ok(())
}
