//! Laws of rates.

ghost use Rattle.std.specs.Prelude.{◌≡◌, ℕ, List, Bool, None, Some, true};
ghost use Rattle.std.specs.List.{AllByRecursion};
ghost use Rattle.fb_pace.specs.Rates.{AreInOrder, IsWithin};
ghost use Rattle.fb_pace.specs.Bucket.{answers, passing};
ghost use Rattle.fb_pace.specs.Buckets.{Ask, answers_by, answers_for, answers_to_all, bucket_of, moments_of};
ghost use Rattle.fb_pace.specs.Pacing.{AskedAt, AsksAll, Pacing};
ghost use Rattle.fb_pace.specs.declared.bucket.Bucket.{Bucket};
ghost use Rattle.fb_pace.specs.declared.buckets.Paced.{Paced};

/// Who keeps to its rate is never refused, as long as its moments do not go back.
pub fn who_keeps_to_a_rate_passes()
    ensures { (b : Bucket) (moments : List ℕ) → b.due ≡ 0 → AreInOrder moments → IsWithin b.rate moments → AllByRecursion (λ answer. answer ≡ true) (answers b moments) }
{}

/// Whatever is asked of a bucket, what passes keeps to its rate.
pub fn what_passes_keeps_to_a_rate()
    ensures { (b : Bucket) (moments : List ℕ) → IsWithin b.rate (passing moments (answers b moments)) }
{}

/// Whatever all peers ask, one of them is answered what its own bucket answers to its own moments alone.
pub fn no_peer_costs_another_one()
    ensures { (peers : List Paced) (asks : List Ask) (number : ℕ) → answers_for number asks (answers_to_all peers asks) ≡ answers_by (bucket_of number peers) (moments_of number asks) }
{}

/// A peer that keeps to its rate loses nothing, whatever the others ask, and nor does one without a rate.
pub fn a_peer_within_its_rate_loses_nothing()
    ensures within { (peers : List Paced) (asks : List Ask) (number : ℕ) (b : Bucket) → bucket_of number peers ≡ Some b → b.due ≡ 0 → AreInOrder (moments_of number asks)
        → IsWithin b.rate (moments_of number asks) → AllByRecursion (λ answer. answer ≡ true) (answers_for number asks (answers_to_all peers asks)) }
    ensures without { (peers : List Paced) (asks : List Ask) (number : ℕ) → bucket_of number peers ≡ None → AllByRecursion (λ answer. answer ≡ true) (answers_for number asks (answers_to_all peers asks)) }
{}

/// Whoever asks by a clock was answered as at some moments, and those of each peer do not go back.
pub fn a_clock_gives_moments()
    ensures { (p q : Pacing) (questions : List (ℕ × Bool)) → AsksAll p questions q → (asks : List Ask) × AskedAt p questions asks }
{}
