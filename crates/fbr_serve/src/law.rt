//! What a device does again where the same comes to it.

ghost use Rattle.std.specs.Prelude.{◌≡◌, Bool, List, map};
ghost use Rattle.std.specs.List.{AllByRecursion};
ghost use Rattle.fb_model.specs.System.{Device};
ghost use Rattle.fb_model.specs.Certificates.{Certificate};
ghost use Rattle.fb_model.specs.Devices.{Machine};
ghost use Rattle.fbr_notices.specs.Sums.{TurnAt};
ghost use Rattle.fbr_serve.specs.Serving.{Turns, lines_of};
ghost use Rattle.fbr_serve.specs.Recording.{IsEnded, entry_of};

use fb_link::Link;

/// Turns of a device in which the same came, over whatever links, lead from one state to one state, and write the same lines.
pub fn replays_are_alike<L: Link, K: Link>()
    ensures { (cert : Certificate) (device : Device) (xs ys : List TurnAt) (s t u : Machine) (l m : L) (k n : K)
        → Turns cert device L.steps L.count s l xs t m → Turns cert device K.steps K.count s k ys u n → AllByRecursion (λ x. IsEnded device x.turn) xs → AllByRecursion (λ y. IsEnded device y.turn) ys → map entry_of xs ≡ map entry_of ys
        → (t ≡ u) × ((timed : Bool) → lines_of timed xs ≡ lines_of timed ys) }
{}
