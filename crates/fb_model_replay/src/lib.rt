//! Room: book. A device is a function of its calls: from one machine, the same calls lead to the same machine, with alike answers.
//! Two answers differ only if both are denials and several reasons are true (`denials_may_differ`). That calls replay holds of any device,
//! certificate and machine; that each call has an answer (`calls_are_answered`), of sound machines. Functions have empty bodies: nothing runs.
#![tactic(auto)]

ghost use Rattle.std.specs.Prelude.{ℕ, List, [], ◌∷◌, pos, ◌≡◌};
ghost use Rattle.std.specs.List.{AllByRecursion};
ghost use Rattle.fb_model.specs.System.{Device};
ghost use Rattle.fb_model.specs.Certificates.{Certificate, DeviceHolds};
ghost use Rattle.fb_model.specs.Devices.{Machine, Event, Offer, BadCount, BadValue, Answer, Run};
ghost use Rattle.fb_model.specs.Headline.{IsSound};
ghost use Rattle.fb_model_replay.specs.Alike.{AreAlike, writes_in, sends_in};
ghost use Rattle.fb_model_replay.specs.Calls.{IsCall};
ghost use Rattle.fb_model_replay.specs.Denials.{TakesTwoBools, MayDeny};

/// Two runs over the same calls, from the same machine, lead to the same machine, and their answers are alike: equal, or both a denial.
pub fn runs_replay()
    ensures { (cert : Certificate) (device : Device) (old new other : Machine) (events : List Event) (answers replies : List Answer) → Run cert device old events answers new → Run cert device old events replies other → AreAlike answers replies × (new ≡ other) }
{}

/// So they write the same values to the same OUTPUTs, and send the same messages, in the same order.
pub fn effects_replay()
    ensures writes { (cert : Certificate) (device : Device) (old new other : Machine) (events : List Event) (answers replies : List Answer) → Run cert device old events answers new → Run cert device old events replies other → writes_in answers ≡ writes_in replies }
    ensures sends { (cert : Certificate) (device : Device) (old new other : Machine) (events : List Event) (answers replies : List Answer) → Run cert device old events answers new → Run cert device old events replies other → sends_in answers ≡ sends_in replies }
{}

/// Each list of calls has a run, from any machine that a loaded device comes to.
pub fn calls_are_answered()
    ensures { (device : Device) (cert : Certificate) → DeviceHolds cert device → (old : Machine) → IsSound cert device old → (events : List Event) → AllByRecursion IsCall events → (answers : List Answer) × (new : Machine) × Run cert device old events answers new }
{}

/// Two denials of one offer may differ, in the reason and in which value is bad.
pub fn denials_may_differ()
    ensures reasons { (cert : Certificate) (device : Device) (m : Machine) (input : ℕ) → TakesTwoBools device input → MayDeny cert device m (Offer input (pos 2 ∷ [])) BadCount × MayDeny cert device m (Offer input (pos 2 ∷ [])) (BadValue 1) }
    ensures values { (cert : Certificate) (device : Device) (m : Machine) (input : ℕ) → TakesTwoBools device input → MayDeny cert device m (Offer input (pos 2 ∷ pos 2 ∷ [])) (BadValue 1) × MayDeny cert device m (Offer input (pos 2 ∷ pos 2 ∷ [])) (BadValue 2) }
{}
