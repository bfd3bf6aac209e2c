//! Laws of queues: of what is true between dispatches, of the credit, and of what each call does to entries and steps as the book tells them.

ghost use Rattle.std.specs.Prelude.{ℕ, ℤ, ◌≡◌, ◌≤◌, ◌+◌, ◌==◌, not, [], ◌∷◌, ◌++◌, map, length, List, Option, Some};
ghost use Rattle.arrayvec.specs.ArrayVec.{ArrayVec};
ghost use Rattle.fb_model.specs.Names.{Place};
ghost use Rattle.fb_model.specs.Devices.{is_pending, put};
ghost use Rattle.fb_chart.specs.declared.table.Point.{Point};
ghost use Rattle.fb_sched.specs.declared.reaction.Reaction.{Reaction};
ghost use Rattle.fb_sched.specs.declared.ticket.Ticket.{Ticket};
ghost use Rattle.fb_sched.specs.Agenda.{Agenda, IsAgenda, IsNew, slot_at, reactions_in, places_of, all_places};
ghost use Rattle.fb_sched.specs.Changes.{Opens, Takes, Puts, PutsAll, Settles};
ghost use Rattle.fb_sched.specs.Entries.{AllPending, OthersPending, Weighs, HoldsPlaces, entries, entry_by, arrival_entry, sent_entry, booked};
ghost use Rattle.fb_sched.specs.Steps.{rows, steps_by_row, spent, steps_left};

/// Where every open cause has a pending entry, there are no more open causes than entries.
pub fn pending_reactions_fit()
    ensures { (a : Agenda) → IsAgenda a → AllPending a.slots → reactions_in a.slots ≤ length a.tickets }
{}

/// Every open cause has a pending entry between dispatches. Within one, from `take` to `settle`, only the cause whose block runs may have none.
pub fn causes_stay_pending()
    ensures opens { (old new : Agenda) (cause : ℕ) (opening : Point) (places : ℕ) (values : ArrayVec ℤ)
        → Opens old cause opening places values new → AllPending old.slots → AllPending new.slots }
    ensures takes { (old new : Agenda) (first : Ticket)
        → Takes old first new → AllPending old.slots → OthersPending first.slot new.slots }
    ensures puts { (old new : Agenda) (slot : ℕ) (point : Point)
        → Puts old slot point new → OthersPending slot old.slots → OthersPending slot new.slots }
    ensures all { (old new : Agenda) (slot : ℕ) (points : List Point)
        → PutsAll old slot points new → OthersPending slot old.slots → OthersPending slot new.slots }
    ensures settles { (old new : Agenda) (slot steps : ℕ) (ended : Option Reaction)
        → Settles old slot steps ended new → OthersPending slot old.slots → AllPending new.slots }
{}

/// Where every open cause has a pending entry, the places that all causes take are those that the openings of the pending entries hold.
pub fn credit_is_held()
    ensures { (a : Agenda) (weight : Place → ℕ) (place : Point → Place)
        → IsAgenda a → AllPending a.slots → Weighs (λ p. weight (place p)) a.slots → HoldsPlaces weight place a }
{}

/// What the calls do to the places that all causes take: `open` adds its own, an end gives them back, and nothing else changes them.
pub fn credit_by_call()
    ensures opens { (old new : Agenda) (cause : ℕ) (opening : Point) (places : ℕ) (values : ArrayVec ℤ)
        → Opens old cause opening places values new → all_places new.slots ≡ all_places old.slots + places }
    ensures takes { (old new : Agenda) (first : Ticket)
        → Takes old first new → all_places new.slots ≡ all_places old.slots }
    ensures puts { (old new : Agenda) (slot : ℕ) (point : Point)
        → Puts old slot point new → all_places new.slots ≡ all_places old.slots }
    ensures all { (old new : Agenda) (slot : ℕ) (points : List Point)
        → PutsAll old slot points new → all_places new.slots ≡ all_places old.slots }
    ensures settles { (old new : Agenda) (slot steps : ℕ) (ended : Option Reaction)
        → Settles old slot steps ended new → all_places new.slots + places_of ended ≡ all_places old.slots }
{}

/// A cause is pending among the entries exactly where its reaction counts an entry.
pub fn pending_by_slot()
    ensures { (a : Agenda) (place : Point → Place) (slot : ℕ) (r : Reaction)
        → IsAgenda a → slot_at a.slots slot ≡ Some r → is_pending r.cause (map (booked place) (entries a)) ≡ not (r.pending == 0) }
{}

/// What the calls do to the entries: `open` and `put` append one, `take` removes the first, and `settle` leaves them.
pub fn entries_by_call()
    ensures opens { (old new : Agenda) (cause : ℕ) (opening : Point) (places : ℕ) (values : ArrayVec ℤ)
        → IsAgenda old → Opens old cause opening places values new → entries new ≡ entries old ++ arrival_entry cause opening values ∷ [] }
    ensures takes { (old new : Agenda) (first : Ticket) (r : Reaction)
        → Takes old first new → slot_at old.slots first.slot ≡ Some r → entries old ≡ entry_by (Some r) first ∷ entries new }
    ensures puts { (old new : Agenda) (slot : ℕ) (point : Point) (r : Reaction)
        → Puts old slot point new → slot_at old.slots slot ≡ Some r → entries new ≡ entries old ++ sent_entry r point ∷ [] }
    ensures all { (old new : Agenda) (slot : ℕ) (points : List Point) (r : Reaction)
        → PutsAll old slot points new → slot_at old.slots slot ≡ Some r → entries new ≡ entries old ++ map (sent_entry r) points }
    ensures settles { (old new : Agenda) (slot steps : ℕ) (ended : Option Reaction)
        → IsAgenda old → Settles old slot steps ended new → entries new ≡ entries old }
{}

/// The steps so far of a cause are those of its row among the reactions, and a cause that is not open has none.
pub fn steps_by_slot()
    ensures open { (a : Agenda) (slot : ℕ) (r : Reaction) → IsAgenda a → slot_at a.slots slot ≡ Some r → steps_by_row (rows a.slots) r.cause ≡ r.steps }
    ensures none { (a : Agenda) (cause : ℕ) → IsNew cause a.slots → steps_by_row (rows a.slots) cause ≡ 0 }
{}

/// What the calls do to the steps of all causes: `open` begins at 0, `settle` adds, or forgets a cause that has ended, and the others leave them.
pub fn steps_by_call()
    ensures opens { (old new : Agenda) (cause : ℕ) (opening : Point) (places : ℕ) (values : ArrayVec ℤ)
        → IsAgenda old → IsAgenda new → IsNew cause old.slots → Opens old cause opening places values new → spent new ≡ put (spent old) cause 0 }
    ensures takes { (old new : Agenda) (first : Ticket)
        → IsAgenda old → IsAgenda new → Takes old first new → spent new ≡ spent old }
    ensures puts { (old new : Agenda) (slot : ℕ) (point : Point)
        → IsAgenda old → IsAgenda new → Puts old slot point new → spent new ≡ spent old }
    ensures all { (old new : Agenda) (slot : ℕ) (points : List Point)
        → IsAgenda old → IsAgenda new → PutsAll old slot points new → spent new ≡ spent old }
    ensures settles { (old new : Agenda) (slot steps : ℕ) (ended : Option Reaction) (r : Reaction)
        → IsAgenda old → IsAgenda new → Settles old slot steps ended new → slot_at old.slots slot ≡ Some r → spent new ≡ put (spent old) r.cause (steps_left r steps) }
{}
