//! Laws of sealed datagrams and of windows.

ghost use Rattle.std.specs.Prelude.{◌≡◌, ◌≤◌, ◌<◌, ℕ, Bool, List, Some, true, slice_get};
ghost use Rattle.std.specs.List.{AllByRecursion};
ghost use Rattle.fb_words.specs.Links.{LinkCall};
ghost use Rattle.fb_seal.specs.Gates.{AsksOfEach, ReceivesAll};
ghost use Rattle.fb_seal.specs.Seal.{Sealed};
ghost use Rattle.fb_seal.specs.Reading.{AreBytes, Envelope, Says, reading};
ghost use Rattle.fb_seal.specs.Peers.{Event, IsRefused, Run, occurrences, sealer};
ghost use Rattle.fb_seal.specs.declared.link.Dropped.{Dropped};
ghost use Rattle.fb_seal.specs.declared.peers.Peer.{Peer};
ghost use Rattle.fb_seal.specs.declared.peers.Reason.{Reason};
ghost use Rattle.fb_seal.specs.Window.{is_fresh, taken_of, takes, times};

use crate::gate::Gate;
use crate::ledger::Ledger;
use fb_link::Link;

/// What was sealed is opened to the same. What is opened was so sealed, under that key; that nobody else can make such a tag is no law, but what
/// is assumed of HMAC-SHA-256. Two sealed forms under one key that are equal have the same sender, counter and datagram.
pub fn sealed_datagrams_open()
    ensures opened { (key bytes datagram : List ℕ) (sender counter : ℕ) → Sealed key sender counter bytes datagram
        → reading key bytes ≡ Says (record { sender = sender; counter = counter; datagram = datagram }) }
    ensures sealed { (key bytes : List ℕ) (e : Envelope) → AreBytes bytes → reading key bytes ≡ Says e → Sealed key e.sender e.counter bytes e.datagram }
    ensures only { (key bytes one_datagram other_datagram : List ℕ) (one one_counter other other_counter : ℕ) → Sealed key one one_counter bytes one_datagram
        → Sealed key other other_counter bytes other_datagram
        → (one ≡ other) × (one_counter ≡ other_counter) × (one_datagram ≡ other_datagram) }
{}

/// Of counters that are offered, each is taken once at most, and none that was taken before. One that is above all that were taken is fresh.
pub fn counters_are_taken_once()
    ensures once { (before offers : List ℕ) (counter : ℕ) → times counter (taken_of before offers) ≤ 1 }
    ensures never_again { (before offers : List ℕ) (counter : ℕ) → 0 < times counter before → times counter (taken_of before offers) ≡ 0 }
    ensures above { (before : List ℕ) (counter : ℕ) → AllByRecursion (λ taken. taken < counter) before → is_fresh before counter ≡ true }
{}

/// Whatever comes, in whatever order and however often, also across restarts, the same bytes are admitted once at most.
pub fn bytes_are_admitted_once()
    ensures { (before after : List Peer) (events : List Event) (admitted : List (List ℕ)) → Run before events admitted after
        → (bytes : List ℕ) → occurrences bytes admitted ≤ 1 }
{}

/// What a peer sealed is not refused for any reason, if it may use the counter and that is fresh, as each one above the highest is.
pub fn a_friend_is_admitted()
    ensures { (peers : List Peer) (bytes datagram : List ℕ) (place counter : ℕ) (peer : Peer) (reason : Reason) → sealer bytes peers ≡ Some place
        → slice_get peers place ≡ Some peer → Sealed peer.key peer.number counter bytes datagram → counter < peer.upto → takes peer.window counter ≡ true
        → IsRefused reason peers bytes → ⊥ }
{}

/// Over any receives of a link, whatever comes: the gate is asked once for each datagram that is handed on, and once for each that is counted as too fast.
pub fn a_gate_is_asked_once<L: Link, K: Ledger, G: Gate>()
    ensures { (before after : List Peer) (k m : K) (g h : G) (dropped sum : Dropped) (s t : L) (calls : List LinkCall) → dropped.fast ≤ 18446744073709551615
        → ReceivesAll L.steps K.writes G.lets before k g dropped s calls after m h sum t → (questions : List (ℕ × Bool)) × AsksOfEach G.lets g h calls dropped sum questions }
{}
