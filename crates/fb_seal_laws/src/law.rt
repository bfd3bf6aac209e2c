//! The law of sealed links with rates.

ghost use Rattle.std.specs.Prelude.{◌≤◌, ℕ, List};
ghost use Rattle.fb_words.specs.Links.{LinkCall};
ghost use Rattle.fb_pace.specs.Pacing.{Asks, Pacing};
ghost use Rattle.fb_seal.specs.Gates.{ReceivesAll};
ghost use Rattle.fb_seal.specs.declared.link.Dropped.{Dropped};
ghost use Rattle.fb_seal.specs.declared.peers.Peer.{Peer};
ghost use Rattle.fb_seal_laws.specs.Fair.{IsFair};

use fb_link::Link;
use fb_seal::Ledger;

/// Over any receives of a link, whatever comes and whoever sends it: there are moments that do not go back at which the gate was asked, once for each datagram
/// that is handed on and once for each that is counted as too fast. Each peer whose moments keep to its rate was answered yes each time, so that none of its
/// datagrams is among the latter.
pub fn a_peer_within_its_rate_is_handed_on<L: Link, K: Ledger>()
    ensures { (before after : List Peer) (k m : K) (p q : Pacing) (dropped sum : Dropped) (s t : L) (calls : List LinkCall) → dropped.fast ≤ 18446744073709551615
        → ReceivesAll L.steps K.writes Asks before k p dropped s calls after m q sum t → IsFair p q calls dropped sum }
{}
