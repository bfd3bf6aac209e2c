//! Room: network. Sealed links: datagrams go out with a counter and a tag, and only those that a peer sealed are handed on, each at most once.
//! A tag is the first half of an HMAC-SHA-256 under the key of the sender, who shares it with all that are to hear it; each of these could seal in its
//! name. What is opened under a key was sealed under it (`sealed_datagrams_open`). That only who has the key can make its tags is assumed of HMAC, and
//! stands in no law. The same bytes are admitted at most once (`bytes_are_admitted_once`), and strangers cannot shut a friend out (`a_friend_is_admitted`).
//! Counters are written down before they are used (`Ledger`): a link uses none that is not, whichever end of it is restarted. How often a peer may send is
//! asked of a gate, about what that peer sealed, and about nothing else (`Gate`, `a_gate_is_asked_once`).
#![tactic(auto)]

mod form;
mod gate;
mod law;
mod ledger;
mod link;
mod peers;
mod tags;
mod window;

pub use form::{Envelope, Opened, SealedDatagram, is_tagged, open, said_in, seal};
pub use gate::{Gate, Unlimited};
pub use law::{
    a_friend_is_admitted, a_gate_is_asked_once, bytes_are_admitted_once, counters_are_taken_once,
    sealed_datagrams_open,
};
pub use ledger::Ledger;
pub use link::{Dropped, SealedLink};
pub use peers::{Peer, Reason, admit};
pub use tags::{is_same, tag};
pub use window::Window;

#[cfg(test)]
mod tests;
