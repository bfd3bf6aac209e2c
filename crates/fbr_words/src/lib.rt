//! Room: program. The command line of `fbr`: reads its words as a request, or reports why they are not one.
//! `read_words` answers exactly the request that the words are, unless memory runs out; words that it refuses are none.
#![tactic(auto)]

mod bound;
mod check;
mod given;
mod grammar;
mod guard;
mod network;
mod order;
mod pack;
mod play;
mod reading;
mod replay;
mod request;
mod serve;
mod shown;
mod sim;
mod time;
mod watched;

pub use bound::{Bound, Ranges};
pub use check::Check;
pub use grammar::VERSION;
pub use guard::{Guard, Sealing};
pub use network::Network;
pub use order::Order;
pub use pack::Pack;
pub use play::Play;
pub use reading::{Misread, read_words};
pub use replay::Replay;
pub use request::Request;
pub use serve::{Boot, Life, Serve, Telling};
pub use shown::{Draw, Explain};
pub use sim::Sim;
pub use time::{Time, Way};
pub use watched::Watched;
