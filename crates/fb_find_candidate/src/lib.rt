//! Room: finder. Ranges that may be proposed where those of the finder's rounds are not clear.
//! An end that goes on growing is widened to the next number that stands in the text, arms that cannot run ask nothing, and then all ranges shrink. No contracts: what is
//! proposed is tried, by `fb_find_search`. How far it gets is tested alone.
#![tactic(auto)]

mod ask;
mod case;
mod feed;
mod grow;
mod landmark;
mod line;
mod number;
mod proposal;
mod round;
mod value;
mod walk;
mod way;

pub use proposal::candidate;
