//! Room: book. Laws that checker, finder and device rest on: names, leaves, shapes, clear rows, what algorithms ask, demands, and the finder's rounds.
//! Of well typed systems: paths differ, outputs lead to inputs, charts are closed; where a certificate fits, devices hold (`fitting_devices_hold`);
//! a closed walk of demands denies every certificate (`walks_exclude`, `network_walks_exclude`); rounds end, and in one way (`rounds_end`, `rounds_have_one_end`).
//! Functions have empty bodies: nothing runs.
#![tactic(auto)]

mod asked;
mod clarity;
mod demand;
mod leaf;
mod names;
mod round;
mod shape;

pub use asked::{rows_only_grow, what_is_asked_is_enough};
pub use clarity::{clear_systems_lie, fitting_devices_hold};
pub use demand::{
    columns_meet_demands, network_walks_exclude, networks_meet_demands, walks_exclude,
};
pub use leaf::{
    charts_are_closed, inputs_take_their_types, leaves_are_few, outputs_lead_to_inputs,
    paths_differ, services_are_numbered,
};
pub use names::{names_are_capitals, names_are_words};
pub use round::{
    found_rows_are_all, found_rows_are_last, found_rows_are_one, found_rows_hold, good_rows_begin,
    last_rows_hold, rounds_end, rounds_have_one_end,
};
pub use shape::charts_have_shapes;
