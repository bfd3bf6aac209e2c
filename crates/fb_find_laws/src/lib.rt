//! Room: finder. Laws of what is found: numbers of places are those of nodes, and what is made of least numbers is the least certificate.
//! `IsFound` says what a certificate that is found is; `made_certificates_are_found` leads there from the parts. Functions have empty bodies.
#![tactic(auto)]

mod found;
mod number;

pub use found::{
    demands_are_of_nodes, great_numbers_are_needed, groups_say_same, made_certificates_are_found,
    network_demands_are_of_nodes, rows_are_numbers, small_numbers_are_least,
};
pub use number::{
    demands_pay, least_numbers_are_least, network_demands_pay, walks_are_walks, walks_have_places,
};
