//! Room: language. Laws of what is answered of a text: the tree, or where the text goes wrong or nests too deep, is said of the grammar alone, and in one way.
//! Functions have empty bodies: nothing runs.
#![tactic(auto)]

mod answer;

pub use answer::{
    answers_are_all, answers_are_one, answers_are_so, places_are_one, texts_go_on,
    what_was_read_goes_on,
};
