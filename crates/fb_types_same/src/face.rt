//! Interfaces that are the same.

ghost use Rattle.std.specs.Prelude.{◌≡◌, true};
ghost use Rattle.fb_model.specs.Names.{Name};
ghost use Rattle.fb_types_blocks.specs.Views.{declared_of, declared_in, events_of, face_of};

use crate::names::same_names;
use fb_types_blocks::{Events, Face, Variable, Variables};

// Whether two variables are declared in the same way.
fn same_variable(one: &Variable, other: &Variable) -> bool
    ensures { result ≡ true → (x : Name) → declared_of x one.now ≡ declared_of x other.now }
{
    one.of_type == other.of_type && one.bounds == other.bounds && one.start == other.start
}

/// Whether two lists of variables are the same.
pub(crate) fn same_variables(one: &Variables, other: &Variables) -> bool
    ensures { result ≡ true → declared_in one.now ≡ declared_in other.now }
{
    if one.len() != other.len() {
        return false;
    }
    for at in 0..one.len() {
        let (Some((name, variable)), Some((next, like))) = (one.get_index(at), other.get_index(at))
        else {
            return false;
        };
        if name != next {
            return false;
        }
        if !same_variable(variable, like) {
            return false;
        }
    }
    true
}

// Whether two lists of events, each with what it is WITH, are the same.
fn same_events(one: &Events, other: &Events) -> bool
    ensures { result ≡ true → events_of one.now ≡ events_of other.now }
{
    if one.len() != other.len() {
        return false;
    }
    for at in 0..one.len() {
        let (Some((name, carried)), Some((next, like))) = (one.get_index(at), other.get_index(at))
        else {
            return false;
        };
        if name != next {
            return false;
        }
        if !same_names(carried, like) {
            return false;
        }
    }
    true
}

/// Whether two interfaces are the same.
pub(crate) fn same_face(one: &Face, other: &Face) -> bool
    ensures { result ≡ true → face_of one.now ≡ face_of other.now }
{
    same_events(&one.event_inputs, &other.event_inputs)
        && same_events(&one.event_outputs, &other.event_outputs)
        && same_variables(&one.inputs, &other.inputs)
        && same_variables(&one.outputs, &other.outputs)
}
