//! What a variable has at first: one number, an array that number in each element.

ghost use Rattle.std.specs.Prelude.{◌≡◌};
ghost use Rattle.fb_model.specs.Names.{Name};
ghost use Rattle.fb_model.specs.System.{start_of};
ghost use Rattle.fb_model.specs.Store.{first_input};
ghost use Rattle.fb_model.specs.BlockTyping.{variable_of};
ghost use Rattle.fb_types_blocks.specs.Views.{declared_of};
ghost use Rattle.fb_flat.specs.Tables.{book_source};
ghost use Rattle.fb_device_values.specs.Filling.{number_in, input_declared, bounds_if, start_if};

use fb_flat::{Body, Source};
use fb_types_blocks::Variable;

/// The start value of a variable; of an array, that of its elements.
pub(crate) fn start_number(variable: &Variable) -> i64
    ensures { (x : Name) → result ≡ number_in (start_of (variable_of (declared_of x variable.now))) }
{
    match variable.start {
        Some(number) => number,
        None => 0,
    }
}

// The same, where there may be no variable.
fn start_number_if(variable: &Option<Variable>) -> i64
    ensures { result ≡ number_in (start_if variable.now) }
{
    match variable {
        Some(variable) => start_number(variable),
        None => 0,
    }
}

/// The input of a name, where it is declared. Services declare none.
pub(crate) fn input_declared(body: &Body, name: &str) -> Option<Variable>
    ensures { result ≡ input_declared body.now name.now }
{
    match body {
        Body::Basic(block) => block.face.inputs.get(name).copied(),
        Body::Served(_) => None,
    }
}

/// The bounds of a variable that is an array.
pub(crate) fn bounds_if(variable: &Option<Variable>) -> Option<(i64, i64)>
    ensures { result ≡ bounds_if variable.now }
{
    match variable {
        Some(variable) => variable.bounds,
        None => None,
    }
}

/// What an input has at first: the constant that it always takes, else its start value.
pub(crate) fn input_number(source: &Source, variable: &Option<Variable>) -> i64
    ensures { result ≡ number_in (first_input (book_source source.now) (start_if variable.now)) }
{
    match source {
        Source::Output(_, _) => start_number_if(variable),
        Source::Number(number) => *number,
        Source::Zeros(_, _) => 0,
    }
}
