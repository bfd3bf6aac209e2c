//! The scope of algorithms and guards.

ghost use Rattle.std.specs.Prelude.{◌≡◌, ◌++◌, [], map, IfOk, OnOk};
ghost use Rattle.fb_model.specs.BlockTyping.{scope, symbol_of, names_in};
ghost use Rattle.fb_model.specs.Typing.{AreNew, AreDistinct};
ghost use Rattle.st_types.specs.Views.{entries};
ghost use Rattle.fb_types_blocks.specs.Answers.{names_in_map};
ghost use Rattle.fb_types_blocks.specs.Views.{declared_in};

use crate::names::add;
use crate::typed::Variables;
use indexmap::IndexMap;
use st_types::{Scope, Variable};
use std::alloc::{AllocError, Global};

// Adds variables of new names at the end.
fn enlarge(scope: &mut Scope, variables: &Variables, writable: bool) -> Result<(), AllocError>
    requires { AreNew (names_in_map scope.old) (names_in (declared_in variables.now)) }
    ensures { OnOk result (entries scope.new ≡ entries scope.old ++ map (symbol_of writable) (declared_in variables.now)) }
{
    for index in 0..variables.len() {
        let Some((name, variable)) = variables.get_index(index) else {
            unreachable!()
        };
        let number = scope.len();
        let entry = Variable {
            of_type: variable.of_type,
            bounds: variable.bounds,
            writable,
            number,
        };
        add(scope, name, entry)?;
    }
    Ok(())
}

/// What algorithms and guards read, and, but for inputs, assign. All names are different.
pub(crate) fn scope(
    alloc: Global,
    inputs: &Variables,
    outputs: &Variables,
    internals: &Variables,
) -> Result<Scope, AllocError>
    requires { AreDistinct (names_in (declared_in inputs.now) ++ names_in (declared_in outputs.now) ++ names_in (declared_in internals.now)) }
    ensures { IfOk result (λ s. entries s ≡ scope (declared_in inputs.now) (declared_in outputs.now) (declared_in internals.now)) }
{
    let mut scope = IndexMap::new(alloc);
    enlarge(&mut scope, inputs, false)?;
    enlarge(&mut scope, outputs, true)?;
    enlarge(&mut scope, internals, true)?;
    Ok(scope)
}
