//! The ports of interfaces.

ghost use Rattle.std.specs.Prelude.{◌≡◌};
ghost use Rattle.fb_model.specs.Names.{is_in};
ghost use Rattle.fb_model.specs.Typing.{names_of};
ghost use Rattle.fb_model.specs.NetworkTyping.{variable_named};
ghost use Rattle.fb_model.specs.Store.{variable_names};
ghost use Rattle.fb_types_blocks.specs.Views.{events_of, variables_of};
ghost use Rattle.fb_types_services.specs.Views.{typed_as};

use fb_types_blocks::{Events, Variables};
use fb_words::ElemType;

/// Whether there is an event of this name.
pub fn has_event(events: &Events, name: &str) -> bool
    ensures { result ≡ is_in name.now (names_of (events_of events.now)) }
{
    events.contains_key(name)
}

/// The type of the variable of this name.
pub fn type_in(variables: &Variables, name: &str) -> Option<ElemType>
    ensures { typed_as result (variable_named (variables_of variables.now) name.now) }
{
    let variable = variables.get(name).copied()?;
    Some(variable.of_type)
}

/// Whether there is a variable of this name.
pub fn has_variable(variables: &Variables, name: &str) -> bool
    ensures { result ≡ is_in name.now (variable_names (variables_of variables.now)) }
{
    variables.contains_key(name)
}
