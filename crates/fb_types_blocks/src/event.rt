//! Events and the variables that they are WITH.

ghost use Rattle.std.specs.Prelude.{◌≡◌, map, string_bytes, IfOk, IfErr, OnOk};
ghost use Rattle.std.specs.List.{AllByRecursion};
ghost use Rattle.fb_model.specs.BlockTyping.{AreKnown, typed_event, event_texts};
ghost use Rattle.fb_model.specs.Typing.{texts, AreDistinct};
ghost use Rattle.fb_tree.specs.Words.{word_of};
ghost use Rattle.fb_tree.specs.Files as tree;
ghost use Rattle.fb_types_blocks.specs.Answers.{names_in_map};
ghost use Rattle.fb_types_blocks.specs.Views.{events_of};
ghost use Rattle.fb_model.specs.BlockFaults.{IsUnknown, IsEventFault, Among};

use crate::names::{add, known};
use crate::typed::{Events, Variables};
use fb_faults::TypeFault;
use fb_tree::{EventTree, Name};
use indexmap::IndexMap;
use std::alloc::Global;

// The names after a WITH, which are all variables.
fn carried(alloc: Global, variables: &Variables, names: &[Name]) -> Result<Vec<String>, TypeFault>
    ensures known { OnOk result (AreKnown (names_in_map variables.now) (map word_of names.now)) }
    ensures value { IfOk result (λ v. map string_bytes v.items ≡ texts (map word_of names.now)) }
    ensures refused { IfErr result (Among (IsUnknown (names_in_map variables.now)) (map word_of names.now)) }
{
    let mut carried = Vec::new(alloc);
    for name in names {
        known(variables, name)?;
        carried.push(name.text.clone()?)?;
    }
    Ok(carried)
}

/// Events of different names, WITH these variables.
pub(crate) fn events(
    alloc: Global,
    variables: &Variables,
    sources: &[EventTree],
) -> Result<Events, TypeFault>
    requires { AreDistinct (event_texts (map tree.event_of sources.now)) }
    ensures known { OnOk result (AllByRecursion (λ e. AreKnown (names_in_map variables.now) e.carries) (map tree.event_of sources.now)) }
    ensures value { IfOk result (λ m. events_of m ≡ map typed_event (map tree.event_of sources.now)) }
    ensures refused { IfErr result (Among (IsEventFault (names_in_map variables.now)) (map tree.event_of sources.now)) }
{
    let mut events = IndexMap::new(alloc);
    for source in sources {
        let carried = carried(alloc, variables, &source.carries)?;
        add(&mut events, &source.name.text, carried)?;
    }
    Ok(events)
}
