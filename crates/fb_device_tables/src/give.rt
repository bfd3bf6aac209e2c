//! The data outputs that an event output is WITH.

ghost use Rattle.std.specs.Prelude.{◌≡◌, map, string_bytes, IfOk};
ghost use Rattle.fb_model.specs.Store as store;
ghost use Rattle.fb_types_blocks.specs.Views.{events_of};
ghost use Rattle.fb_flat.specs.Leaves.{kind_of};
ghost use Rattle.fb_chart.specs.Tables.{Each};
ghost use Rattle.fb_device_tables.specs.Filling.{IsSmallKind, IsGiveMade};

use crate::carry;
use crate::take::count;
use fb_chart::Give;
use fb_flat::Body;
use fb_types_blocks::Events;
use st_exec::Layout;
use std::alloc::{AllocError, Global};

// The same names again.
fn copied(alloc: Global, names: &[String]) -> Result<Vec<String>, AllocError>
    ensures { IfOk result (λ v. map string_bytes v.items ≡ map string_bytes names.now) }
{
    let mut copy = Vec::new(alloc);
    for name in names {
        copy.push(name.clone()?)?;
    }
    Ok(copy)
}

// What the event of a name carries.
fn carried(alloc: Global, events: &Events, name: &str) -> Result<Vec<String>, AllocError>
    ensures { IfOk result (λ v. map string_bytes v.items ≡ store.carried (events_of events.now) name.now) }
{
    match events.get(name) {
        Some(names) => copied(alloc, names),
        None => Ok(Vec::new(alloc)),
    }
}

/// The names of the data outputs that the event output of a name is WITH.
pub(crate) fn given(alloc: Global, body: &Body, name: &str) -> Result<Vec<String>, AllocError>
    ensures { IsSmallKind (kind_of body.now) → IfOk result (λ v. map string_bytes v.items ≡ store.gives (kind_of body.now) name.now) }
{
    match body {
        Body::Basic(block) => carried(alloc, &block.face.event_outputs, name),
        Body::Served(service) => carry::given(alloc, service, name),
    }
}

// The data output of a name with its slots.
fn give(own: &Layout, issued: &Layout, name: &String) -> Result<Give, AllocError>
    ensures { IfOk result (λ g. IsGiveMade own.now issued.now (string_bytes name.now) g) }
{
    Ok(Give {
        output: name.clone()?,
        own: own.slot(name.as_str()),
        issued: issued.slot(name.as_str()),
        count: count(own, name.as_str()),
    })
}

/// Data outputs with their slots, in order.
pub(crate) fn gives(
    alloc: Global,
    own: &Layout,
    issued: &Layout,
    names: &[String],
) -> Result<Vec<Give>, AllocError>
    ensures { IfOk result (λ v. Each (IsGiveMade own.now issued.now) (map string_bytes names.now) v.items) }
{
    let mut gives = Vec::with_capacity(alloc, names.len())?;
    for name in names {
        gives.push(give(own, issued, name)?)?;
    }
    Ok(gives)
}
