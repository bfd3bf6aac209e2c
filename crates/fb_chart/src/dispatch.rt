//! One dispatch of a service with its emission.

ghost use Rattle.std.specs.Prelude.{◌≡◌, ◌≤◌, ◌+◌, length};
ghost use Rattle.fb_model.specs.Services.{can_emit};
ghost use Rattle.fb_model.specs.Wires.{Serviced};
ghost use Rattle.fb_model.specs.Ranges.{IsMessage};
ghost use Rattle.fb_types_services.specs.Views.{service_of};
ghost use Rattle.st_exec.specs.Cells.{values_of, forms_of};
ghost use Rattle.fb_chart.specs.Sending.{sent_to};
ghost use Rattle.fb_chart.specs.Responses.{event_at, leaf_of, effect_of};
ghost use Rattle.fb_chart.specs.Serving.{SendsFit, CanServe, HasServed};

use crate::response::reply;
use crate::standing::{Effect, Occurrence, Ports, Standing};
use crate::{Emit, Output, Store, send};
use fb_types_services::Service;

/// A service by slots and numbers: where its variables lie, and what its outputs lead to.
#[derive(Clone, Copy)]
pub struct ServiceTable<'a> {
    pub service: &'a Service,
    pub ports: &'a Ports,
    pub outputs: &'a [Output],
}

/// One dispatch of a service, whose inputs are sampled already: what it remembers after it, and what it does outside of its device.
///
/// What its event outputs reach is emitted, for which there is room; the room falls by as many.
pub fn serve<E: Emit>(
    table: &ServiceTable,
    occurrence: &Occurrence,
    standing: Standing,
    own: &mut Store,
    issued: &mut Store,
    emit: &mut E,
) -> (Standing, Option<Effect>)
    requires ready { CanServe (service_of table.now.service.now) table.now.ports.now table.now.outputs.now (forms_of own.old) (forms_of issued.old) }
    requires message { IsMessage (Serviced (service_of table.now.service.now)) occurrence.now.values.now }
    requires room { length (sent_to table.now.outputs.now (can_emit (service_of table.now.service.now) (event_at (service_of table.now.service.now) occurrence.now.point.event))) ≤ E.room emit.old }
    requires sends { SendsFit (service_of table.now.service.now) (values_of own.old) }
    ensures served { HasServed (service_of table.now.service.now) table.now.outputs.now occurrence.now.clock (event_at (service_of table.now.service.now) occurrence.now.point.event) occurrence.now.values.now (leaf_of (values_of own.old) (values_of issued.old) standing) (leaf_of (values_of own.new) (values_of issued.new) result.0) (effect_of result.1) (E.sent emit.old) (E.sent emit.new) }
    ensures own { forms_of own.new ≡ forms_of own.old }
    ensures issued { forms_of issued.new ≡ forms_of issued.old }
    ensures room { E.room emit.old + length (E.sent emit.old) ≡ E.room emit.new + length (E.sent emit.new) }
    ensures same_reference { E.reference emit.new ≡ E.reference emit.old }
{
    let response = reply(table.service, table.ports, occurrence, standing, own);
    send(table.outputs, response.output, own, issued, emit);
    (response.standing, response.effect)
}
