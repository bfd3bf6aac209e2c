//! One dispatch.

ghost use Rattle.std.specs.Prelude.{◌≡◌, ◌≤◌, ◌+◌, length, None};
ghost use Rattle.st_exec.specs.Cells.{forms_of};
ghost use Rattle.fb_chart.specs.Views.{kind_of};
ghost use Rattle.fb_chart.specs.Conditions.{IsConditionOf, leaf_state};
ghost use Rattle.fb_chart.specs.Dispatching.{CanRun, HasRun, CanDispatch, HasDispatched};

use crate::memory::{Condition, Memory};
use crate::{
    Block, Body, Effect, Emit, Invocation, Occurrence, Ports, ServiceTable, Store, invoke, sample,
    serve,
};

// A block that is dispatched: the block, the slots of its variables as a service, what it remembers, and the most steps that it may take.
#[derive(Clone, Copy)]
struct Dispatched<'a> {
    block: &'a Block,
    ports: &'a Ports,
    condition: Condition,
    most: u64,
}

// Runs a block whose inputs are sampled, and answers what it remembers, and its steps.
fn run<E: Emit>(
    dispatched: &Dispatched,
    occurrence: &Occurrence,
    own: &mut Store,
    issued: &mut Store,
    emit: &mut E,
    effect: &mut Option<Effect>,
) -> (Condition, u64)
    requires can { CanRun dispatched.now.block.now dispatched.now.ports.now own.old issued.old dispatched.now.condition occurrence.now.point.event occurrence.now.values.now dispatched.now.most (E.room emit.old) }
    requires effect { effect.old ≡ None }
    ensures ran { HasRun dispatched.now.block.now occurrence.now.point.event occurrence.now.values.now occurrence.now.clock (leaf_state (kind_of dispatched.now.block.now) own.old issued.old dispatched.now.condition) (leaf_state (kind_of dispatched.now.block.now) own.new issued.new result.0) result.1 effect.new (E.sent emit.old) (E.sent emit.new) }
    ensures condition { IsConditionOf (kind_of dispatched.now.block.now) result.0 }
    ensures own { forms_of own.new ≡ forms_of own.old }
    ensures issued { forms_of issued.new ≡ forms_of issued.old }
    ensures room { E.room emit.old + length (E.sent emit.old) ≡ E.room emit.new + length (E.sent emit.new) }
    ensures same_reference { E.reference emit.new ≡ E.reference emit.old }
{
    let block = dispatched.block;
    match &block.body {
        Body::Chart(chart) => match dispatched.condition {
            Condition::State(state) => {
                let invocation = Invocation {
                    chart,
                    outputs: &block.outputs,
                    event: occurrence.point.event,
                    most: dispatched.most,
                };
                let (state, steps) = invoke(&invocation, state, own, issued, emit);
                (Condition::State(state), steps)
            }
            Condition::Service(_) => unreachable!(),
        },
        Body::Served(service) => match dispatched.condition {
            Condition::State(_) => unreachable!(),
            Condition::Service(standing) => {
                let table = ServiceTable {
                    service,
                    ports: dispatched.ports,
                    outputs: &block.outputs,
                };
                let (standing, served) = serve(&table, occurrence, standing, own, issued, emit);
                *effect = served;
                (Condition::Service(standing), 1)
            }
        },
    }
}

/// Dispatches an event of a block at a moment of the clock: each data input that is WITH the event takes its value, and the block runs to its end.
/// The values of the occurrence are those of an arrival. Answers the steps; what the block did outside of the device goes to `effect`.
///
/// It does not trap. What its event outputs reach is emitted, for which there is room; the
/// room falls by as many. It is written to take no memory, which no clause says.
pub fn dispatch_block<E: Emit>(
    blocks: &[Block],
    ports: &[Ports],
    memory: &mut Memory,
    occurrence: &Occurrence,
    emit: &mut E,
    effect: &mut Option<Effect>,
) -> u64
    requires can { CanDispatch blocks.now ports.now memory.old occurrence.now.point occurrence.now.values.now (E.room emit.old) }
    requires effect { effect.old ≡ None }
    ensures dispatched { HasDispatched blocks.now ports.now memory.old occurrence.now.point occurrence.now.values.now occurrence.now.clock memory.new result effect.new (E.sent emit.old) (E.sent emit.new) }
    ensures room { E.room emit.old + length (E.sent emit.old) ≡ E.room emit.new + length (E.sent emit.new) }
    ensures same_reference { E.reference emit.new ≡ E.reference emit.old }
{
    let at = occurrence.point.block as usize;
    let block = &blocks[at];
    let event = &block.events[occurrence.point.event as usize];
    sample(&event.takes, &memory.issued, &mut memory.own[at]);
    let dispatched = Dispatched {
        block,
        ports: &ports[at],
        condition: memory.conditions[at],
        most: event.steps,
    };
    let (condition, steps) = run(
        &dispatched,
        occurrence,
        &mut memory.own[at],
        &mut memory.issued[at],
        emit,
        effect,
    );
    memory.conditions[at] = condition;
    steps
}
