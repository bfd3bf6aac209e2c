//! One invocation of a basic block: IEC 61499-1 edition 2, 5.2.2.

ghost use Rattle.std.specs.Prelude.{◌≡◌, ◌≢◌, ◌<◌, ◌≤◌, ◌+◌, ◌++◌, ◌^◌, length, true, None, Some, IfSome};
ghost use Rattle.std.specs.List.{AllByRecursion};
ghost use Rattle.std.specs.Option.{option_map};
ghost use Rattle.fb_model.specs.Typing.{AreDistinct};
ghost use Rattle.fb_model.specs.Language.{Done};
ghost use Rattle.fb_model.specs.Charts.{Fail, Settling, choice, tested, work as runs};
ghost use Rattle.fb_model_laws.specs.Leaves.{IsClosedBlock};
ghost use Rattle.st_exec.specs.CodeViews.{code_term};
ghost use Rattle.st_exec.specs.Placed.{placed};
ghost use Rattle.st_exec.specs.Cells.{values_of, forms_of};
ghost use Rattle.st_exec.specs.Runs.{EndsWithin};
ghost use Rattle.fb_chart.specs.Views.{named};
ghost use Rattle.fb_chart.specs.Tables.{IsChart};
ghost use Rattle.fb_chart.specs.Charting.{block_in, states_in, events_in, outputs_in, most_steps, IsStateNumber, IsReady, CanWork, numbered, is_open_to, chosen, cells_of, entered, begun, FineFrom, HasCome, HasRested};

use crate::emit::{Emit, send};
use crate::table::{Chart, Output};
use st_exec::{Code, Procedure, Store, exec, truth};

/// An invocation of a chart: the chart, what its outputs lead to, the number of the event, and the most steps that it may take.
#[derive(Clone, Copy)]
pub struct Invocation<'a> {
    pub chart: &'a Chart,
    pub outputs: &'a [Output],
    pub event: u16,
    pub most: u64,
}

// Whether the event of a transition lets it be crossed.
fn is_open(named: Option<u16>, event: Option<u16>) -> bool
    ensures { result ≡ is_open_to named event }
{
    match named {
        None => true,
        Some(named) => match event {
            None => false,
            Some(event) => event == named,
        },
    }
}

// Whether a guard lets its transition be crossed.
fn is_true(guard: &Option<Code>, own: &Store) -> bool
    requires placed { IfSome guard.now (λ g. placed (forms_of own.now) g ≡ true) }
    requires clear { tested (option_map code_term guard.now) (values_of own.now) ≢ None }
    ensures { tested (option_map code_term guard.now) (values_of own.now) ≡ Some result }
{
    match guard {
        None => true,
        Some(guard) => truth(guard, own),
    }
}

// The first transition from a state that can be crossed, with the event or without one: where it leads.
fn next_state(chart: &Chart, state: u16, event: Option<u16>, own: &Store) -> Option<u16>
    requires chart { IsChart (forms_of own.now) (events_in chart.now) (outputs_in chart.now) (block_in chart.now) chart.now }
    requires closed { IsClosedBlock (block_in chart.now) }
    requires apart { AreDistinct (events_in chart.now) }
    requires event { IfSome event (λ e. e < length (events_in chart.now)) }
    requires state { IsStateNumber state (block_in chart.now) }
    requires clear { choice (block_in chart.now).transitions (named (states_in chart.now) state) (option_map (named (events_in chart.now)) event) (values_of own.now) ≢ Fail }
    ensures chosen { choice (block_in chart.now).transitions (named (states_in chart.now) state) (option_map (named (events_in chart.now)) event) (values_of own.now) ≡ chosen (states_in chart.now) result }
    ensures within { IfSome result (λ u. u < length (states_in chart.now)) }
{
    let Some(current) = chart.code.states.get(state as usize) else {
        return None;
    };
    for transition in &current.transitions {
        if is_open(transition.event, event) && is_true(&transition.guard, own) {
            return Some(transition.target);
        }
    }
    None
}

// Runs the algorithm of a number, if there is one, and answers its steps.
fn work(procedures: &[Procedure], algorithm: Option<u16>, own: &mut Store) -> u64
    requires within { IfSome algorithm (λ n. n < length procedures.now) }
    requires can { AllByRecursion (CanWork (forms_of own.old)) procedures.now }
    requires small { EndsWithin (10 ^ 12) (runs (numbered procedures.now algorithm) (values_of own.old)) }
    ensures answers { runs (numbered procedures.now algorithm) (values_of own.old) ≡ Done (values_of own.new) result }
    ensures forms { forms_of own.new ≡ forms_of own.old }
{
    match algorithm {
        None => 0,
        Some(number) => exec(&procedures[number as usize], own),
    }
}

// Does the actions of a state in order, and answers the steps so far.
fn act<E: Emit>(
    invocation: &Invocation,
    state: u16,
    before: u64,
    own: &mut Store,
    issued: &mut Store,
    emit: &mut E,
) -> u64
    requires ready { IsReady invocation.now.chart.now invocation.now.outputs.now (forms_of own.old) (forms_of issued.old) }
    requires state { state < length (states_in invocation.now.chart.now) }
    requires few { invocation.now.most ≤ most_steps }
    requires fine { FineFrom (block_in invocation.now.chart.now) invocation.now.outputs.now invocation.now.most (E.room emit.old) (entered invocation.now.chart.now state (cells_of own.old issued.old) before) }
    ensures come { HasCome (block_in invocation.now.chart.now) invocation.now.outputs.now (entered invocation.now.chart.now state (cells_of own.old issued.old) before) (named (states_in invocation.now.chart.now) state) (cells_of own.new issued.new) Settling result (E.sent emit.old) (E.sent emit.new) }
    ensures own { forms_of own.new ≡ forms_of own.old }
    ensures issued { forms_of issued.new ≡ forms_of issued.old }
    ensures room { E.room emit.old + length (E.sent emit.old) ≡ E.room emit.new + length (E.sent emit.new) }
    ensures same_reference { E.reference emit.new ≡ E.reference emit.old }
{
    let mut steps = before;
    for action in &invocation.chart.code.states[state as usize].actions {
        steps += work(&invocation.chart.code.procedures, action.algorithm, own);
        send(invocation.outputs, action.output, own, issued, emit);
    }
    steps
}

/// Runs a chart from dispatch to rest, and answers its state and its steps, which are no more than `most`. Its inputs are sampled already.
///
/// It does not trap. What its event outputs reach is emitted, for which there is room; the room falls by as many.
pub fn invoke<E: Emit>(
    invocation: &Invocation,
    state: u16,
    own: &mut Store,
    issued: &mut Store,
    emit: &mut E,
) -> (u16, u64)
    requires ready { IsReady invocation.now.chart.now invocation.now.outputs.now (forms_of own.old) (forms_of issued.old) }
    requires state { IsStateNumber state (block_in invocation.now.chart.now) }
    requires event { invocation.now.event < length (events_in invocation.now.chart.now) }
    requires few { invocation.now.most ≤ most_steps }
    requires fine { FineFrom (block_in invocation.now.chart.now) invocation.now.outputs.now invocation.now.most (E.room emit.old) (begun invocation.now.chart.now state (cells_of own.old issued.old) invocation.now.event) }
    ensures rested { HasRested (block_in invocation.now.chart.now) invocation.now.outputs.now (begun invocation.now.chart.now state (cells_of own.old issued.old) invocation.now.event) (named (states_in invocation.now.chart.now) result.0) (cells_of own.new issued.new) result.1 (E.sent emit.old) (E.sent emit.new) }
    ensures steps { result.1 ≤ invocation.now.most }
    ensures state { IsStateNumber result.0 (block_in invocation.now.chart.now) }
    ensures own { forms_of own.new ≡ forms_of own.old }
    ensures issued { forms_of issued.new ≡ forms_of issued.old }
    ensures room { E.room emit.old + length (E.sent emit.old) ≡ E.room emit.new + length (E.sent emit.new) }
    ensures same_reference { E.reference emit.new ≡ E.reference emit.old }
{
    let mut now = state;
    let mut steps = 1;
    let mut waiting = Some(invocation.event);
    while let Some(target) = next_state(invocation.chart, now, waiting, own) {
        now = target;
        waiting = None;
        steps = act(invocation, now, steps + 1, own, issued, emit);
    }
    (now, steps)
}
