//! The examination of statements: what ranges they leave, what they ask of rows, and what is told of them.
//!
//! It goes on behind a fault, so that all is asked; what is told is the first fault in the text.

ghost use Rattle.std.specs.Prelude.{◌≡◌, ◌<◌, ◌^◌, ◌++◌, true, false, map, if◌then◌else◌, IfOk, OnOk, length, string_bytes};
ghost use Rattle.fb_model.specs.Names.{Name};
ghost use Rattle.fb_model.specs.Clear as book;
ghost use Rattle.fb_model.specs.Clear.{Clear, Leaves, Traps, with_range};
ghost use Rattle.fb_model.specs.Spans.{within, span};
ghost use Rattle.fb_model.specs.Asking as asking;
ghost use Rattle.fb_model.specs.Asking.{point, range_in};
ghost use Rattle.st_types.specs.Views.{term_of};
ghost use Rattle.st_types.specs.CommandViews.{cases_of, choice_of, choices_of, command_of, commands_of, counted_command, counting_of};
ghost use Rattle.fb_ranges.specs.Finding.{longer, tell};
ghost use Rattle.fb_ranges.specs.Meeting.{Dated, joint, ranges_after};
ghost use Rattle.fb_ranges.specs.Narrowing.{read_in};
ghost use Rattle.fb_ranges.specs.Settling.{HaveRows, LastHaveRows, held};
ghost use Rattle.fb_ranges_intervals.specs.Views.{span_of};
ghost use Rattle.fb_ranges.specs.Views.{clear_range, mark_of, names_of, spans_of};

use crate::assigned::names_assigned;
use crate::expression::{Ranged, is_between, range};
use crate::join::{ask, is_among, settle};
use crate::merge::{close, ended, merged, no_ways, noted};
use crate::narrowed::narrow;
use crate::rows::Ranges;
use crate::told::{Told, in_sequence, iterated, keeping, trapping};
use crate::touched::names_touched;
use crate::way::{Way, Ways};
use fb_ranges_intervals::{Interval, is_within, left_with, most_iterations, taken};
use st_types::{Counting, TypedArm, TypedBranch, TypedExpr, TypedStmt, VariableName};
use std::alloc::{AllocError, Global};

// A FOR: how it counts, and its body.
#[derive(Clone, Copy)]
struct Repetition<'a> {
    counting: &'a Counting,
    body: &'a [TypedStmt],
}

// The variable of a FOR, the ranges of the numbers from which and to which it counts, its step, and its body.
#[derive(Clone, Copy)]
struct Count<'a> {
    variable: &'a VariableName,
    first: Interval,
    last: Interval,
    step: i64,
    body: &'a [TypedStmt],
}

/// Statements, and the variables that they assign.
#[derive(Clone, Copy)]
pub(crate) struct Assigning<'a> {
    pub(crate) names: &'a [&'a VariableName],
    pub(crate) body: &'a [TypedStmt],
}

// What is told of statements, and how many of the variables that they assign surely have their rows afterwards: so many of the last.
#[derive(Clone, Copy)]
struct Ending {
    told: Told,
    settled: usize,
}

// The same, where nothing is known of the variables.
fn unsettled(told: Told) -> Ending
    ensures told { result.told ≡ told }
    ensures settled { result.settled ≡ 0 }
{
    Ending { told, settled: 0 }
}

// A variable gets a value.
fn examine_set(
    name: &VariableName,
    value: &TypedExpr,
    ranges: &mut Ranges,
) -> Result<Told, AllocError>
    ensures ranges { OnOk result (spans_of ranges.new ≡ book.changed (string_bytes name.now.name) (λ b. range_in (term_of value.now) (spans_of ranges.old)) (spans_of ranges.old)) }
    ensures tells { IfOk result (λ told. told ≡ tell (with_range (book.range_of (term_of value.now) (spans_of ranges.old)) (λ r. Clear (book.changed (string_bytes name.now.name) (λ b. r) (spans_of ranges.old)) 1))) }
{
    let value = range(value, ranges);
    ranges.insert_at(name, value.range)?;
    Ok(trapping(value.is_clear, Told::Steps(1)))
}

// What is told of an element of an array between these bounds that gets a value, by its array's row.
fn element_told(row: Interval, low: i64, high: i64, index: Ranged, value: Ranged) -> Told
    ensures { (s : book.Spans) → result ≡ tell (with_range (clear_range index) (λ k. with_range (clear_range value) (λ r. if within k (span low high) then (if within r (span_of row) then Clear s 1 else Leaves) else Traps))) }
{
    let stays = is_within(value.range, row);
    let fits = is_between(index.range, low, high);
    let told = trapping(fits, keeping(stays, Told::Steps(1)));
    trapping(index.is_clear, trapping(value.is_clear, told))
}

/// What a statement makes of ranges and asks of rows, under the rows of the variables; and what is told of it.
///
/// Fails where memory runs out; then nothing is said of the ranges.
pub fn examine_one(
    alloc: Global,
    rows: &Ranges,
    statement: &TypedStmt,
    ranges: &mut Ranges,
    asked: &mut Ranges,
) -> Result<Told, AllocError>
    ensures asks { OnOk result (point (spans_of ranges.new) (held (spans_of rows.now) (spans_of asked.new)) ≡ asking.ask_one (spans_of rows.now) (command_of statement.now) (point (spans_of ranges.old) (held (spans_of rows.now) (spans_of asked.old)))) }
    ensures tells { IfOk result (λ told. told ≡ tell (book.examine_one (spans_of rows.now) (command_of statement.now) (spans_of ranges.old))) }
{
    let end = examine_statement(alloc, rows, statement, false, ranges, asked)?;
    Ok(end.told)
}

// What statements make of ranges and ask of rows. `have_rows` tells that all variables that they assign have their rows.
#[cycle(examining)]
fn examine(
    alloc: Global,
    rows: &Ranges,
    list: &[TypedStmt],
    have_rows: bool,
    ranges: &mut Ranges,
    asked: &mut Ranges,
) -> Result<Ending, AllocError>
    requires { have_rows ≡ true → HaveRows (book.assigned (commands_of list.now)) (spans_of rows.now) (spans_of ranges.old) }
    ensures asks { OnOk result (point (spans_of ranges.new) (held (spans_of rows.now) (spans_of asked.new)) ≡ asking.ask (spans_of rows.now) (commands_of list.now) (point (spans_of ranges.old) (held (spans_of rows.now) (spans_of asked.old)))) }
    ensures tells { IfOk result (λ end. end.told ≡ tell (book.examine (spans_of rows.now) (commands_of list.now) (spans_of ranges.old))) }
    ensures settled { IfOk result (λ end. LastHaveRows end.settled (book.assigned (commands_of list.now)) (spans_of rows.now) (spans_of ranges.new)) }
{
    let mut all = Told::Steps(0);
    let mut settled = 0;
    let mut have_rows = have_rows;
    for statement in list {
        let end = examine_statement(alloc, rows, statement, have_rows, ranges, asked)?;
        all = in_sequence(all, end.told);
        settled = end.settled;
        have_rows = false;
    }
    Ok(Ending { told: all, settled })
}

// The same of one statement.
#[cycle(examining)]
fn examine_statement(
    alloc: Global,
    rows: &Ranges,
    statement: &TypedStmt,
    have_rows: bool,
    ranges: &mut Ranges,
    asked: &mut Ranges,
) -> Result<Ending, AllocError>
    requires { have_rows ≡ true → HaveRows (book.assigned_one (command_of statement.now)) (spans_of rows.now) (spans_of ranges.old) }
    ensures asks { OnOk result (point (spans_of ranges.new) (held (spans_of rows.now) (spans_of asked.new)) ≡ asking.ask_one (spans_of rows.now) (command_of statement.now) (point (spans_of ranges.old) (held (spans_of rows.now) (spans_of asked.old)))) }
    ensures tells { IfOk result (λ end. end.told ≡ tell (book.examine_one (spans_of rows.now) (command_of statement.now) (spans_of ranges.old))) }
    ensures settled { IfOk result (λ end. LastHaveRows end.settled (book.assigned_one (command_of statement.now)) (spans_of rows.now) (spans_of ranges.new)) }
{
    match statement {
        TypedStmt::Set(name, value) => Ok(unsettled(examine_set(name, value, ranges)?)),
        TypedStmt::SetElement(name, low, high, index, value) => {
            let index = range(index, ranges);
            let value = range(value, ranges);
            ask(name, value.range, asked)?;
            let row = rows.find_at(name);
            Ok(unsettled(element_told(row, *low, *high, index, value)))
        }
        TypedStmt::If(branches, other) => {
            let told = examine_branches(alloc, rows, branches, other, ranges, asked)?;
            Ok(unsettled(in_sequence(Told::Steps(1), told)))
        }
        TypedStmt::Case(selector, arms, other) => {
            let is_clear = range(selector, ranges).is_clear;
            let told = examine_arms(alloc, rows, arms, other, ranges, asked)?;
            let all = trapping(is_clear, in_sequence(Told::Steps(1), told));
            Ok(unsettled(all))
        }
        TypedStmt::For(counting, body) => {
            let repetition = Repetition { counting, body };
            examine_for(alloc, rows, &repetition, have_rows, ranges, asked)
        }
    }
}

// IF: each condition where the earlier ones are false.
#[cycle(examining)]
fn examine_branches(
    alloc: Global,
    rows: &Ranges,
    branches: &[TypedBranch],
    other: &[TypedStmt],
    ranges: &mut Ranges,
    asked: &mut Ranges,
) -> Result<Told, AllocError>
    ensures asks { OnOk result (point (spans_of ranges.new) (held (spans_of rows.now) (spans_of asked.new)) ≡ asking.ask_choices (spans_of rows.now) (choices_of branches.now) (asking.ask (spans_of rows.now) (commands_of other.now)) (point (spans_of ranges.old) (held (spans_of rows.now) (spans_of asked.old)))) }
    ensures tells { IfOk result (λ told. told ≡ tell (book.examine_choices (spans_of rows.now) (choices_of branches.now) (book.examine (spans_of rows.now) (commands_of other.now)) (spans_of ranges.old))) }
{
    let mut ways = no_ways(alloc);
    for branch in branches {
        let way = examine_branch(alloc, rows, branch, ranges, asked)?;
        merged(&mut ways, &way, ranges)?;
        narrow(&branch.condition, false, ranges)?;
    }
    examine_last(alloc, rows, other, ways, ranges, asked)
}

// A branch, where its condition is true; afterwards the ranges are as before.
#[cycle(examining)]
fn examine_branch<'a>(
    alloc: Global,
    rows: &Ranges,
    branch: &'a TypedBranch,
    ranges: &mut Ranges,
    asked: &mut Ranges,
) -> Result<Way<'a>, AllocError>
    ensures ends { IfOk result (λ way. map span_of way.ends.items ≡ map (asking.ask (spans_of rows.now) (choice_of branch.now).1 (point (book.narrowed (choice_of branch.now).0 true (spans_of ranges.old)) (held (spans_of rows.now) (spans_of asked.old)))).spans (names_of way.names.items)) }
    ensures asks { OnOk result (held (spans_of rows.now) (spans_of asked.new) ≡ (asking.ask (spans_of rows.now) (choice_of branch.now).1 (point (book.narrowed (choice_of branch.now).0 true (spans_of ranges.old)) (held (spans_of rows.now) (spans_of asked.old)))).rows) }
    ensures tells { IfOk result (λ way. way.told ≡ tell (with_range (book.range_of (choice_of branch.now).0 (spans_of ranges.old)) (λ r. book.examine (spans_of rows.now) (choice_of branch.now).1 (book.narrowed (choice_of branch.now).0 true (spans_of ranges.old))))) }
    ensures touched { IfOk result (λ way. names_of way.names.items ≡ read_in (choice_of branch.now).0 ++ book.assigned (choice_of branch.now).1) }
    ensures unchanged { OnOk result (spans_of ranges.new ≡ spans_of ranges.old) }
{
    let is_clear = range(&branch.condition, ranges).is_clear;
    let names = names_touched(alloc, &branch.condition, &branch.body)?;
    let before = noted(alloc, &names, ranges)?;
    narrow(&branch.condition, true, ranges)?;
    let end = examine(alloc, rows, &branch.body, false, ranges, asked)?;
    let all = trapping(is_clear, end.told);
    Ok(ended(alloc, names, all, &before, ranges)?)
}

// CASE, which narrows nothing.
#[cycle(examining)]
fn examine_arms(
    alloc: Global,
    rows: &Ranges,
    arms: &[TypedArm],
    other: &[TypedStmt],
    ranges: &mut Ranges,
    asked: &mut Ranges,
) -> Result<Told, AllocError>
    ensures asks { OnOk result (point (spans_of ranges.new) (held (spans_of rows.now) (spans_of asked.new)) ≡ asking.ask_cases (spans_of rows.now) (cases_of arms.now) (asking.ask (spans_of rows.now) (commands_of other.now)) (point (spans_of ranges.old) (held (spans_of rows.now) (spans_of asked.old)))) }
    ensures tells { IfOk result (λ told. told ≡ tell (book.examine_cases (spans_of rows.now) (cases_of arms.now) (book.examine (spans_of rows.now) (commands_of other.now) (spans_of ranges.old)) (spans_of ranges.old))) }
{
    let mut ways = no_ways(alloc);
    for arm in arms {
        let way = examine_way(alloc, rows, &arm.body, ranges, asked)?;
        merged(&mut ways, &way, ranges)?;
    }
    examine_last(alloc, rows, other, ways, ranges, asked)
}

// A way that narrows nothing; afterwards the ranges are as before.
#[cycle(examining)]
fn examine_way<'a>(
    alloc: Global,
    rows: &Ranges,
    body: &'a [TypedStmt],
    ranges: &mut Ranges,
    asked: &mut Ranges,
) -> Result<Way<'a>, AllocError>
    ensures ends { IfOk result (λ way. map span_of way.ends.items ≡ map (asking.ask (spans_of rows.now) (commands_of body.now) (point (spans_of ranges.old) (held (spans_of rows.now) (spans_of asked.old)))).spans (names_of way.names.items)) }
    ensures touched { IfOk result (λ way. names_of way.names.items ≡ book.assigned (commands_of body.now)) }
    ensures asks { OnOk result (held (spans_of rows.now) (spans_of asked.new) ≡ (asking.ask (spans_of rows.now) (commands_of body.now) (point (spans_of ranges.old) (held (spans_of rows.now) (spans_of asked.old)))).rows) }
    ensures tells { IfOk result (λ way. way.told ≡ tell (book.examine (spans_of rows.now) (commands_of body.now) (spans_of ranges.old))) }
    ensures unchanged { OnOk result (spans_of ranges.new ≡ spans_of ranges.old) }
{
    let names = names_assigned(alloc, body)?;
    let before = noted(alloc, &names, ranges)?;
    let end = examine(alloc, rows, body, false, ranges, asked)?;
    Ok(ended(alloc, names, end.told, &before, ranges)?)
}

// The last way, whose ranges become those of all.
#[cycle(examining)]
fn examine_last(
    alloc: Global,
    rows: &Ranges,
    body: &[TypedStmt],
    ways: Ways,
    ranges: &mut Ranges,
    asked: &mut Ranges,
) -> Result<Told, AllocError>
    requires room { ways.count < 2 ^ 63 }
    requires dated { (x : Name) → Dated ways.count (mark_of ways x) }
    ensures ranges { OnOk result (spans_of ranges.new ≡ joint ways.count (ranges_after ways.count (mark_of ways) (spans_of ranges.old)) (asking.ask (spans_of rows.now) (commands_of body.now) (point (spans_of ranges.old) (held (spans_of rows.now) (spans_of asked.old)))).spans) }
    ensures asks { OnOk result (held (spans_of rows.now) (spans_of asked.new) ≡ (asking.ask (spans_of rows.now) (commands_of body.now) (point (spans_of ranges.old) (held (spans_of rows.now) (spans_of asked.old)))).rows) }
    ensures tells { IfOk result (λ told. told ≡ longer ways.told (tell (book.examine (spans_of rows.now) (commands_of body.now) (spans_of ranges.old)))) }
{
    let mut ways = ways;
    let way = examine_way(alloc, rows, body, ranges, asked)?;
    merged(&mut ways, &way, ranges)?;
    close(&ways, ranges)?;
    Ok(ways.told)
}

// FOR: its bounds, once.
#[cycle(examining)]
fn examine_for(
    alloc: Global,
    rows: &Ranges,
    repetition: &Repetition,
    have_rows: bool,
    ranges: &mut Ranges,
    asked: &mut Ranges,
) -> Result<Ending, AllocError>
    requires { have_rows ≡ true → HaveRows (book.assigned_one (counted_command (counting_of repetition.now.counting.now) (commands_of repetition.now.body.now))) (spans_of rows.now) (spans_of ranges.old) }
    ensures asks { OnOk result (point (spans_of ranges.new) (held (spans_of rows.now) (spans_of asked.new)) ≡ asking.ask_one (spans_of rows.now) (counted_command (counting_of repetition.now.counting.now) (commands_of repetition.now.body.now)) (point (spans_of ranges.old) (held (spans_of rows.now) (spans_of asked.old)))) }
    ensures tells { IfOk result (λ end. end.told ≡ tell (book.examine_one (spans_of rows.now) (counted_command (counting_of repetition.now.counting.now) (commands_of repetition.now.body.now)) (spans_of ranges.old))) }
    ensures settled { IfOk result (λ end. LastHaveRows end.settled (book.assigned_one (counted_command (counting_of repetition.now.counting.now) (commands_of repetition.now.body.now))) (spans_of rows.now) (spans_of ranges.new)) }
{
    let counting = repetition.counting;
    let first = range(&counting.first, ranges);
    let last = range(&counting.last, ranges);
    let are_clear = if first.is_clear { last.is_clear } else { false };
    if most_iterations(first.range, last.range, counting.step) == 0 {
        return Ok(unsettled(trapping(are_clear, Told::Steps(1))));
    }
    let count = Count {
        variable: &counting.variable,
        first: first.range,
        last: last.range,
        step: counting.step,
        body: repetition.body,
    };
    let end = examine_iterations(alloc, rows, count, have_rows, ranges, asked)?;
    Ok(Ending {
        told: trapping(are_clear, end.told),
        settled: end.settled,
    })
}

// All of these variables, or none.
fn all_or_none(all: bool, names: &[&VariableName]) -> usize
    ensures { result ≡ (if all then length names.now else 0) }
{
    if all { names.len() } else { 0 }
}

// The iterations of a FOR, of which there are some. `have_rows` tells that all variables that its body assigns have their rows.
#[cycle(examining)]
fn examine_iterations(
    alloc: Global,
    rows: &Ranges,
    count: Count<'_>,
    have_rows: bool,
    ranges: &mut Ranges,
    asked: &mut Ranges,
) -> Result<Ending, AllocError>
    requires some { 0 < book.most_iterations (span_of count.first) (span_of count.last) count.step }
    requires have { have_rows ≡ true → HaveRows (book.assigned (commands_of count.body.now)) (spans_of rows.now) (spans_of ranges.old) }
    ensures asks { OnOk result (point (spans_of ranges.new) (held (spans_of rows.now) (spans_of asked.new)) ≡ asking.asked_loop (book.most_iterations (span_of count.entry.first) (span_of count.entry.last) count.entry.step) (book.assigned (commands_of count.entry.body.now)) (spans_of rows.now) (asking.ask (spans_of rows.now) (commands_of count.entry.body.now)) (string_bytes count.entry.variable.now.name) (span_of count.entry.first) (span_of count.entry.last) count.entry.step (point (spans_of ranges.old) (held (spans_of rows.now) (spans_of asked.old)))) }
    ensures tells { IfOk result (λ end. end.told ≡ tell (book.looped (book.most_iterations (span_of count.entry.first) (span_of count.entry.last) count.entry.step) (book.assigned (commands_of count.entry.body.now)) (spans_of rows.now) (book.examine (spans_of rows.now) (commands_of count.entry.body.now)) (string_bytes count.entry.variable.now.name) (span_of count.entry.first) (span_of count.entry.last) count.entry.step (spans_of ranges.old))) }
    ensures settled { IfOk result (λ end. LastHaveRows end.settled (book.assigned (commands_of count.entry.body.now)) (spans_of rows.now) (spans_of ranges.new)) }
{
    let Count {
        variable,
        first,
        last,
        step,
        body,
    } = count;
    let iterations = most_iterations(first, last, step);
    let names = names_assigned(alloc, body)?;
    let settled = all_or_none(have_rows, &names);
    let begins = settle(&names, settled, rows, ranges, asked)?;
    let before = ranges.find_at(variable);
    ranges.insert_at(variable, taken(first, last, step, iterations))?;
    let is_apart = !is_among(variable, &names);
    let assigning = Assigning {
        names: &names,
        body,
    };
    let told = examine_keeping(alloc, rows, &assigning, is_apart, ranges, asked)?;
    ranges.insert_at(variable, left_with(first, last, step, iterations, before))?;
    Ok(Ending {
        told: iterated(iterations, begins, told),
        settled: all_or_none(is_apart, &names),
    })
}

/// Statements that have to keep the rows of the variables that they assign: an algorithm, or the body of a FOR, once for all iterations.
/// `have_rows` tells that these variables have their rows. Afterwards they do.
///
/// Fails where memory runs out; then nothing is said of the ranges.
#[cycle(examining)]
pub(crate) fn examine_keeping(
    alloc: Global,
    rows: &Ranges,
    assigning: &Assigning,
    have_rows: bool,
    ranges: &mut Ranges,
    asked: &mut Ranges,
) -> Result<Told, AllocError>
    requires named { names_of assigning.now.names.now ≡ book.assigned (commands_of assigning.now.body.now) }
    requires have { have_rows ≡ true → HaveRows (book.assigned (commands_of assigning.now.body.now)) (spans_of rows.now) (spans_of ranges.old) }
    ensures asks { OnOk result (held (spans_of rows.now) (spans_of asked.new) ≡ (let end = asking.ask (spans_of rows.now) (commands_of assigning.now.body.now) (point (spans_of ranges.old) (held (spans_of rows.now) (spans_of asked.old))) in asking.asking_all (names_of assigning.now.names.now) end.spans end.rows)) }
    ensures tells { IfOk result (λ told. told ≡ tell (book.kept (spans_of rows.now) (names_of assigning.now.names.now) (book.examine (spans_of rows.now) (commands_of assigning.now.body.now) (spans_of ranges.old)))) }
    ensures rest { OnOk result (spans_of ranges.new ≡ book.reset (names_of assigning.now.names.now) (spans_of rows.now) (spans_of ranges.old)) }
{
    let end = examine(alloc, rows, assigning.body, have_rows, ranges, asked)?;
    let are_kept = settle(assigning.names, end.settled, rows, ranges, asked)?;
    Ok(keeping(are_kept, end.told))
}
