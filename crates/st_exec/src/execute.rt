//! Runs of algorithms: IEC 61131-3 edition 3, 7.3.3.

ghost use Rattle.std.specs.Prelude.{◌≡◌, ◌^◌, true, ◌&&◌, map, string_bytes, None};
ghost use Rattle.fb_model.specs.TypedText.{choose, match_on, constant};
ghost use Rattle.fb_model.specs.Language.{Done, iteration_count, iterations, run_one, run, run_choices, run_cases};
ghost use Rattle.st_exec.specs.Forms.{plain_slot};
ghost use Rattle.st_exec.specs.CodeViews.{code_command, code_commands, code_choices, code_cases};
ghost use Rattle.st_exec.specs.Placed.{placed_stmt, placed_branch, placed_arm, placed_all, all_true};
ghost use Rattle.st_exec.specs.Cells.{values_of, forms_of, shape_of, IsDeclared};
ghost use Rattle.st_exec.specs.Runs.{EndsWithin, Supports, SupportsOne};

use crate::arithmetic::is_zero;
use crate::evaluate::eval;
use crate::iterations::{is_labelled, iterations_of, taken};
use crate::store::Store;
use crate::{CodeArm, CodeBranch, CodeCounting, CodeStmt, Procedure};

/// Runs an algorithm and answers its steps: one for each statement begun and each iteration of a FOR, none for conditions.
///
/// The run does not trap and takes no more than 10^12 steps. No memory is taken.
pub fn exec(procedure: &Procedure, store: &mut Store) -> u64
    requires placed { placed_all (forms_of store.old) procedure.now.statements.items ≡ true }
    requires serves { Supports (forms_of store.old) (code_commands procedure.now.statements.items) }
    requires small { EndsWithin (10 ^ 12) (run (code_commands procedure.now.statements.items) (values_of store.old)) }
    ensures answers { run (code_commands procedure.now.statements.items) (values_of store.old) ≡ Done (values_of store.new) result }
    ensures unchanged { forms_of store.new ≡ forms_of store.old }
{
    run_list(procedure.statements.as_slice(), store)
}

// Runs statements in order.
#[cycle(running)]
fn run_list(list: &[CodeStmt], store: &mut Store) -> u64
    requires placed { placed_all (forms_of store.old) list.now ≡ true }
    requires serves { Supports (forms_of store.old) (code_commands list.now) }
    requires small { EndsWithin (10 ^ 12) (run (code_commands list.now) (values_of store.old)) }
    ensures answers { run (code_commands list.now) (values_of store.old) ≡ Done (values_of store.new) result }
    ensures unchanged { forms_of store.new ≡ forms_of store.old }
{
    let mut steps = 0;
    for statement in list {
        steps += run_statement(statement, store);
    }
    steps
}

#[cycle(running)]
fn run_statement(statement: &CodeStmt, store: &mut Store) -> u64
    requires placed { placed_stmt (forms_of store.old) statement.now ≡ true }
    requires serves { SupportsOne (forms_of store.old) (code_command statement.now) }
    requires small { EndsWithin (10 ^ 12) (run_one (code_command statement.now) (values_of store.old)) }
    ensures answers { run_one (code_command statement.now) (values_of store.old) ≡ Done (values_of store.new) result }
    ensures unchanged { forms_of store.new ≡ forms_of store.old }
{
    match statement {
        CodeStmt::Set(_, slot, value) => {
            let value = eval(value, store);
            store.set_number(*slot, value);
            1
        }
        CodeStmt::SetElement(_, first, low, _, index, value) => {
            let index = eval(index, store);
            let value = eval(value, store);
            store.set_element(*first, *low, index, value);
            1
        }
        CodeStmt::If(branches, rest) => 1 + run_branches(branches, rest, store),
        CodeStmt::Case(selector, arms, rest) => {
            let selector = eval(selector, store);
            1 + run_arms(selector, arms, rest, store)
        }
        CodeStmt::For(counting, body) => {
            let first = eval(&counting.first, store);
            let last = eval(&counting.last, store);
            1 + run_iterations(counting, first, last, body, store)
        }
    }
}

// Runs the first branch whose condition holds, else the rest.
#[cycle(running)]
fn run_branches(list: &[CodeBranch], rest: &[CodeStmt], store: &mut Store) -> u64
    requires placed { (all_true (map (placed_branch (forms_of store.old)) list.now) && placed_all (forms_of store.old) rest.now) ≡ true }
    requires serves { SupportsOne (forms_of store.old) (choose (code_choices list.now) (code_commands rest.now)) }
    requires small { EndsWithin (10 ^ 12) (run_choices (code_choices list.now) (values_of store.old) (run (code_commands rest.now) (values_of store.old))) }
    ensures answers { run_choices (code_choices list.now) (values_of store.old) (run (code_commands rest.now) (values_of store.old)) ≡ Done (values_of store.new) result }
    ensures unchanged { forms_of store.new ≡ forms_of store.old }
{
    for branch in list {
        if !is_zero(eval(&branch.condition, store)) {
            return run_list(&branch.body, store);
        }
    }
    run_list(rest, store)
}

// Runs the first arm that has the number, else the rest.
#[cycle(running)]
fn run_arms(number: i64, list: &[CodeArm], rest: &[CodeStmt], store: &mut Store) -> u64
    requires placed { (all_true (map (placed_arm (forms_of store.old)) list.now) && placed_all (forms_of store.old) rest.now) ≡ true }
    requires serves { SupportsOne (forms_of store.old) (match_on (constant number) (code_cases list.now) (code_commands rest.now)) }
    requires small { EndsWithin (10 ^ 12) (run_cases (code_cases list.now) number (values_of store.old) (run (code_commands rest.now) (values_of store.old))) }
    ensures answers { run_cases (code_cases list.now) number (values_of store.old) (run (code_commands rest.now) (values_of store.old)) ≡ Done (values_of store.new) result }
    ensures unchanged { forms_of store.new ≡ forms_of store.old }
{
    for arm in list {
        if is_labelled(&arm.labels, number) {
            return run_list(&arm.body, store);
        }
    }
    run_list(rest, store)
}

// The iterations of a FOR.
#[cycle(running)]
fn run_iterations(
    counting: &CodeCounting,
    first: i64,
    last: i64,
    body: &[CodeStmt],
    store: &mut Store,
) -> u64
    requires slot { plain_slot (forms_of store.old) (string_bytes counting.now.variable) ≡ counting.now.slot }
    requires placed { placed_all (forms_of store.old) body.now ≡ true }
    requires plain { shape_of store.old (string_bytes counting.now.variable) ≡ None }
    requires declared { IsDeclared store.old (string_bytes counting.now.variable) }
    requires serves { Supports (forms_of store.old) (code_commands body.now) }
    requires small { EndsWithin (10 ^ 12) (iterations (iteration_count first last counting.now.step) (run (code_commands body.now)) (string_bytes counting.now.variable) first counting.now.step (values_of store.old)) }
    ensures answers { iterations (iteration_count first last counting.now.step) (run (code_commands body.now)) (string_bytes counting.now.variable) first counting.now.step (values_of store.old) ≡ Done (values_of store.new) result }
    ensures unchanged { forms_of store.new ≡ forms_of store.old }
{
    let mut steps = 0;
    for iteration in 0..iterations_of(first, last, counting.step) {
        let number = taken(first, last, counting.step, iteration);
        store.set_number(counting.slot, number);
        steps += 1;
        steps += run_list(body, store);
    }
    steps
}
