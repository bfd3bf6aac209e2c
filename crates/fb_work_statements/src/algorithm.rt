//! What algorithms cost at most.

ghost use Rattle.std.specs.Prelude.{◌≡◌, ◌+◌, ◌*◌, IfOk, length};
ghost use Rattle.st_types.specs.CommandViews.{case_of, cases_of, choice_of, choices_of, command_of, commands_of, counting_of};
ghost use Rattle.fb_ranges.specs.Views.{spans_of};
ghost use Rattle.fb_prices.specs.Words.{prices_of};
ghost use Rattle.fb_prices.specs.declared.primitive.Primitive.TheVariants as p;
ghost use Rattle.fb_model_work.specs.Spending.{in_term};
ghost use Rattle.fb_model_work.specs.Most.{most, most_all, most_cases, most_choices, most_one};
ghost use Rattle.fb_find_laws.specs.Nodes.{capped};
ghost use Rattle.fb_work_statements.specs.Sums.{most_repeated};
ghost use Rattle.fb_work_statements.specs.Telling.{has_steps};

use crate::expression::expression_work;
use crate::sums::{added, times};
use fb_prices::{Prices, Primitive};
use fb_ranges::{Ranges, Told, copied, examine_one, names_assigned, narrow, range, reset};
use fb_ranges_intervals::{most_iterations, taken};
use st_types::{Algo, Counting, TypedArm, TypedBranch, TypedStmt};
use std::alloc::{AllocError, Global};

// What statements are priced by: the prices, and the rows of the variables.
#[derive(Clone, Copy)]
struct Tariff<'a> {
    alloc: Global,
    prices: &'a Prices,
    rows: &'a Ranges,
}

// Statements one after another, as long as each is clear.
#[cycle(pricing)]
fn list_work(tariff: &Tariff, list: &[TypedStmt], ranges: &Ranges) -> Result<u64, AllocError>
    ensures { IfOk result (λ n. n ≡ capped (most_all (prices_of tariff.now.prices.now) (spans_of tariff.now.rows.now) (commands_of list.now) (spans_of ranges.now))) }
{
    let mut here = copied(ranges)?;
    let mut asked = copied(tariff.rows)?;
    let mut sum = 0;
    for statement in list {
        let work = statement_work(tariff, statement, &here)?;
        sum = added(sum, work);
        let told = examine_one(tariff.alloc, tariff.rows, statement, &mut here, &mut asked)?;
        if !is_clear(told) {
            return Ok(sum);
        }
    }
    Ok(sum)
}

// Whether an examination found no fault.
fn is_clear(told: Told) -> bool
    ensures { result ≡ has_steps told }
{
    match told {
        Told::Steps(_) => true,
        Told::Leaves | Told::Traps => false,
    }
}

// One statement.
#[cycle(pricing)]
fn statement_work(
    tariff: &Tariff,
    statement: &TypedStmt,
    ranges: &Ranges,
) -> Result<u64, AllocError>
    ensures { IfOk result (λ n. n ≡ capped (most_one (prices_of tariff.now.prices.now) (spans_of tariff.now.rows.now) (command_of statement.now) (spans_of ranges.now))) }
{
    let prices = tariff.prices;
    match statement {
        TypedStmt::Set(_, value) => Ok(added(
            prices.price(Primitive::Assign),
            expression_work(prices, value),
        )),
        TypedStmt::SetElement(_, _, _, index, value) => {
            let both = added(
                expression_work(prices, index),
                expression_work(prices, value),
            );
            Ok(added(prices.price(Primitive::AssignElement), both))
        }
        TypedStmt::If(branches, other) => {
            let work = branches_work(tariff, branches, other, ranges)?;
            Ok(added(prices.price(Primitive::If), work))
        }
        TypedStmt::Case(selector, arms, other) => {
            let work = arms_work(tariff, arms, other, ranges)?;
            let selected = added(expression_work(prices, selector), work);
            Ok(added(prices.price(Primitive::Case), selected))
        }
        TypedStmt::For(counting, body) => {
            let work = iterations_work(tariff, counting, body, ranges)?;
            let bounds = added(
                expression_work(prices, &counting.first),
                expression_work(prices, &counting.last),
            );
            Ok(added(prices.price(Primitive::For), added(bounds, work)))
        }
    }
}

// The conditions of an IF, each where the earlier ones are false: the dearest way through them.
#[cycle(pricing)]
fn branches_work(
    tariff: &Tariff,
    branches: &[TypedBranch],
    other: &[TypedStmt],
    ranges: &Ranges,
) -> Result<u64, AllocError>
    ensures { IfOk result (λ n. n ≡ capped (most_choices (prices_of tariff.now.prices.now) (spans_of tariff.now.rows.now) (choices_of branches.now) (most_all (prices_of tariff.now.prices.now) (spans_of tariff.now.rows.now) (commands_of other.now)) (spans_of ranges.now))) }
{
    let mut others = copied(ranges)?;
    let mut tried = 0;
    let mut best = 0;
    for branch in branches {
        let mut inside = copied(&others)?;
        narrow(&branch.condition, true, &mut inside)?;
        let body = list_work(tariff, &branch.body, &inside)?;
        tried = added(tried, condition_work(tariff.prices, branch));
        best = best.max(added(tried, body));
        narrow(&branch.condition, false, &mut others)?;
    }
    let last = list_work(tariff, other, &others)?;
    Ok(best.max(added(tried, last)))
}

// The condition of a branch.
fn condition_work(prices: &Prices, branch: &TypedBranch) -> u64
    ensures { result ≡ capped (prices_of prices.now p.Branch + in_term (prices_of prices.now) (choice_of branch.now).0) }
{
    added(
        prices.price(Primitive::Branch),
        expression_work(prices, &branch.condition),
    )
}

// The arms of a CASE: the dearest way through them.
#[cycle(pricing)]
fn arms_work(
    tariff: &Tariff,
    arms: &[TypedArm],
    other: &[TypedStmt],
    ranges: &Ranges,
) -> Result<u64, AllocError>
    ensures { IfOk result (λ n. n ≡ capped (most_cases (prices_of tariff.now.prices.now) (spans_of tariff.now.rows.now) (cases_of arms.now) (most_all (prices_of tariff.now.prices.now) (spans_of tariff.now.rows.now) (commands_of other.now) (spans_of ranges.now)) (spans_of ranges.now))) }
{
    let mut tried = 0;
    let mut best = 0;
    for arm in arms {
        let body = list_work(tariff, &arm.body, ranges)?;
        tried = added(tried, labels_work(tariff.prices, arm));
        best = best.max(added(tried, body));
    }
    let last = list_work(tariff, other, ranges)?;
    Ok(best.max(added(tried, last)))
}

// The labels of an arm.
fn labels_work(prices: &Prices, arm: &TypedArm) -> u64
    ensures { result ≡ capped (prices_of prices.now p.Arm + prices_of prices.now p.Label * length (case_of arm.now).0) }
{
    let labels = times(arm.labels.len() as u128, prices.price(Primitive::Label));
    added(prices.price(Primitive::Arm), labels)
}

// The iterations of a FOR.
#[cycle(pricing)]
fn iterations_work(
    tariff: &Tariff,
    counting: &Counting,
    body: &[TypedStmt],
    ranges: &Ranges,
) -> Result<u64, AllocError>
    ensures { IfOk result (λ n. n ≡ capped (most_repeated (prices_of tariff.now.prices.now) (spans_of tariff.now.rows.now) (counting_of counting.now) (commands_of body.now) (spans_of ranges.now))) }
{
    let first = range(&counting.first, ranges);
    let last = range(&counting.last, ranges);
    if !first.is_clear {
        return Ok(0);
    }
    if !last.is_clear {
        return Ok(0);
    }
    let iterations = most_iterations(first.range, last.range, counting.step);
    if iterations == 0 {
        return Ok(0);
    }
    let values = taken(first.range, last.range, counting.step, iterations);
    let names = names_assigned(tariff.alloc, body)?;
    let mut inside = copied(ranges)?;
    reset(&names, tariff.rows, &mut inside)?;
    inside.insert_at(&counting.variable, values)?;
    let work = list_work(tariff, body, &inside)?;
    let each = added(tariff.prices.price(Primitive::Iteration), work);
    Ok(times(iterations, each))
}

/// What an algorithm costs at most, from values in the rows of its variables: as far as each of its statements is clear.
pub fn algorithm_work(
    alloc: Global,
    prices: &Prices,
    algo: &Algo,
    rows: &Ranges,
) -> Result<u64, AllocError>
    ensures { IfOk result (λ n. n ≡ capped (most (prices_of prices.now) (spans_of rows.now) (commands_of algo.now.statements.items))) }
{
    let tariff = Tariff {
        alloc,
        prices,
        rows,
    };
    list_work(&tariff, algo.statements.as_slice(), rows)
}
