//! Outputs that are issued.

ghost use Rattle.std.specs.Prelude.{◌≡◌, ◌+◌, ◌*◌, length};
ghost use Rattle.fb_prices.specs.declared.primitive.Primitive.TheVariants as p;
ghost use Rattle.fb_model.specs.Store.{carried};
ghost use Rattle.fb_flat.specs.Tables.{targets_of};
ghost use Rattle.fb_types_blocks.specs.Views.{events_of};
ghost use Rattle.fb_find_laws.specs.Nodes.{capped};
ghost use Rattle.fb_prices.specs.Words.{prices_of};

use fb_flat::Output;
use fb_prices::{Prices, Primitive};
use fb_types_blocks::Events;
use fb_work_statements::{added, times};

/// How many variables an event is WITH.
pub(crate) fn carried_count(events: &Events, name: &str) -> usize
    ensures { result ≡ length (carried (events_of events.now) name.now) }
{
    match events.get(name) {
        Some(carries) => carries.len(),
        None => 0,
    }
}

/// How many event inputs the first output of a name leads to.
pub(crate) fn target_count(outputs: &[Output], name: &str) -> usize
    ensures { result ≡ length (targets_of outputs.now name.now) }
{
    for output in outputs {
        if name == output.name.as_str() {
            return output.targets.len();
        }
    }
    0
}

/// An output that is issued with so many variables, and leads to so many event inputs.
pub(crate) fn issue_work(prices: &Prices, gives: usize, targets: usize) -> u64
    ensures { result ≡ capped ((prices_of prices.now) p.Issue + ((prices_of prices.now) p.Give * gives + (prices_of prices.now) p.Put * targets)) }
{
    let given = times(gives as u128, prices.price(Primitive::Give));
    let put = times(targets as u128, prices.price(Primitive::Put));
    added(prices.price(Primitive::Issue), added(given, put))
}
