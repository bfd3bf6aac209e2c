//! Transitions that are tried.

ghost use Rattle.std.specs.Prelude.{◌≡◌, map};
ghost use Rattle.std.specs.Option.{option_map};
ghost use Rattle.fb_model.specs.Charts.{is_open};
ghost use Rattle.fb_types_blocks.specs.Views.{transition_of};
ghost use Rattle.fb_find_laws.specs.Nodes.{capped};
ghost use Rattle.fb_prices.specs.Words.{prices_of};
ghost use Rattle.fb_model_work.specs.Spending.{in_guard, in_trial};
ghost use Rattle.fb_model_work.specs.Work.{trials};

use fb_prices::{Prices, Primitive};
use fb_types_blocks::Transition;
use fb_work_statements::{added, expression_work};

/// Whether the event of a transition lets it be crossed, while an event waits or after it is gone.
pub(crate) fn is_open(transition: &Transition, waiting: Option<&str>) -> bool
    ensures { result ≡ is_open (transition_of transition.now).event (option_map (λ e. e.now) waiting.entry) }
{
    match &transition.event {
        Some(name) => match waiting {
            Some(event) => name.as_str() == event,
            None => false,
        },
        None => true,
    }
}

// A guard that is tried, if there is one.
fn guard_work(prices: &Prices, transition: &Transition) -> u64
    ensures { result ≡ capped (in_guard (prices_of prices.now) (transition_of transition.now).guard) }
{
    match &transition.guard {
        Some(guard) => added(
            prices.price(Primitive::Guard),
            expression_work(prices, guard),
        ),
        None => added(prices.price(Primitive::Open), 0),
    }
}

// A transition that is tried, or passed by.
fn trial_work(prices: &Prices, transition: &Transition, waiting: Option<&str>) -> u64
    ensures { result ≡ capped (in_trial (prices_of prices.now) (option_map (λ e. e.now) waiting.entry) (transition_of transition.now)) }
{
    if is_open(transition, waiting) {
        guard_work(prices, transition)
    } else {
        added(prices.price(Primitive::Skip), 0)
    }
}

/// Those of these transitions that leave a state are tried.
pub(crate) fn trials_work(
    prices: &Prices,
    transitions: &[Transition],
    source: &str,
    waiting: Option<&str>,
) -> u64
    ensures { result ≡ capped (trials (prices_of prices.now) (map transition_of transitions.now) source.now (option_map (λ e. e.now) waiting.entry)) }
{
    let mut sum = 0;
    for transition in transitions {
        if transition.source.as_str() == source {
            sum = added(sum, trial_work(prices, transition, waiting));
        }
    }
    sum
}
