//! What is told of an examination: its steps, or its first fault.

ghost use Rattle.std.specs.Prelude.{◌≡◌, ◌<◌};
ghost use Rattle.fb_model.specs.Clear.{Found};
ghost use Rattle.fb_ranges.specs.Answers.{IsExamined, most_steps};
ghost use Rattle.fb_ranges.specs.Finding.{in_sequence, keeping, longer, tell, trapping, iterated};

use crate::fault::RangeFault;
use crate::steps::{added, longest, of_iterations, told};

/// What is told of an examination: its most steps, up to the first number that stands for all greater ones; or its first fault in the text.
#[derive(Clone, Copy)]
pub enum Told {
    Steps(u64),
    Leaves,
    Traps,
}

/// Of one thing after another.
pub(crate) fn in_sequence(first: Told, next: Told) -> Told
    ensures { result ≡ in_sequence first next }
{
    match first {
        Told::Steps(a) => match next {
            Told::Steps(b) => Told::Steps(added(a, b)),
            Told::Leaves => Told::Leaves,
            Told::Traps => Told::Traps,
        },
        Told::Leaves => Told::Leaves,
        Told::Traps => Told::Traps,
    }
}

/// Of one way or another.
pub(crate) fn longer(way: Told, other: Told) -> Told
    ensures { result ≡ longer way other }
{
    match way {
        Told::Steps(a) => match other {
            Told::Steps(b) => Told::Steps(longest(a, b)),
            Told::Leaves => Told::Leaves,
            Told::Traps => Told::Traps,
        },
        Told::Leaves => Told::Leaves,
        Told::Traps => Told::Traps,
    }
}

/// Behind an expression, which is clear or not.
pub(crate) fn trapping(is_clear: bool, told: Told) -> Told
    ensures { result ≡ trapping is_clear told }
{
    if is_clear { told } else { Told::Traps }
}

/// Before a test whether variables keep their rows.
pub(crate) fn keeping(are_kept: bool, told: Told) -> Told
    ensures { result ≡ keeping are_kept told }
{
    match told {
        Told::Steps(steps) => {
            if are_kept {
                return Told::Steps(steps);
            }
            Told::Leaves
        }
        Told::Leaves => Told::Leaves,
        Told::Traps => Told::Traps,
    }
}

/// Of the iterations of a FOR, by whether variables keep their rows before them, and by what is told of one iteration.
pub(crate) fn iterated(iterations: u128, are_kept: bool, told: Told) -> Told
    requires { 0 < iterations }
    ensures { result ≡ iterated iterations are_kept told }
{
    if !are_kept {
        return Told::Leaves;
    }
    match told {
        Told::Steps(steps) => Told::Steps(of_iterations(iterations, steps)),
        Told::Leaves => Told::Leaves,
        Told::Traps => Told::Traps,
    }
}

/// Whether what is examined is clear.
pub(crate) fn answer(all: Told) -> Result<(), RangeFault>
    ensures { (found : Found) → all ≡ tell found → IsExamined result found }
{
    match all {
        Told::Steps(_) => Ok(()),
        Told::Leaves => Err(RangeFault::Leaves),
        Told::Traps => Err(RangeFault::Traps),
    }
}

/// The most steps of what is examined, where it is clear and they are no more than 1,000,000,000,000.
pub(crate) fn most(all: Told) -> Option<u64>
    ensures { (found : Found) → all ≡ tell found → result ≡ most_steps found }
{
    match all {
        Told::Steps(steps) => told(steps),
        Told::Leaves | Told::Traps => None,
    }
}
