//! Where emissions go.

ghost use Rattle.std.specs.Prelude.{◌≡◌, ◌<◌, ◌≤◌, ◌+◌, ◌++◌, ◌∷◌, [], length, ℕ, IfSome};
ghost use Rattle.std.specs.List.{AllByRecursion};
ghost use Rattle.st_exec.specs.Cells.{values_of, forms_of};
ghost use Rattle.fb_chart.specs.Sending.{Points};
ghost use Rattle.fb_chart.specs.Sampling.{CanGiveAll};
ghost use Rattle.fb_chart.specs.Charting.{sent_by, issued_by};

use crate::sampling::issue;
use crate::table::{Output, Point};
use st_exec::Store;

/// What takes emissions, one after another: IEC 61499-1 edition 2, 5.2.2.
pub trait Emit {
    /// For how many emissions there is room yet.
    ghost room: { Self → ℕ };

    /// What was emitted so far, in order.
    ghost sent: { Self → Points };

    /// The ghost name of the reference that it writes through, if it holds one.
    ghost reference: { Self → ℕ };

    /// Takes an event input that an emission reaches.
    fn put(&mut self, point: Point)
        requires { 0 < room self.old }
        ensures sent { sent self.new ≡ sent self.old ++ point ∷ [] }
        ensures room { room self.old ≡ room self.new + 1 }
        ensures same_reference { reference self.new ≡ reference self.old };
}

// Emits to each target, in order.
fn put_all<E: Emit>(targets: &[Point], emit: &mut E)
    requires { length targets.now ≤ E.room emit.old }
    ensures sent { E.sent emit.new ≡ E.sent emit.old ++ targets.now }
    ensures room { E.room emit.old ≡ E.room emit.new + length targets.now }
    ensures same_reference { E.reference emit.new ≡ E.reference emit.old }
{
    for target in targets {
        emit.put(*target);
    }
}

/// Emits the event output of a number, if there is one: the data outputs that it is WITH are issued, and each target is emitted to, in order.
pub fn send<E: Emit>(
    outputs: &[Output],
    output: Option<u16>,
    own: &Store,
    issued: &mut Store,
    emit: &mut E,
)
    requires output { IfSome output (λ k. k < length outputs.now) }
    requires gives { AllByRecursion (CanGiveAll (forms_of own.now) (forms_of issued.old)) outputs.now }
    requires room { length (sent_by outputs.now output) ≤ E.room emit.old }
    ensures issued { values_of issued.new ≡ issued_by outputs.now output (values_of own.now) (values_of issued.old) }
    ensures forms { forms_of issued.new ≡ forms_of issued.old }
    ensures sent { E.sent emit.new ≡ E.sent emit.old ++ sent_by outputs.now output }
    ensures room { E.room emit.old ≡ E.room emit.new + length (sent_by outputs.now output) }
    ensures same_reference { E.reference emit.new ≡ E.reference emit.old }
{
    match output {
        None => {}
        Some(number) => {
            let output = &outputs[number as usize];
            issue(&output.gives, own, issued);
            put_all(&output.targets, emit);
        }
    }
}
