//! An offer.

ghost use Rattle.std.specs.Prelude.{◌≡◌, ◌≤◌, true, length, IfOk, IfErr};
ghost use Rattle.fb_model.specs.Values.{all_in};
ghost use Rattle.fb_model.specs.Ranges.{types_of};
ghost use Rattle.fb_model.specs.Devices.{Offer};
ghost use Rattle.fb_chart.specs.Views.{body_kind};
ghost use Rattle.fb_device_state.specs.Machines.{Steps};
ghost use Rattle.fb_device_state.specs.Keeping.{IsGood};
ghost use Rattle.fb_device_arrivals.specs.Answers.{admission_of};
ghost use Rattle.fb_device_arrivals.specs.Offering.{IsOutside};

use crate::denied::Denied;
use fb_chart::{Body, Point, Values};
use fb_device_state::{Program, Running, Shortage, admit};
use fb_types_services::Service;
use fb_words::ElemType;

// The types of the values that come to a block from outside.
pub(crate) fn arriving(body: &Body) -> &[ElemType]
    ensures { result.now ≡ types_of (body_kind body.now) }
{
    match body {
        Body::Served(Service::Input(_, types)) => types.as_slice(),
        Body::Served(Service::Subscribe(_, types)) => types.as_slice(),
        _ => &[],
    }
}

// The values of an offer as those of an entry, of which each has its type.
fn taken(types: &[ElemType], values: &[i64]) -> Result<Values, Denied>
    requires { length types.now ≤ 16 }
    ensures fit { IfOk result (λ taken. (taken.items ≡ values.now) × (all_in types.now values.now ≡ true)) }
    ensures refused { IfErr result (IsOutside types.now values.now) }
{
    if values.len() != types.len() {
        return Err(Denied::BadCount);
    }
    let mut taken = Values::new();
    for at in 0..values.len() {
        if !types[at].fits(i128::from(values[at])) {
            return Err(Denied::BadValue(at as u16 + 1));
        }
        taken.push(values[at]);
    }
    Ok(taken)
}

/// Offers an arrival at the INPUT of a number. Refused where a line of [`Denied`] holds; nothing changes then.
pub fn offer(
    program: &Program,
    running: &mut Running,
    number: u16,
    values: &[i64],
) -> Result<u64, Denied>
    requires { IsGood program.now running.old }
    ensures step { Steps program.now running.old (Offer number values.now) (admission_of result) running.new }
    ensures good { IsGood program.now running.new }
{
    let Some(block) = program.tables.input(number) else {
        return Err(Denied::UnknownInput);
    };
    let at = block as usize;
    let values = match taken(arriving(&program.tables.blocks[at].body), values) {
        Ok(values) => values,
        Err(denied) => return Err(denied),
    };
    let point = Point { block, event: 0 };
    match admit(program, running, point, values) {
        Ok(cause) => Ok(cause),
        Err(Shortage::Places { needs, free }) => Err(Denied::NoCredit { needs, free }),
        Err(Shortage::Numbers) => Err(Denied::Spent),
    }
}
