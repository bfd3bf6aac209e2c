//! How many instances there are, with those inside composites: this project's limit.

ghost use Rattle.std.specs.Prelude.{◌≡◌, ◌+◌, ◌<◌, ◌≤◌, suc, map, OnOk, IfErr};
ghost use Rattle.std.specs.Option.{MatchOption};
ghost use Rattle.fb_model.specs.Typing.{most_instances};
ghost use Rattle.fb_model.specs.NetworkTyping.{inner_count, instance_count};
ghost use Rattle.fb_types_networks.specs.Views.{body_of, placed_of, instances_of};
ghost use Rattle.fb_types.specs.Counts.{one_count, IsCrowded};

use fb_faults::TypeFault;
use fb_types_networks::{Body, Instance};

/// The most instances of a resource, those inside composites counted.
pub const INSTANCES: usize = 1024;

// What is left of a budget behind an instance and those inside it, where there is enough.
#[cycle(spending)]
fn spend(left: usize, instance: &Instance) -> Option<usize>
    ensures { MatchOption result (left < one_count instance.now) (λ rest. rest + one_count instance.now ≡ left) }
{
    if left == 0 {
        return None;
    }
    match &instance.body {
        Body::Basic(_) => Some(left - 1),
        Body::Served(_) => Some(left - 1),
        Body::Composite(_, network) => spend_all(left - 1, &network.instances),
    }
}

// What is left of a budget behind instances, where there is enough.
#[cycle(spending)]
fn spend_all(left: usize, instances: &[Instance]) -> Option<usize>
    ensures { MatchOption result (left < instance_count (instances_of instances.now)) (λ rest. rest + instance_count (instances_of instances.now) ≡ left) }
{
    let mut left = left;
    for instance in instances {
        match spend(left, instance) {
            Some(rest) => left = rest,
            None => return None,
        }
    }
    Some(left)
}

/// Refuses more than 1,024 instances, those inside composites counted, with `Limit` at the name of the instance that passes the limit.
/// It looks at no more than 1,025 of them, however deep composites share their parts.
pub fn few(instances: &[Instance]) -> Result<(), TypeFault>
    ensures few { OnOk result (instance_count (instances_of instances.now) ≤ most_instances) }
    ensures refused { IfErr result (IsCrowded most_instances instances.now) }
{
    let mut left = INSTANCES;
    for instance in instances {
        match spend(left, instance) {
            Some(rest) => left = rest,
            None => return Err(TypeFault::Limit(instance.at)),
        }
    }
    Ok(())
}
