//! The services of instances, those inside composites too.

ghost use Rattle.std.specs.Prelude.{◌≡◌, ◌++◌, ◌∷◌, [], map, OnOk, IfErr};
ghost use Rattle.fb_model.specs.NetworkTyping.{services_of, services_in};
ghost use Rattle.fb_types_networks.specs.Views.{placed_of, instances_of};
ghost use Rattle.fb_faults.specs.declared.typing.TypeFault.TheVariants.{OutOfMemory};
ghost use Rattle.fb_types_services.specs.Views.{service_of};
ghost use Rattle.fb_types.specs.Uses.{use_of, service_in, uses_of, uses_in};

use fb_faults::TypeFault;
use fb_types_networks::{Body, Instance};
use fb_types_services::Service;
use std::alloc::Global;

/// A service of an instance, with the offset of the instance's name.
#[derive(Clone, Copy)]
pub struct Use<'a> {
    pub at: usize,
    pub service: &'a Service,
}

// Adds a service at the end.
fn add<'a>(uses: &mut Vec<Use<'a>>, at: usize, service: &'a Service) -> Result<(), TypeFault>
    ensures added { OnOk result (map use_of uses.new.items ≡ map use_of uses.old.items ++ (at, service_of service.now) ∷ []) }
    ensures services { OnOk result (map service_in uses.new.items ≡ map service_in uses.old.items ++ service_of service.now ∷ []) }
    ensures refused { IfErr result (λ f. f ≡ OutOfMemory) }
{
    uses.push(Use { at, service })?;
    Ok(())
}

// Adds the services of an instance.
#[cycle(gathering)]
fn gather<'a>(uses: &mut Vec<Use<'a>>, instance: &'a Instance) -> Result<(), TypeFault>
    ensures added { OnOk result (map use_of uses.new.items ≡ map use_of uses.old.items ++ uses_of instance.now) }
    ensures services { OnOk result (map service_in uses.new.items ≡ map service_in uses.old.items ++ services_of ((placed_of instance.now).2)) }
    ensures refused { IfErr result (λ f. f ≡ OutOfMemory) }
{
    match &instance.body {
        Body::Basic(_) => Ok(()),
        Body::Served(service) => add(uses, instance.at, service),
        Body::Composite(_, network) => gather_all(uses, &network.instances),
    }
}

/// Adds the services of instances at the end, depth first in text order.
#[cycle(gathering)]
pub fn gather_all<'a>(uses: &mut Vec<Use<'a>>, instances: &'a [Instance]) -> Result<(), TypeFault>
    ensures added { OnOk result (map use_of uses.new.items ≡ map use_of uses.old.items ++ uses_in instances.now) }
    ensures services { OnOk result (map service_in uses.new.items ≡ map service_in uses.old.items ++ services_in (instances_of instances.now)) }
    ensures refused { IfErr result (λ f. f ≡ OutOfMemory) }
{
    for instance in instances {
        gather(uses, instance)?;
    }
    Ok(())
}
