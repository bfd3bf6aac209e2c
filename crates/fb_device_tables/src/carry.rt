//! The data that events of services are WITH.

ghost use Rattle.std.specs.Prelude.{◌≡◌, [], ◌∷◌, map, string_bytes, IfOk};
ghost use Rattle.fb_model.specs.Names.{Name};
ghost use Rattle.fb_model.specs.Services.{service_takes, service_gives};
ghost use Rattle.fb_types_services.specs.Views.{service_of};
ghost use Rattle.fb_device_tables.specs.Filling.{IsSmall};

use fb_types_services::Service;
use fb_types_services::points::{ARRIVE, DT, IND, QI, QO, REQ, START};
use std::alloc::{AllocError, Global};

// One name.
fn one(alloc: Global, name: &str) -> Result<Vec<String>, AllocError>
    ensures { IfOk result (λ v. map string_bytes v.items ≡ name.now ∷ []) }
{
    let mut names = Vec::new(alloc);
    names.push(String::from_str(alloc, name)?)?;
    Ok(names)
}

/// The data inputs that an event input or arrival of a service is WITH.
pub(crate) fn taken(
    alloc: Global,
    service: &Service,
    event: &str,
) -> Result<Vec<String>, AllocError>
    ensures { IsSmall (service_of service.now) → IfOk result (λ v. map string_bytes v.items ≡ service_takes (service_of service.now) event.now) }
{
    match service {
        Service::Input(_, _) | Service::Restart => Ok(Vec::new(alloc)),
        Service::Output(_, _) => service.inputs(alloc),
        Service::Publish(_, _) => {
            if event == REQ {
                service.inputs(alloc)
            } else {
                one(alloc, QI)
            }
        }
        Service::Subscribe(_, _) => {
            if event == ARRIVE {
                Ok(Vec::new(alloc))
            } else {
                one(alloc, QI)
            }
        }
        Service::Delay | Service::Cycle => {
            if event == START {
                one(alloc, DT)
            } else {
                Ok(Vec::new(alloc))
            }
        }
    }
}

/// The data outputs that an event output of a service is WITH.
pub(crate) fn given(
    alloc: Global,
    service: &Service,
    event: &str,
) -> Result<Vec<String>, AllocError>
    ensures { IsSmall (service_of service.now) → IfOk result (λ v. map string_bytes v.items ≡ service_gives (service_of service.now) event.now) }
{
    match service {
        Service::Input(_, _) => service.outputs(alloc),
        Service::Publish(_, _) => one(alloc, QO),
        Service::Subscribe(_, _) => {
            if event == IND {
                service.outputs(alloc)
            } else {
                one(alloc, QO)
            }
        }
        Service::Output(_, _) | Service::Delay | Service::Cycle | Service::Restart => {
            Ok(Vec::new(alloc))
        }
    }
}
