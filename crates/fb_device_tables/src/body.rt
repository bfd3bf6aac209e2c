//! What blocks are made of.

ghost use Rattle.std.specs.Prelude.{◌≡◌, IfOk, OnOk};
ghost use Rattle.std.specs.List.{AllByRecursion};
ghost use Rattle.fb_device_tables.specs.Filling.{IsShared, IsBodyMade};

use crate::chart::{Shared, chart};
use fb_chart::Body;
use fb_flat::service_again;
use st_exec::Layout;
use std::alloc::{AllocError, Global};

/// What a block is made of, whose working values lie so.
pub(crate) fn body<'a>(
    alloc: Global,
    known: &mut Vec<Shared<'a>>,
    own: &'a Layout,
    source: &'a fb_flat::Body,
) -> Result<Body, AllocError>
    requires { AllByRecursion IsShared known.old.items }
    ensures body { IfOk result (λ x. IsBodyMade own.now source.now x) }
    ensures known { OnOk result (AllByRecursion IsShared known.new.items) }
{
    match source {
        fb_flat::Body::Basic(block) => Ok(Body::Chart(chart(alloc, known, own, block)?)),
        fb_flat::Body::Served(service) => Ok(Body::Served(service_again(alloc, service)?)),
    }
}
