//! Leaves.

ghost use Rattle.std.specs.Prelude.{◌≡◌, ◌++◌, OnOk};
ghost use Rattle.fb_flat.specs.Leaves.{kind_of};
ghost use Rattle.fb_find_demands.specs.Grounds.{algorithms_of};
ghost use Rattle.fb_work_charts.specs.Charges.{kind_works};
ghost use Rattle.fb_work_charts.specs.Reckoning.{all_capped, tariff_of};

use crate::chart::add_chart;
use crate::scene::Scene;
use crate::service::add_service;
use fb_flat::Body;
use std::alloc::AllocError;

/// Adds the work that each demand of a leaf asks for, in the order of the demands.
pub fn leaf_works(scene: &Scene, body: &Body, works: &mut Vec<u64>) -> Result<(), AllocError>
    ensures { OnOk result (works.new.items ≡ works.old.items ++ all_capped (kind_works (tariff_of (algorithms_of body.now) scene.now) (kind_of body.now))) }
{
    match body {
        Body::Basic(block) => add_chart(scene, block, works),
        Body::Served(service) => add_service(scene, service, works),
    }
}
