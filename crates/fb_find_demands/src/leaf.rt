//! The demands of a leaf.

ghost use Rattle.std.specs.Prelude.{◌≡◌, ◌++◌, OnOk};
ghost use Rattle.fb_model.specs.Demands.{of_kind};
ghost use Rattle.fb_flat.specs.Leaves.{kind_of};
ghost use Rattle.fb_find_demands.specs.Grounds.{algorithms_of, leaf_ground, names_among};
ghost use Rattle.fb_find_demands.specs.Rights.{numbered, rights_of};

use crate::chart::add_chart;
use crate::numbered::Numbering;
use crate::right::Right;
use crate::scene::Scene;
use crate::service::add_service;
use fb_flat::{Body, Leaf};
use indexmap::IndexMap;
use st_types::Algo;
use std::alloc::{AllocError, Global};

// The algorithms of a body, where it is a block.
fn procedures(body: &Body) -> Option<&IndexMap<String, Algo>>
    ensures { names_among result ≡ algorithms_of body.now }
{
    match body {
        Body::Basic(block) => Some(&block.procedures),
        Body::Served(_) => None,
    }
}

/// What is charged at a leaf: what a dispatch or a crossing counts, whether datagrams are followed, and what its algorithms cost, in their order; an algorithm
/// without a price costs nothing.
#[derive(Clone, Copy)]
pub struct Tariff<'a> {
    pub unit: u64,
    pub follows: bool,
    pub prices: &'a [u64],
}

/// Adds the demands of a leaf under a tariff.
pub fn add_leaf(
    alloc: Global,
    numbering: &Numbering,
    tariff: &Tariff,
    leaf: &Leaf,
    rights: &mut Vec<Right>,
) -> Result<(), AllocError>
    ensures { OnOk result (rights_of rights.new.items ≡ rights_of rights.old.items ++ numbered numbering.now (of_kind (leaf_ground tariff.now.unit tariff.now.follows tariff.now.prices.now leaf.now) (kind_of leaf.now.body))) }
{
    let scene = Scene {
        alloc,
        numbering,
        unit: tariff.unit,
        follows: tariff.follows,
        procedures: procedures(&leaf.body),
        prices: tariff.prices,
        path: leaf.path.as_str(),
        outputs: leaf.outputs.as_slice(),
    };
    match &leaf.body {
        Body::Basic(block) => add_chart(&scene, block, rights),
        Body::Served(service) => add_service(&scene, service, rights),
    }
}
