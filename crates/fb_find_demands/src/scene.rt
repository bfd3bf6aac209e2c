//! What is reckoned with at a leaf.

ghost use Rattle.std.specs.Prelude.{◌≡◌, ◌++◌, ◌∷◌, [], ◌+◌, map, IfOk, OnOk};
ghost use Rattle.fb_model.specs.Certificates.{reached};
ghost use Rattle.fb_model.specs.Demands.{event, emitted, work};
ghost use Rattle.fb_types_blocks.specs.Views.{action_of};
ghost use Rattle.fb_flat.specs.Tables.{targets_of, target_place};
ghost use Rattle.fb_find_laws.specs.Nodes.{capped};
ghost use Rattle.fb_find_demands.specs.Grounds.{ground_in, table_names, value_at};
ghost use Rattle.fb_find_demands.specs.Rights.{numbers_of};

use crate::numbered::Numbering;
use fb_flat::{Output, Target};
use fb_types_blocks::Action;
use indexmap::IndexMap;
use st_types::Algo;
use std::alloc::{AllocError, Global};

/// The first number that stands for all greater ones.
pub(crate) const MANY: u64 = 1_000_000_000_001;

/// What is reckoned with at a leaf: what a dispatch or a crossing counts, whether datagrams are followed, the prices of its algorithms in their order,
/// its path, and where its outputs lead.
#[derive(Clone, Copy)]
pub(crate) struct Scene<'a> {
    pub(crate) alloc: Global,
    pub(crate) numbering: &'a Numbering,
    pub(crate) unit: u64,
    pub(crate) follows: bool,
    pub(crate) procedures: Option<&'a IndexMap<String, Algo>>,
    pub(crate) prices: &'a [u64],
    pub(crate) path: &'a str,
    pub(crate) outputs: &'a [Output],
}

// The number at the place of a name, 0 where the name has none.
fn price(procedures: &IndexMap<String, Algo>, prices: &[u64], name: &str) -> u64
    ensures { result ≡ value_at (table_names procedures.now) prices.now name.now }
{
    match procedures.get_index_of(name) {
        Some(index) => match prices.get(index) {
            Some(price) => *price,
            None => 0,
        },
        None => 0,
    }
}

// Adds the numbers of event inputs.
fn add_targets(
    alloc: Global,
    numbering: &Numbering,
    targets: &[Target],
    terms: &mut Vec<usize>,
) -> Result<(), AllocError>
    ensures { OnOk result (terms.new.items ≡ terms.old.items ++ map (λ p. numbers_of numbering.now (event p)) (map target_place targets.now)) }
{
    for target in targets {
        let number = numbering.event(alloc, target.path.as_str(), target.event.as_str())?;
        terms.push(number)?;
    }
    Ok(())
}

// Adds the numbers of all that the first output of a name leads to.
fn add_output(
    alloc: Global,
    numbering: &Numbering,
    outputs: &[Output],
    name: &str,
    terms: &mut Vec<usize>,
) -> Result<(), AllocError>
    ensures { OnOk result (terms.new.items ≡ terms.old.items ++ map (λ p. numbers_of numbering.now (event p)) (targets_of outputs.now name.now)) }
{
    for output in outputs {
        if name == output.name.as_str() {
            return add_targets(alloc, numbering, output.targets.as_slice(), terms);
        }
    }
    Ok(())
}

/// Adds the numbers of all that outputs of these names lead to.
pub(crate) fn add_reached(
    alloc: Global,
    numbering: &Numbering,
    outputs: &[Output],
    names: &[&str],
    terms: &mut Vec<usize>,
) -> Result<(), AllocError>
    ensures { OnOk result (terms.new.items ≡ terms.old.items ++ map (λ p. numbers_of numbering.now (event p)) (reached (targets_of outputs.now) (map (λ n. n.now) names.now))) }
{
    for name in names {
        add_output(alloc, numbering, outputs, *name, terms)?;
    }
    Ok(())
}

// Adds the numbers of all that an action's output leads to, if it emits one.
fn add_emission(scene: &Scene, action: &Action, terms: &mut Vec<usize>) -> Result<(), AllocError>
    ensures { OnOk result (terms.new.items ≡ terms.old.items ++ map (numbers_of scene.now.numbering.now) (emitted (ground_in scene.now) (action_of action.now ∷ []))) }
{
    match &action.output {
        Some(output) => add_output(
            scene.alloc,
            scene.numbering,
            scene.outputs,
            output.as_str(),
            terms,
        ),
        None => Ok(()),
    }
}

/// The numbers of all that actions emit.
pub(crate) fn emitted(scene: &Scene, actions: &[Action]) -> Result<Vec<usize>, AllocError>
    ensures { IfOk result (λ v. v.items ≡ map (numbers_of scene.now.numbering.now) (emitted (ground_in scene.now) (map action_of actions.now))) }
{
    let mut terms = Vec::new(scene.alloc);
    for action in actions {
        add_emission(scene, action, &mut terms)?;
    }
    Ok(terms)
}

// The price of an action's algorithm, if it runs one.
fn worked(scene: &Scene, action: &Action) -> u64
    ensures { result ≡ (ground_in scene.now).price (action_of action.now).algorithm }
{
    match &action.algorithm {
        Some(algorithm) => match scene.procedures {
            Some(procedures) => price(procedures, scene.prices, algorithm.as_str()),
            None => 0,
        },
        None => 0,
    }
}

/// A sum, as far as numbers are told apart.
pub(crate) fn added(a: u64, b: u64) -> u64
    ensures { result ≡ capped (a + b) }
{
    a.saturating_add(b).min(MANY)
}

/// What actions run, as far as numbers are told apart.
pub(crate) fn work(scene: &Scene, actions: &[Action]) -> u64
    ensures { result ≡ capped (work (ground_in scene.now) (map action_of actions.now)) }
{
    let mut sum = 0;
    for action in actions {
        sum = added(sum, worked(scene, action));
    }
    sum
}
