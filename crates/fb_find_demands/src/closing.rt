//! Whether places are a closed walk of demands.

ghost use Rattle.std.specs.Prelude.{ℕ, ◌≡◌, ◌≤◌, ◌↔◌, map, None, Some, IfErr, IfOk, IsTrue};
ghost use Rattle.std.specs.List.{Any};
ghost use Rattle.fb_model.specs.System.{System};
ghost use Rattle.fb_model.specs.Certificates.{Certificate, Fits};
ghost use Rattle.fb_model.specs.Demands.{IsClosedWalk};
ghost use Rattle.fb_faults.specs.declared.typing.TypeFault.TheVariants.{OutOfMemory};
ghost use Rattle.fb_types.specs.Views.{system_of};
ghost use Rattle.fb_flat.specs.Leaves.{IsFull, IsLimitAt};
ghost use Rattle.fb_find_demands.specs.Rights.{numbered, rights_of};
ghost use Rattle.fb_find_demands.specs.Shown.{asked, shown_node, AreTables, IsNumbered};

use crate::walk_numbers::numbers_of;
use crate::{Numbering, Right, group, network_rights, numbering, plain_rights};
use fb_faults::{Place, TypeFault};
use fb_find_graph::is_closed_walk;
use fb_flat::{Flat, flatten};
use fb_types::Typed;
use std::alloc::{AllocError, Global};

// What the system asks whatever algorithms cost, where its nodes have these numbers.
fn asked_rights(
    alloc: Global,
    numbering: &Numbering,
    repeats: Option<u8>,
    flat: &Flat,
) -> Result<Vec<Right>, AllocError>
    ensures { (s : System) → IsNumbered repeats flat.now.devices.items numbering.now s → IfOk result (λ v. rights_of v.items ≡ numbered numbering.now (asked repeats s)) }
{
    match repeats {
        None => plain_rights(alloc, numbering, 1, flat),
        Some(_) => network_rights(alloc, numbering, flat),
    }
}

// Whether these places are a closed walk of demands, where nodes have these numbers.
fn walks(
    alloc: Global,
    numbering: &Numbering,
    repeats: Option<u8>,
    flat: &Flat,
    places: &[Place],
) -> Result<bool, AllocError>
    requires { (s : System) × IsNumbered repeats flat.now.devices.items numbering.now s }
    ensures { (s : System) → IsNumbered repeats flat.now.devices.items numbering.now s → IfOk result (λ b. IsTrue b ↔ IsClosedWalk (asked repeats s) (map shown_node places.now)) }
{
    let rights = asked_rights(alloc, numbering, repeats, flat)?;
    let count = numbering.count()?;
    let system = group(alloc, count, rights)?;
    let numbers = numbers_of(alloc, numbering, places)?;
    is_closed_walk(alloc, system.as_slice(), numbers.as_slice())
}

// The same of the tables of a system.
fn stands(
    alloc: Global,
    repeats: Option<u8>,
    flat: &Flat,
    places: &[Place],
) -> Result<bool, TypeFault>
    requires { (s : System) × AreTables flat.now.devices.items s }
    ensures walk { (s : System) → AreTables flat.now.devices.items s → IfOk result (λ b. IsTrue b ↔ IsClosedWalk (asked repeats s) (map shown_node places.now)) }
    ensures memory { IfErr result (λ f. f ≡ OutOfMemory) }
{
    match numbering(alloc, repeats, flat) {
        Ok(numbering) => Ok(walks(alloc, &numbering, repeats, flat, places)?),
        Err(_) => Err(TypeFault::OutOfMemory),
    }
}

/// Whether these places are a closed walk of demands of the system, wherever it begins: no place twice, except that the first is again the last; each
/// asks for the next; and one asks with a constant of 1 or more. With `repeats` the demands through channels count, whatever number it is; then no certificate with a
/// row REPEATS fits, and without it none at all. Letter case has no meaning in the paths.
///
/// Refused with `Limit` where too many connections are followed, and with nothing else but want of memory. The time is linear in the system, and with `repeats` in its
/// channels times its leaves.
pub fn check_walk(
    alloc: Global,
    typed: &Typed,
    repeats: Option<u8>,
    places: &[Place],
) -> Result<bool, TypeFault>
    ensures walk { IfOk result (λ b. IsTrue b ↔ IsClosedWalk (asked repeats (system_of typed.now)) (map shown_node places.now)) }
    ensures denies { repeats ≡ None → IfOk result (λ b. IsTrue b → (cert : Certificate) → Fits (system_of typed.now) cert → ⊥) }
    ensures denies_repeats { IfOk result (λ b. IsTrue b → (cert : Certificate) (r : ℕ) → cert.repeats ≡ Some r → 1 ≤ r → Fits (system_of typed.now) cert → ⊥) }
    ensures refused { IfErr result (IsLimitAt (λ at. Any (λ d. Any (λ r. IsFull r at) d.resources.items) typed.now.devices.items)) }
{
    typed.stands_in_text();
    let flat = flatten(alloc, typed)?;
    let answer = stands(alloc, repeats, &flat, places);
    flat.let_go();
    answer
}
