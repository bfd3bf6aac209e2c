//! Demands with the work that they ask for.

ghost use Rattle.std.specs.Prelude.{◌≡◌, IfOk};
ghost use Rattle.fb_find_demands.specs.Rights.{right_of, rights_of};
ghost use Rattle.fb_work.specs.Demands.{charged};

use fb_find_demands::Right;
use std::alloc::{AllocError, Global};

// A demand with this work in place of its constant.
fn charged_right(alloc: Global, right: &Right, work: u64) -> Result<Right, AllocError>
    ensures { IfOk result (λ r. right_of r ≡ record { node = right.now.node; constant = work; terms = right.now.terms.items }) }
{
    Ok(Right {
        node: right.node,
        constant: work,
        terms: right.terms.as_slice().to_vec(alloc)?,
    })
}

/// These demands, each with its work, as long as there are both.
pub(crate) fn charged(
    alloc: Global,
    rights: &[Right],
    works: &[u64],
) -> Result<Vec<Right>, AllocError>
    ensures { IfOk result (λ v. rights_of v.items ≡ charged works.now (rights_of rights.now)) }
{
    let mut all = Vec::new(alloc);
    for index in 0..works.len() {
        match rights.get(index) {
            Some(right) => all.push(charged_right(alloc, right, works[index])?)?,
            None => return Ok(all),
        }
    }
    Ok(all)
}
