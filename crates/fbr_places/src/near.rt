//! Names that are near to one another.

use std::alloc::{AllocError, Global};
use strsim::osa_distance;

/// The longest name for which near ones are looked for, in bytes.
const LONGEST: usize = 64;

/// How many letters are missing, too many, others or in turned order between two names, if these are fewer than `limit`; looks at no name of more than 64 bytes.
pub fn distance(
    alloc: Global,
    name: &str,
    wanted: &str,
    limit: usize,
) -> Result<Option<usize>, AllocError> {
    let is_far = name.len().abs_diff(wanted.len()) >= limit;
    if is_far || name.len() > LONGEST || wanted.len() > LONGEST {
        return Ok(None);
    }
    let distance = osa_distance(alloc, name, wanted)?;
    Ok(if distance < limit {
        Some(distance)
    } else {
        None
    })
}

/// The `limit` for this name: others are near to it if they are fewer letters apart, which is at most one for a short name and two for a longer one.
pub fn nearness(wanted: &str) -> usize {
    if wanted.len() < 4 { 2 } else { 3 }
}
