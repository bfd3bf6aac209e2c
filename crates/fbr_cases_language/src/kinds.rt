//! The kinds of cases of the language.

use crate::case::Case;
use crate::{ranges, systems, texts, walks};
use std::alloc::{AllocError, Global};

/// What the product's calls answer for a case of a kind of the language.
pub fn answer(alloc: Global, kind: &str, case: &Case<'_>) -> Result<String, AllocError> {
    match kind {
        "tokens" => texts::tokens(alloc, case),
        "texts" => texts::texts(alloc, case),
        "certificates" => texts::certificates(alloc, case),
        "systems" => systems::systems(alloc, case),
        "leaves" => systems::leaves(alloc, case),
        "services" => systems::services(alloc, case),
        "ranges" => ranges::ranges(alloc, case),
        "walks" => walks::walks(alloc, case),
        _ => String::from_str(alloc, "no such kind"),
    }
}
