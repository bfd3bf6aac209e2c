//! The resource of a place.

ghost use Rattle.std.specs.Prelude.{◌≡◌, ◌++◌, ◌∷◌, take, IfOk, string_bytes};
ghost use Rattle.fb_model.specs.CertificateText.{names_in};

use std::alloc::{AllocError, Global};

// Two names, joined by a dot.
fn joined(alloc: Global, device: &str, resource: &str) -> Result<String, AllocError>
    ensures { IfOk result (λ s. string_bytes s ≡ device.now ++ 46 ∷ resource.now) }
{
    let mut text = String::from_str(alloc, device)?;
    text.push('.')?;
    text.push_str(resource)?;
    Ok(text)
}

/// The first two names of a path: those of its device and its resource.
pub(crate) fn resource_in(alloc: Global, path: &str) -> Result<String, AllocError>
    ensures { IfOk result (λ s. names_in (string_bytes s) ≡ take 2 (names_in path.now)) }
{
    match path.split_once('.') {
        None => String::from_str(alloc, path),
        Some((device, rest)) => match rest.split_once('.') {
            None => String::from_str(alloc, path),
            Some((resource, _)) => joined(alloc, device, resource),
        },
    }
}
