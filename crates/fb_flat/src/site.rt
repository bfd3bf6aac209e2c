//! Where networks stand.

ghost use Rattle.std.specs.Prelude.{◌≡◌, string_bytes, IfOk};
ghost use Rattle.fb_flat.specs.Sites.{path_of, text_of, dotted};

use crate::lookup::Indexed;
use fb_types_networks::Instance;
use std::alloc::{AllocError, Global};

/// The names from outside in: a device, a resource, and the instances around.
#[derive(Clone, Copy)]
pub enum Trail<'a> {
    Resource(&'a str, &'a str),
    Inside(&'a str, &'a Trail<'a>),
}

/// What is around a body: nothing around a resource, else a network, the body's instance in it, the network's trail and what is around
/// that network.
#[derive(Clone, Copy)]
pub enum Around<'a, 'n> {
    Nothing,
    Level(&'a Indexed<'n>, &'a Instance, &'a Trail<'a>, &'a Around<'a, 'n>),
}

// A text made longer by a dot and a name.
fn longer(text: String, name: &str) -> Result<String, AllocError>
    ensures { IfOk result (λ s. string_bytes s ≡ dotted (string_bytes text) name.now) }
{
    let mut text = text;
    text.push_str(".")?;
    text.push_str(name)?;
    Ok(text)
}

/// A path and a name behind it, joined by a dot.
pub fn joined(alloc: Global, path: &str, name: &str) -> Result<String, AllocError>
    ensures { IfOk result (λ s. string_bytes s ≡ dotted path.now name.now) }
{
    longer(String::from_str(alloc, path)?, name)
}

/// The names of a trail, joined by dots.
pub fn text(trail: &Trail, alloc: Global) -> Result<String, AllocError>
    ensures { IfOk result (λ s. string_bytes s ≡ text_of (path_of trail.now)) }
{
    match trail {
        Trail::Resource(device, name) => longer(String::from_str(alloc, *device)?, *name),
        Trail::Inside(name, outer) => longer(text(*outer, alloc)?, *name),
    }
}
