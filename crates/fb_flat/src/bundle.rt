//! Connections by the texts of their ends.

ghost use Rattle.std.specs.Prelude.{◌≡◌, ◌∷◌, ◌++◌, [], List, map, string_bytes, IfOk, OnOk, if◌then◌else◌};
ghost use Rattle.std.specs.Option.{option_map, option_map_or};
ghost use Rattle.std.specs.Str.{bytes_eq};
ghost use Rattle.fb_model.specs.Names.{Name};
ghost use Rattle.fb_types_networks.specs.Views.{end_of, connection_of};
ghost use Rattle.fb_flat.specs.Bundled.{key_of, seen, under, IsBundled, source_of, target_of};

use fb_types_networks::{Connection, End};
use indexmap::IndexMap;
use std::alloc::{AllocError, Global};

/// Connections, in order, by the text of an end of theirs.
pub type Bundles<'a> = IndexMap<String, Vec<&'a Connection>>;

/// The text of a port of an instance, or of the composite itself.
pub fn key(alloc: Global, instance: Option<&str>, port: &str) -> Result<String, AllocError>
    ensures { IfOk result (λ s. string_bytes s ≡ key_of (option_map (λ n. n.now) instance.entry) port.now) }
{
    let mut text = match instance {
        None => String::new(alloc),
        Some(name) => String::from_str(alloc, name)?,
    };
    text.push_str(".")?;
    text.push_str(port)?;
    Ok(text)
}

// The text of an end.
fn text(alloc: Global, end: &End) -> Result<String, AllocError>
    ensures { IfOk result (λ s. string_bytes s ≡ key_of (end_of end.now).instance (end_of end.now).port) }
{
    match &end.instance {
        None => key(alloc, None, end.port.as_str()),
        Some(name) => key(alloc, Some(name.as_str()), end.port.as_str()),
    }
}

// Adds a connection behind those of a text.
fn put<'a>(
    alloc: Global,
    bundles: &mut Bundles<'a>,
    key: String,
    connection: &'a Connection,
) -> Result<(), AllocError>
    ensures { OnOk result ((k : Name) → under bundles.new k ≡ under bundles.old k ++ (if bytes_eq k (string_bytes key) then connection.entry ∷ [] else [])) }
{
    bundles
        .entry(key)?
        .or_insert(Vec::new(alloc))
        .push(connection)?;
    Ok(())
}

// Puts connections into an empty table, by the texts of their sources.
fn add_sources<'a>(
    alloc: Global,
    connections: &'a [Connection],
    bundles: &mut Bundles<'a>,
) -> Result<(), AllocError>
    requires { IsBundled source_of [] bundles.old }
    ensures { OnOk result (IsBundled source_of (map connection_of connections.now) bundles.new) }
{
    for connection in connections {
        put(alloc, bundles, text(alloc, &connection.source)?, connection)?;
    }
    Ok(())
}

/// Connections by the texts of their sources.
pub fn by_source(alloc: Global, connections: &[Connection]) -> Result<Bundles, AllocError>
    ensures { IfOk result (IsBundled source_of (map connection_of connections.now)) }
{
    let mut bundles = IndexMap::new(alloc);
    match add_sources(alloc, connections, &mut bundles) {
        Ok(()) => Ok(bundles),
        Err(fault) => {
            drop(bundles);
            Err(fault)
        }
    }
}

// Puts connections into an empty table, by the texts of their targets.
fn add_targets<'a>(
    alloc: Global,
    connections: &'a [Connection],
    bundles: &mut Bundles<'a>,
) -> Result<(), AllocError>
    requires { IsBundled target_of [] bundles.old }
    ensures { OnOk result (IsBundled target_of (map connection_of connections.now) bundles.new) }
{
    for connection in connections {
        put(alloc, bundles, text(alloc, &connection.target)?, connection)?;
    }
    Ok(())
}

/// Connections by the texts of their targets.
pub fn by_target(alloc: Global, connections: &[Connection]) -> Result<Bundles, AllocError>
    ensures { IfOk result (IsBundled target_of (map connection_of connections.now)) }
{
    let mut bundles = IndexMap::new(alloc);
    match add_targets(alloc, connections, &mut bundles) {
        Ok(()) => Ok(bundles),
        Err(fault) => {
            drop(bundles);
            Err(fault)
        }
    }
}

/// The connections under a text, if there are any.
pub fn at<'t, 'a>(bundles: &'t Bundles<'a>, key: &str) -> Option<&'t Vec<&'a Connection>>
    ensures { option_map_or (λ v. v.now.items) result [] ≡ under bundles.now key.now }
{
    bundles.get(key)
}
