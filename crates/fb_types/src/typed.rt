//! Typed systems.

ghost use Rattle.std.specs.Prelude.{◌≡◌};
ghost use Rattle.fb_types.specs.Views.{system_of};
ghost use Rattle.fb_model.specs.Written.{IsWritten};

use fb_types_networks::Network;
use std::marker::Model;

/// A resource: its instances and their connections. `at` is the offset of its name.
#[derive(Drop)]
pub struct Resource {
    pub name: String,
    pub at: usize,
    pub network: Network,
}

/// A device: its resources in text order.
#[derive(Drop)]
pub struct Device {
    pub name: String,
    pub resources: Vec<Resource>,
}

/// A system configuration: its devices in text order.
#[derive(Drop)]
pub struct Configuration {
    pub devices: Vec<Device>,
}

/// A well typed system. It stands in a text.
#[derive(Drop)]
pub struct Typed {
    pub(crate) configuration: Configuration,
}

impl Model for Typed {
    ghost use Rattle.fb_types.specs.declared.typed.Configuration.{Configuration};
    ghost use Rattle.fb_types.specs.Views.{system_of};
    ghost use Rattle.fb_model.specs.Written.{IsWritten};
    ghost use Rattle.fb_types_networks.specs.contracts.typed.Network as networks;
    ghost use Rattle.std.specs.Coded.{codes};

    ghost Value = { Configuration };

    ghost coded = { Prim.hlevel (codes, networks.the_row.coded) };

    ghost view = { λ t. t.configuration };

    ghost invariant = { λ t. IsWritten (system_of t.configuration) };
}

impl Typed {
    /// A system that stands in a text, as that of a source that was read does.
    pub fn new(configuration: Configuration) -> Typed
        requires { IsWritten (system_of configuration) }
        ensures { result ≡ configuration }
    {
        Typed { configuration }
    }

    /// Its devices.
    pub fn configuration(&self) -> &Configuration
        ensures { result.now ≡ self.now }
    {
        &self.configuration
    }

    /// That it stands in a text, for proofs: nothing is done.
    pub fn stands_in_text(&self)
        ensures { IsWritten (system_of self.now) }
    {
        let _ = &self.configuration;
    }

    /// Lets the system go. (A crate that lets it go by itself proves the end of each of its parts anew; this call is proved once.)
    pub fn let_go(self) {}
}
