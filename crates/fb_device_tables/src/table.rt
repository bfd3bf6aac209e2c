//! A device by numbers.

ghost use Rattle.std.specs.Prelude.{◌≡◌, nat_eq};
ghost use Rattle.indexmap.specs.IndexMap.{get};

use fb_chart::{Block, Ports};
use indexmap::IndexMap;

/// A resource, with its DEPTH.
#[derive(Drop)]
pub struct Resource {
    pub name: String,
    pub depth: u64,
}

/// A device: its blocks by resource and then in text order, the ports of each of them (which mean nothing of a chart), its resources in text order, and
/// the number of the block of each INPUT, by the INPUT's number, and of the SUBSCRIBE of each channel.
#[derive(Drop)]
pub struct Tables {
    pub blocks: Vec<Block>,
    pub ports: Vec<Ports>,
    pub resources: Vec<Resource>,
    pub inputs: IndexMap<u16, u16>,
    pub subscribers: IndexMap<u16, u16>,
}

impl Tables {
    /// The number of the block of the INPUT of a number. It takes constant time.
    pub fn input(&self, number: u16) -> Option<u16>
        ensures { result ≡ get nat_eq self.now.inputs number }
    {
        self.inputs.get(&number).copied()
    }

    /// The number of the block of the SUBSCRIBE of a channel. It takes constant time.
    pub fn subscriber(&self, channel: u16) -> Option<u16>
        ensures { result ≡ get nat_eq self.now.subscribers channel }
    {
        self.subscribers.get(&channel).copied()
    }

    /// Lets the tables go. (A crate that lets them go by itself proves the end of each of their parts anew; this call is proved once.)
    pub fn let_go(self) {}
}
