//! The system: devices and resources.

ghost use Rattle.std.specs.Prelude.{◌≡◌, map};
ghost use Rattle.fb_lex.specs.Views.{tokens_of};
ghost use Rattle.fb_read.specs.Answers.{Gives};
ghost use Rattle.fb_tree.specs.Words.{word_of};
ghost use Rattle.fb_model.specs.Declarations as book;
ghost use Rattle.fb_tree.specs.Files.{resource_of, device_of, system_of};
ghost use Rattle.fb_text.specs.Reading.{resource_at, device_at, system_at};

use crate::network::network;
use crate::{Item, closed};
use fb_lex::Token;
use fb_read::{Stop, expect, read_name};
use fb_tree::{DeviceTree, ResourceTree, SystemTree};
use fb_words::Mark;
use std::alloc::Global;

impl Item for ResourceTree {
    ghost Tree = { book.ResourceTree };

    ghost view = { resource_of };

    ghost reads = { resource_at };

    #[tactic(auto, unfolding(crate::specs::Reading::resource_at))]
    fn read(alloc: Global, tokens: &[Token]) -> Result<(ResourceTree, &[Token]), Stop> {
        let rest = expect(tokens, Mark::Resource)?;
        let (name, rest) = read_name(rest)?;
        let (network, rest) = network(alloc, rest)?;
        let rest = expect(rest, Mark::EndResource)?;
        Ok((ResourceTree { name, network }, rest))
    }
}

impl Item for DeviceTree {
    ghost Tree = { book.DeviceTree };

    ghost view = { device_of };

    ghost reads = { device_at };

    #[tactic(auto, unfolding(crate::specs::Reading::device_at))]
    fn read(alloc: Global, tokens: &[Token]) -> Result<(DeviceTree, &[Token]), Stop> {
        let rest = expect(tokens, Mark::Device)?;
        let (name, rest) = read_name(rest)?;
        let (resources, rest) = closed(alloc, rest, Mark::EndDevice)?;
        Ok((DeviceTree { name, resources }, rest))
    }
}

/// The system of a text.
#[tactic(auto, unfolding(crate::specs::Reading::system_at))]
pub fn system(alloc: Global, tokens: &[Token]) -> Result<(SystemTree, &[Token]), Stop>
    ensures { Gives (λ x. (system_of x.0, tokens_of x.1.now)) result (system_at (tokens_of tokens.now)) }
{
    let rest = expect(tokens, Mark::System)?;
    let (name, rest) = read_name(rest)?;
    let (devices, rest) = closed(alloc, rest, Mark::EndSystem)?;
    Ok((SystemTree { name, devices }, rest))
}
