//! Instances and connections.

ghost use Rattle.std.specs.Prelude.{◌≡◌, map};
ghost use Rattle.fb_lex.specs.Views.{tokens_of};
ghost use Rattle.fb_read.specs.Answers.{Gives};
ghost use Rattle.fb_tree.specs.Words.{word_of, optional};
ghost use Rattle.fb_model.specs.Trees as trees;
ghost use Rattle.fb_model.specs.Declarations as book;
ghost use Rattle.fb_tree.specs.Files.{parameter_of, instance_of, port_of, connection_of, network_of};
ghost use Rattle.fb_text.specs.Reading.{parameter_at, parameters_at, type_list_at, types_at, instance_at, second_at, port_at, connection_at, network_at};

use crate::constant::constant;
use crate::{Item, section, separated};
use fb_lex::Token;
use fb_read::{Stop, expect, next_is, next_offset, read_name};
use fb_tree::{ConnectionTree, InstanceTree, Name, NetworkTree, ParameterTree, PortTree};
use fb_words::{ElemType, Mark};
use std::alloc::Global;

impl Item for ParameterTree {
    ghost Tree = { trees.ParameterTree };

    ghost view = { parameter_of };

    ghost reads = { parameter_at };

    #[tactic(auto, unfolding(crate::specs::Reading::parameter_at))]
    fn read(_alloc: Global, tokens: &[Token]) -> Result<(ParameterTree, &[Token]), Stop> {
        let (name, rest) = read_name(tokens)?;
        let at = next_offset(rest);
        let rest = expect(rest, Mark::Assign)?;
        let (value, rest) = constant(rest)?;
        Ok((ParameterTree { name, at, value }, rest))
    }
}

// The parameters in parentheses, none where they are absent.
#[tactic(auto, unfolding(crate::specs::Reading::parameters_at))]
fn parameters(alloc: Global, tokens: &[Token]) -> Result<(Vec<ParameterTree>, &[Token]), Stop>
    ensures { Gives (λ x. (map parameter_of x.0.items, tokens_of x.1.now)) result (parameters_at (tokens_of tokens.now)) }
{
    if !next_is(tokens, Mark::LParen) {
        return Ok((Vec::new(alloc), tokens));
    }
    let (parameters, rest) = separated::<ParameterTree>(alloc, &tokens[1..], Mark::Comma)?;
    let rest = expect(rest, Mark::RParen)?;
    Ok((parameters, rest))
}

// The types before a `]`, perhaps none.
#[tactic(auto, unfolding(crate::specs::Reading::type_list_at))]
fn type_list(alloc: Global, tokens: &[Token]) -> Result<(Vec<ElemType>, &[Token]), Stop>
    ensures { Gives (λ x. (x.0.items, tokens_of x.1.now)) result (type_list_at (tokens_of tokens.now)) }
{
    if next_is(tokens, Mark::RBracket) {
        return Ok((Vec::new(alloc), tokens));
    }
    separated::<ElemType>(alloc, tokens, Mark::Comma)
}

// The types in square brackets, where these stand.
#[tactic(auto, unfolding(crate::specs::Reading::types_at))]
fn types(alloc: Global, tokens: &[Token]) -> Result<(Option<Vec<ElemType>>, &[Token]), Stop>
    ensures { Gives (λ x. (optional (λ v. v.items) x.0, tokens_of x.1.now)) result (types_at (tokens_of tokens.now)) }
{
    if !next_is(tokens, Mark::LBracket) {
        return Ok((None, tokens));
    }
    let (types, rest) = type_list(alloc, &tokens[1..])?;
    let rest = expect(rest, Mark::RBracket)?;
    Ok((Some(types), rest))
}

impl Item for InstanceTree {
    ghost Tree = { book.InstanceTree };

    ghost view = { instance_of };

    ghost reads = { instance_at };

    #[tactic(auto, unfolding(crate::specs::Reading::instance_at))]
    fn read(alloc: Global, tokens: &[Token]) -> Result<(InstanceTree, &[Token]), Stop> {
        let (name, rest) = read_name(tokens)?;
        let rest = expect(rest, Mark::Colon)?;
        let (of_type, rest) = read_name(rest)?;
        let (types, rest) = types(alloc, rest)?;
        let (parameters, rest) = parameters(alloc, rest)?;
        let rest = expect(rest, Mark::Semicolon)?;
        let instance = InstanceTree {
            name,
            of_type,
            types,
            parameters,
        };
        Ok((instance, rest))
    }
}

// The name behind `.`, where it stands.
#[tactic(auto, unfolding(crate::specs::Reading::second_at))]
fn second(tokens: &[Token]) -> Result<(Option<Name>, &[Token]), Stop>
    ensures { Gives (λ x. (optional word_of x.0, tokens_of x.1.now)) result (second_at (tokens_of tokens.now)) }
{
    if !next_is(tokens, Mark::Dot) {
        return Ok((None, tokens));
    }
    let (name, rest) = read_name(&tokens[1..])?;
    Ok((Some(name), rest))
}

// A port: an own one, or an instance and its port.
#[tactic(auto, unfolding(crate::specs::Reading::port_at))]
fn port(tokens: &[Token]) -> Result<(PortTree, &[Token]), Stop>
    ensures { Gives (λ x. (port_of x.0, tokens_of x.1.now)) result (port_at (tokens_of tokens.now)) }
{
    let (first, rest) = read_name(tokens)?;
    let (second, rest) = second(rest)?;
    Ok((PortTree { first, second }, rest))
}

impl Item for ConnectionTree {
    ghost Tree = { trees.ConnectionTree };

    ghost view = { connection_of };

    ghost reads = { connection_at };

    #[tactic(auto, unfolding(crate::specs::Reading::connection_at))]
    fn read(_alloc: Global, tokens: &[Token]) -> Result<(ConnectionTree, &[Token]), Stop> {
        let (source, rest) = port(tokens)?;
        let at = next_offset(rest);
        let rest = expect(rest, Mark::To)?;
        let (target, rest) = port(rest)?;
        let rest = expect(rest, Mark::Semicolon)?;
        let connection = ConnectionTree { source, at, target };
        Ok((connection, rest))
    }
}

/// Instances, connections of events and connections of data; each section may be absent.
#[tactic(auto, unfolding(crate::specs::Reading::network_at))]
pub fn network(alloc: Global, tokens: &[Token]) -> Result<(NetworkTree, &[Token]), Stop>
    ensures { Gives (λ x. (network_of x.0, tokens_of x.1.now)) result (network_at (tokens_of tokens.now)) }
{
    let (instances, rest) = section(alloc, tokens, Mark::Fbs, Mark::EndFbs)?;
    let (events, rest) = section(alloc, rest, Mark::EventConnections, Mark::EndConnections)?;
    let (values, rest) = section(alloc, rest, Mark::DataConnections, Mark::EndConnections)?;
    let network = NetworkTree {
        instances,
        events,
        values,
    };
    Ok((network, rest))
}
