//! Reading of block types, part by part.

use crate::reader::Reader;
use fb_read::Stop;
use fb_text::Item;
use fb_tree::{
    AlgorithmTree, BlockTree, BodyTree, ChartTree, ConnectionTree, EventTree, InstanceTree, Name,
    NetworkTree, StateTree, TransitionTree, VariableTree,
};
use fb_words::Mark;
use fbr_recovery_found::{Found, Internal};
use std::alloc::{AllocError, Global};

/// The parts of a network, as far as they were read.
#[derive(Drop)]
pub(crate) struct Wired {
    instances: Vec<InstanceTree>,
    events: Vec<ConnectionTree>,
    values: Vec<ConnectionTree>,
}

// The parts of a block type, as far as they were read.
#[derive(Drop)]
struct Parts {
    event_inputs: Vec<EventTree>,
    event_outputs: Vec<EventTree>,
    inputs: Vec<VariableTree>,
    outputs: Vec<VariableTree>,
    internals: Vec<VariableTree>,
    states: Vec<StateTree>,
    transitions: Vec<TransitionTree>,
    algorithms: Vec<AlgorithmTree>,
    wired: Wired,
}

/// In which order the parts of a declaration are, by the words that begin them: those of an interface, of a network, and of a chart.
pub(crate) fn rank_of(mark: Mark) -> Option<u8> {
    match mark {
        Mark::EventInput => Some(1),
        Mark::EventOutput => Some(2),
        Mark::VarInput => Some(3),
        Mark::VarOutput => Some(4),
        Mark::Fbs => Some(5),
        Mark::EventConnections => Some(6),
        Mark::DataConnections => Some(7),
        Mark::Var => Some(15),
        Mark::EcStates => Some(16),
        Mark::EcTransitions => Some(17),
        Mark::Algorithm => Some(18),
        _ => None,
    }
}

// Whether a part may stand behind another one in a block type.
fn follows(before: u8, rank: u8) -> bool {
    match rank {
        5 | 15 => before <= 4,
        6 => before == 5,
        7 => before == 5 || before == 6,
        16 => before <= 4 || before == 15,
        17 => before == 16,
        18 => before == 17 || before == 18,
        _ => before < rank,
    }
}

// Whether a block type may end behind a part.
fn may_end(before: u8) -> bool {
    matches!(before, 5 | 6 | 7 | 17 | 18)
}

impl Wired {
    /// None.
    pub(crate) fn none(alloc: Global) -> Wired {
        Wired {
            instances: Vec::new(alloc),
            events: Vec::new(alloc),
            values: Vec::new(alloc),
        }
    }

    /// Reads the part that begins with a word, if it is one of a network; and whether it is.
    pub(crate) fn read(
        &mut self,
        mark: Mark,
        reader: &mut Reader<'_>,
        found: &mut Found<'_>,
    ) -> Result<bool, AllocError> {
        match mark {
            Mark::Fbs => {
                reader.pass();
                let mut items = reader.items::<InstanceTree>(Mark::EndFbs, found)?;
                self.instances.append(&mut items)?;
            }
            Mark::EventConnections => {
                reader.pass();
                let mut items = reader.items::<ConnectionTree>(Mark::EndConnections, found)?;
                self.events.append(&mut items)?;
            }
            Mark::DataConnections => {
                reader.pass();
                let mut items = reader.items::<ConnectionTree>(Mark::EndConnections, found)?;
                self.values.append(&mut items)?;
            }
            _ => return Ok(false),
        }
        Ok(true)
    }

    /// The network.
    pub(crate) fn tree(self) -> NetworkTree {
        let Wired {
            instances,
            events,
            values,
        } = self;
        NetworkTree {
            instances,
            events,
            values,
        }
    }
}

impl Parts {
    fn none(alloc: Global) -> Parts {
        Parts {
            event_inputs: Vec::new(alloc),
            event_outputs: Vec::new(alloc),
            inputs: Vec::new(alloc),
            outputs: Vec::new(alloc),
            internals: Vec::new(alloc),
            states: Vec::new(alloc),
            transitions: Vec::new(alloc),
            algorithms: Vec::new(alloc),
            wired: Wired::none(alloc),
        }
    }

    // Reads a part of the interface, if the word begins one; and whether it does.
    fn read_face(
        &mut self,
        mark: Mark,
        reader: &mut Reader<'_>,
        found: &mut Found<'_>,
    ) -> Result<bool, AllocError> {
        match mark {
            Mark::EventInput => {
                reader.pass();
                let mut items = reader.items::<EventTree>(Mark::EndEvent, found)?;
                self.event_inputs.append(&mut items)?;
            }
            Mark::EventOutput => {
                reader.pass();
                let mut items = reader.items::<EventTree>(Mark::EndEvent, found)?;
                self.event_outputs.append(&mut items)?;
            }
            Mark::VarInput => {
                reader.pass();
                let mut items = reader.items::<VariableTree>(Mark::EndVar, found)?;
                self.inputs.append(&mut items)?;
            }
            Mark::VarOutput => {
                reader.pass();
                let mut items = reader.items::<VariableTree>(Mark::EndVar, found)?;
                self.outputs.append(&mut items)?;
            }
            _ => return Ok(false),
        }
        Ok(true)
    }

    // Reads a part of the chart.
    fn read_chart(
        &mut self,
        mark: Mark,
        reader: &mut Reader<'_>,
        found: &mut Found<'_>,
    ) -> Result<(), AllocError> {
        match mark {
            Mark::Var => {
                reader.pass();
                for item in reader.items::<Internal>(Mark::EndVar, found)? {
                    let Internal { tree } = item;
                    self.internals.push(tree)?;
                }
            }
            Mark::EcStates => {
                reader.pass();
                let mut items = reader.items::<StateTree>(Mark::EndStates, found)?;
                self.states.append(&mut items)?;
            }
            Mark::EcTransitions => {
                reader.pass();
                let mut items = reader.items::<TransitionTree>(Mark::EndTransitions, found)?;
                self.transitions.append(&mut items)?;
            }
            _ => {
                if let Some(algorithm) = reader.algorithm(found)? {
                    self.algorithms.push(algorithm)?;
                }
            }
        }
        Ok(())
    }

    // Reads the part that a word begins.
    fn read(
        &mut self,
        mark: Mark,
        reader: &mut Reader<'_>,
        found: &mut Found<'_>,
    ) -> Result<(), AllocError> {
        if self.read_face(mark, reader, found)? || self.wired.read(mark, reader, found)? {
            return Ok(());
        }
        self.read_chart(mark, reader, found)
    }
}

impl<'t> Reader<'t> {
    // Goes behind what stands between the parts of a declaration, and tells it.
    pub(crate) fn skip_stray(&mut self, found: &mut Found<'_>) -> Result<(), AllocError> {
        self.tell_here(found)?;
        let from = self.at;
        self.pass();
        found.doubt_all(from, self.at)?;
        self.skip_to_part(found)
    }

    // Reads the parts of a block type up to its end, and tells which rank the last one has.
    fn parts(&mut self, parts: &mut Parts, found: &mut Found<'_>) -> Result<u8, AllocError> {
        let mut last: u8 = 0;
        for _ in self.at..self.end {
            let mark = self.next();
            if self.at >= self.end || mark == Some(Mark::EndFunctionBlock) {
                break;
            }
            match (mark, mark.and_then(rank_of)) {
                (Some(mark), Some(rank)) => {
                    if !follows(last, rank) {
                        self.tell_here(found)?;
                    }
                    self.is_lost = false;
                    last = rank;
                    parts.read(mark, self, found)?;
                }
                _ => self.skip_stray(found)?,
            }
        }
        Ok(last)
    }

    // Goes behind the end of a block type, where it is there.
    fn pass_last(&mut self) {
        if self.at < self.end {
            self.pass();
            self.is_lost = false;
        }
    }

    // Tells what is wrong with the end of a block type.
    fn end_block(&mut self, last: u8, found: &mut Found<'_>) -> Result<(), AllocError> {
        if self.at >= self.end || !may_end(last) {
            self.tell_here(found)?;
        }
        self.pass_last();
        Ok(())
    }

    /// The block type of this name, of which the parts are next, and of which parts are left out that cannot be read.
    pub(crate) fn block_named(
        &mut self,
        name: Name,
        found: &mut Found<'_>,
    ) -> Result<BlockTree, AllocError> {
        let mut parts = Parts::none(self.alloc);
        let last = self.parts(&mut parts, found)?;
        self.end_block(last, found)?;
        let Parts {
            event_inputs,
            event_outputs,
            inputs,
            outputs,
            internals,
            states,
            transitions,
            algorithms,
            wired,
        } = parts;
        let body = if matches!(last, 5 | 6 | 7) {
            BodyTree::Network(wired.tree())
        } else {
            BodyTree::Chart(ChartTree {
                internals,
                states,
                transitions,
                algorithms,
            })
        };
        Ok(BlockTree {
            name,
            event_inputs,
            event_outputs,
            inputs,
            outputs,
            body,
        })
    }

    /// The block type that is next, and whether all of it was read.
    pub(crate) fn block(&mut self, found: &mut Found<'_>) -> Result<(BlockTree, bool), AllocError> {
        match BlockTree::read(self.alloc, self.rest()) {
            Ok((block, rest)) => {
                self.at = self.end.saturating_sub(rest.len());
                Ok((block, true))
            }
            Err(Stop::Memory) => Err(AllocError),
            Err(_) => {
                self.pass();
                let name = self.name(found)?;
                Ok((self.block_named(name, found)?, false))
            }
        }
    }
}
