//! Names and tables of names.

ghost use Rattle.std.specs.Prelude.{◌≡◌, ◌≤◌, ◌++◌, [], ◌∷◌, List, ℕ, map, length, string_bytes, true, false, IfOk, IfErr, OnOk};
ghost use Rattle.fb_tree.specs.Words.{word_of};
ghost use Rattle.fb_tree.specs.Words as read;
ghost use Rattle.fb_model.specs.Names.{is_in};
ghost use Rattle.fb_model.specs.Typing.{texts, AreNew, AreDistinct, IsKnown};
ghost use Rattle.fb_types_blocks.specs.Views.{names_of, name_of};
ghost use Rattle.fb_types_blocks.specs.Answers.{text_of, Extends, pairs_of, names_in_map};
ghost use Rattle.fb_model.specs.BlockFaults.{IsRepetition, IsExcess, IsUnknown, IsUnknownIfSome};

use fb_faults::TypeFault;
use fb_tree::{
    AlgorithmTree, BlockTree, DeviceTree, EventTree, InstanceTree, Name, ResourceTree, StateTree,
    TransitionTree,
};
use indexmap::{IndexMap, IndexSet};
use std::alloc::{AllocError, Global};

/// What is declared under a name.
pub trait Named {
    /// The name.
    ghost text: { Self → List ℕ };

    /// The name's place.
    ghost at: { Self → ℕ };

    /// The name and its place.
    fn name(&self) -> &Name
        ensures text { string_bytes result.now.text ≡ text self.now }
        ensures at { result.now.at ≡ at self.now };
}

impl Named for Name {
    ghost text = { λ x. string_bytes x.text };

    ghost at = { λ x. x.at };

    fn name(&self) -> &Name {
        self
    }
}

/// A transition goes by the name of the state that it leaves.
impl Named for TransitionTree {
    ghost text = { λ x. string_bytes x.source.text };

    ghost at = { λ x. x.source.at };

    fn name(&self) -> &Name {
        &self.source
    }
}

impl Named for EventTree {
    ghost text = { λ x. string_bytes x.name.text };

    ghost at = { λ x. x.name.at };

    fn name(&self) -> &Name {
        &self.name
    }
}

impl Named for StateTree {
    ghost text = { λ x. string_bytes x.name.text };

    ghost at = { λ x. x.name.at };

    fn name(&self) -> &Name {
        &self.name
    }
}

impl Named for AlgorithmTree {
    ghost text = { λ x. string_bytes x.name.text };

    ghost at = { λ x. x.name.at };

    fn name(&self) -> &Name {
        &self.name
    }
}

impl Named for BlockTree {
    ghost text = { λ x. string_bytes x.name.text };

    ghost at = { λ x. x.name.at };

    fn name(&self) -> &Name {
        &self.name
    }
}

impl Named for InstanceTree {
    ghost text = { λ x. string_bytes x.name.text };

    ghost at = { λ x. x.name.at };

    fn name(&self) -> &Name {
        &self.name
    }
}

impl Named for ResourceTree {
    ghost text = { λ x. string_bytes x.name.text };

    ghost at = { λ x. x.name.at };

    fn name(&self) -> &Name {
        &self.name
    }
}

impl Named for DeviceTree {
    ghost text = { λ x. string_bytes x.name.text };

    ghost at = { λ x. x.name.at };

    fn name(&self) -> &Name {
        &self.name
    }
}

/// Whether a table has a name.
pub fn contains(names: &IndexSet<String>, name: &str) -> bool
    ensures { result ≡ is_in name.now (names_of names.now) }
{
    names.contains(name)
}

/// Adds a name at the end, and says whether it was new.
pub fn insert(names: &mut IndexSet<String>, name: &String) -> Result<bool, AllocError>
    ensures { IfOk result (λ added. Extends (names_of names.old) (string_bytes name.now) (names_of names.new) added) }
{
    Ok(names.insert(name.clone()?)?)
}

/// Adds the names of all items at the end. No name may be there before.
pub fn declare<T: Named>(names: &mut IndexSet<String>, items: &[T]) -> Result<(), TypeFault>
    ensures new { OnOk result (AreNew (names_of names.old) (map T.text items.now)) }
    ensures added { OnOk result (names_of names.new ≡ names_of names.old ++ map T.text items.now) }
    ensures refused { IfErr result (IsRepetition (names_of names.old) (map (λ x. record { text = T.text x; at = T.at x }) items.now)) }
{
    for item in items {
        let name = item.name();
        if !insert(names, &name.text)? {
            return Err(TypeFault::DuplicateName(name.at));
        }
    }
    Ok(())
}

/// The table of the names of all items, which are all different.
pub fn table<T: Named>(alloc: Global, items: &[T]) -> Result<IndexSet<String>, TypeFault>
    ensures distinct { OnOk result (AreDistinct (map T.text items.now)) }
    ensures names { IfOk result (λ t. names_of t ≡ map T.text items.now) }
    ensures refused { IfErr result (IsRepetition [] (map (λ x. record { text = T.text x; at = T.at x }) items.now)) }
{
    let mut names = IndexSet::new(alloc);
    declare(&mut names, items)?;
    Ok(names)
}

/// Refuses more items than `most`, at the name of the first one too many.
pub fn at_most<T: Named>(items: &[T], most: usize) -> Result<(), TypeFault>
    ensures few { OnOk result (length items.now ≤ most) }
    ensures refused { IfErr result (IsExcess most (map (λ x. record { text = T.text x; at = T.at x }) items.now)) }
{
    match items.get(most) {
        Some(item) => Err(TypeFault::Limit(item.name().at)),
        None => Ok(()),
    }
}

/// Refuses a name that has no entry.
pub fn known<V>(names: &IndexMap<String, V>, name: &Name) -> Result<(), TypeFault>
    ensures known { OnOk result (is_in (word_of name.now).text (names_in_map names.now) ≡ true) }
    ensures refused { IfErr result (IsUnknown (names_in_map names.now) (word_of name.now)) }
{
    if names.contains_key(name.text.as_str()) {
        Ok(())
    } else {
        Err(TypeFault::UnknownName(name.at))
    }
}

/// The same of a name that may be left out.
pub fn known_if_some<V>(names: &IndexMap<String, V>, name: &Option<Name>) -> Result<(), TypeFault>
    ensures known { OnOk result (IsKnown (names_in_map names.now) (read.optional word_of name.now)) }
    ensures refused { IfErr result (IsUnknownIfSome (names_in_map names.now) (read.optional word_of name.now)) }
{
    match name {
        Some(name) => known(names, name),
        None => Ok(()),
    }
}

/// Adds an entry of a new name at the end.
pub(crate) fn add<V: Drop>(
    entries: &mut IndexMap<String, V>,
    name: &String,
    value: V,
) -> Result<(), AllocError>
    requires { is_in (string_bytes name.now) (names_in_map entries.old) ≡ false }
    ensures { OnOk result (pairs_of entries.new ≡ pairs_of entries.old ++ (string_bytes name.now, value) ∷ []) }
{
    entries.insert(name.clone()?, value)?;
    Ok(())
}

/// A copy of the text of a name that may be left out.
pub fn optional(name: &Option<Name>) -> Result<Option<String>, AllocError>
    ensures { IfOk result (λ t. name_of t ≡ text_of name.now) }
{
    match name {
        Some(name) => Ok(Some(name.text.clone()?)),
        None => Ok(None),
    }
}
