//! The variables of a block.

ghost use Rattle.std.specs.Prelude.{◌≡◌, IfOk, string_bytes};
ghost use Rattle.std.specs.Option.{option_map};
ghost use Rattle.fb_model.specs.TextTyping.{found};
ghost use Rattle.fb_tree.specs.Words.{word_of};
ghost use Rattle.st_types.specs.Views.{entries, symbol_of};

use crate::term::VariableName;
use fb_tree::Name;
use fb_words::ElemType;
use indexmap::IndexMap;
use std::alloc::AllocError;

/// A variable as expressions see it.
#[derive(Clone, Copy)]
pub struct Variable {
    pub of_type: ElemType,
    /// The lowest and the highest index of an array.
    pub bounds: Option<(i64, i64)>,
    /// Whether algorithms may assign it.
    pub writable: bool,
    /// Where it stands among the variables of its block, from 0.
    pub number: usize,
}

/// The variables of a block by their names, in text order.
pub type Scope = IndexMap<String, Variable>;

/// How an expression or a statement names a variable.
pub(crate) fn named(name: &Name, variable: Variable) -> Result<VariableName, AllocError>
    ensures { IfOk result (λ n. string_bytes n.name ≡ (word_of name.now).text) }
{
    Ok(VariableName {
        name: name.text.clone()?,
        number: variable.number,
    })
}

/// The variable of a name.
pub fn find(scope: &Scope, name: &str) -> Option<Variable>
    ensures { option_map (symbol_of name.now) result ≡ found (entries scope.now) name.now }
{
    scope.get(name).copied()
}
