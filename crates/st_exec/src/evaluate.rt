//! The values of expressions.

ghost use Rattle.std.specs.Prelude.{◌≡◌, true, map, Some, IsSome};
ghost use Rattle.fb_model.specs.TypedText.{constant};
ghost use Rattle.fb_model.specs.Language.{value_of, holds};
ghost use Rattle.st_types.specs.Views.{joined};
ghost use Rattle.st_exec.specs.CodeViews.{code_term, code_tail};
ghost use Rattle.st_exec.specs.Placed.{placed, placed_link, all_true};
ghost use Rattle.st_exec.specs.Cells.{values_of, forms_of};

use crate::arithmetic::{apply_one, apply_two, is_zero};
use crate::store::Store;
use crate::{Code, CodeLink};

/// The value of an expression, which does not trap: IEC 61131-3 edition 3, 7.3.2.
///
/// Values are computed exactly and then wrapped into their type. Both operands of an operation are always evaluated.
#[cycle(evaluating)]
pub fn eval(code: &Code, store: &Store) -> i64
    requires placed { placed (forms_of store.now) code.now ≡ true }
    requires defined { IsSome (value_of (code_term code.now) (values_of store.now)) }
    ensures { value_of (code_term code.now) (values_of store.now) ≡ Some result }
{
    match code {
        Code::Constant(number) => *number,
        Code::Read(_, slot) => store.number(*slot),
        Code::Element(_, first, low, _, index) => {
            let index = eval(index, store);
            store.element(*first, *low, index)
        }
        Code::Unary(operation, of, operand) => {
            let operand = eval(operand, store);
            apply_one(*operation, *of, operand)
        }
        Code::Chain(first, links) => {
            let first = eval(first, store);
            eval_links(first, links, store)
        }
    }
}

// Operations on a number, one after another.
#[cycle(evaluating)]
fn eval_links(first: i64, links: &[CodeLink], store: &Store) -> i64
    requires placed { all_true (map (placed_link (forms_of store.now)) links.now) ≡ true }
    requires defined { IsSome (value_of (joined (constant first) (map code_tail links.now)) (values_of store.now)) }
    ensures { value_of (joined (constant first) (map code_tail links.now)) (values_of store.now) ≡ Some result }
{
    let mut whole = first;
    for link in links {
        let operand = eval(&link.operand, store);
        whole = apply_two(link.operation, link.of_type, whole, operand);
    }
    whole
}

/// Whether a guard or a condition is true. Its evaluation does not trap.
pub fn truth(code: &Code, store: &Store) -> bool
    requires placed { placed (forms_of store.now) code.now ≡ true }
    requires defined { IsSome (value_of (code_term code.now) (values_of store.now)) }
    ensures { holds (code_term code.now) (values_of store.now) ≡ Some result }
{
    !is_zero(eval(code, store))
}
