//! Expressions with slots.

ghost use Rattle.std.specs.Prelude.{◌≡◌, true, map, IfOk};
ghost use Rattle.st_types.specs.Views.{term_of, tail_of};
ghost use Rattle.st_exec.specs.CodeViews.{code_term, code_tail};
ghost use Rattle.st_exec.specs.Placed.{placed, placed_link, all_true};

use crate::code::{Code, CodeLink};
use crate::layout::Layout;
use st_types::{TypedExpr, TypedLink};
use std::alloc::{AllocError, Global};

/// An expression with the slots of its variables in a layout.
#[cycle(coding)]
pub fn coded_term(alloc: Global, layout: &Layout, expr: &TypedExpr) -> Result<Code, AllocError>
    ensures same { IfOk result (λ code. code_term code ≡ term_of expr.now) }
    ensures slots { IfOk result (λ code. placed layout.now code ≡ true) }
{
    match expr {
        TypedExpr::Constant(number) => Ok(Code::Constant(*number)),
        TypedExpr::Read(name) => {
            let slot = layout.plain_slot(name.as_str());
            Ok(Code::Read(name.name.clone()?, slot))
        }
        TypedExpr::Element(name, low, high, index) => {
            let index = coded_term(alloc, layout, index)?;
            let slot = layout.slot(name.as_str());
            let index = Box::new(alloc, index)?;
            Ok(Code::Element(name.name.clone()?, slot, *low, *high, index))
        }
        TypedExpr::Unary(operation, of, operand) => {
            let operand = coded_term(alloc, layout, operand)?;
            Ok(Code::Unary(*operation, *of, Box::new(alloc, operand)?))
        }
        TypedExpr::Chain(first, links) => {
            let first = coded_term(alloc, layout, first)?;
            let links = coded_links(alloc, layout, links)?;
            Ok(Code::Chain(Box::new(alloc, first)?, links))
        }
    }
}

// The same of operations behind a first operand.
#[cycle(coding)]
fn coded_links(
    alloc: Global,
    layout: &Layout,
    links: &[TypedLink],
) -> Result<Vec<CodeLink>, AllocError>
    ensures same { IfOk result (λ coded. map code_tail coded.items ≡ map tail_of links.now) }
    ensures slots { IfOk result (λ coded. all_true (map (placed_link layout.now) coded.items) ≡ true) }
{
    let mut coded = Vec::new(alloc);
    for link in links {
        let operand = coded_term(alloc, layout, &link.operand)?;
        coded.push(CodeLink {
            operation: link.operation,
            of_type: link.of_type,
            operand,
        })?;
    }
    Ok(coded)
}
