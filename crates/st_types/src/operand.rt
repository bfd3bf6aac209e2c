//! Operands: what expressions are before something asks them for a type.

ghost use Rattle.std.specs.Prelude.{◌≡◌, [], ◌∷◌, map, Ok};
ghost use Rattle.fb_model.specs.TypedText.{double};
ghost use Rattle.std.specs.List.{list_all};
ghost use Rattle.fb_model.specs.TextTyping.{may_be, is_free, loose_double};
ghost use Rattle.st_types.specs.Answers.{Gives};
ghost use Rattle.st_types.specs.Elaborating.{fixed_type, offered, common, brought, operands_type, constant_of, settled, settled_tails, taken, truth_of, integer_of};
ghost use Rattle.st_types.specs.Views.{term_of, tail_of, loose_of, loose_tail_of, operand_of, operands_of};

use crate::operation::{allows, asks};
use crate::term::{Loose, LooseLink, TypedExpr, TypedLink};
use crate::types::{is_integer, widens};
use fb_faults::TypingFault;
use fb_words::{ElemType, Operation};
use std::alloc::Global;

/// What an expression is before something asks it for a type.
#[derive(Drop)]
pub enum Operand {
    /// An expression of a type.
    Fixed(ElemType, TypedExpr),
    /// An expression of numbers alone, whose type is still free.
    Free(Loose),
    /// A whole array, which nothing may ask for.
    Whole,
}

fn may_be(of: ElemType, operand: &Operand) -> bool
    ensures { result ≡ may_be of (operand_of operand.now) }
{
    match operand {
        Operand::Fixed(own, _) => widens(*own, of),
        Operand::Free(_) => true,
        Operand::Whole => false,
    }
}

fn is_free(operand: &Operand) -> bool
    ensures { result ≡ is_free (operand_of operand.now) }
{
    matches!(operand, Operand::Free(_))
}

fn all_may_be(of: ElemType, operands: &[Operand]) -> bool
    ensures { result ≡ list_all (may_be of) (operands_of operands.now) }
{
    for operand in operands {
        if !may_be(of, operand) {
            return false;
        }
    }
    true
}

fn all_free(operands: &[Operand]) -> bool
    ensures { result ≡ list_all is_free (operands_of operands.now) }
{
    for operand in operands {
        if !is_free(operand) {
            return false;
        }
    }
    true
}

fn fixed_type(operand: &Operand) -> Option<ElemType>
    ensures { result ≡ fixed_type (operand_of operand.now) }
{
    match operand {
        Operand::Fixed(of, _) => Some(*of),
        _ => None,
    }
}

// A type, if all operands may be brought to it.
fn offered(operands: &[Operand], offer: Option<ElemType>) -> Option<ElemType>
    ensures { result ≡ offered (operands_of operands.now) offer }
{
    match offer {
        Some(of) => {
            if all_may_be(of, operands) {
                Some(of)
            } else {
                None
            }
        }
        None => None,
    }
}

// The type of one of the operands to which all of them may be brought.
fn common(operands: &[Operand]) -> Option<ElemType>
    ensures { result ≡ common (operands_of operands.now) (operands_of operands.now) }
{
    for operand in operands {
        if let Some(of) = offered(operands, fixed_type(operand)) {
            return Some(of);
        }
    }
    None
}

fn brought(asked: Option<ElemType>, operands: &[Operand]) -> Option<ElemType>
    ensures { result ≡ brought asked (operands_of operands.now) }
{
    match asked {
        Some(of) => Some(of),
        None => {
            if all_free(operands) {
                Some(ElemType::Lint)
            } else {
                common(operands)
            }
        }
    }
}

/// The type to which an operation at a place brings its operands.
pub(crate) fn operands_type(
    operation: Operation,
    at: usize,
    operands: &[Operand],
) -> Result<ElemType, TypingFault>
    ensures { Gives (λ a. a) result (operands_type operation at (operands_of operands.now)) }
{
    match brought(asks(operation), operands) {
        Some(of) => {
            if allows(operation, of) {
                Ok(of)
            } else {
                Err(TypingFault::TypeMismatch(at))
            }
        }
        None => Err(TypingFault::TypeMismatch(at)),
    }
}

/// A number of a type that has it.
pub(crate) fn constant(of: ElemType, number: i128, at: usize) -> Result<TypedExpr, TypingFault>
    ensures { Gives term_of result (constant_of of number at) }
{
    if !of.fits(number) {
        return Err(TypingFault::BadLiteral(at));
    }
    Ok(TypedExpr::Constant(number as i64))
}

/// A free expression takes a type.
#[cycle(settling)]
fn settled(alloc: Global, of: ElemType, loose: &Loose) -> Result<TypedExpr, TypingFault>
    ensures { Gives term_of result (settled of (loose_of loose.now)) }
{
    match loose {
        Loose::Number(number, at) => constant(of, *number, *at),
        Loose::Unary(operation, at, inner) => {
            if !allows(*operation, of) {
                return Err(TypingFault::TypeMismatch(*at));
            }
            let inner = settled(alloc, of, inner)?;
            Ok(TypedExpr::Unary(*operation, of, Box::new(alloc, inner)?))
        }
        Loose::Chain(first, links) => {
            let first = settled(alloc, of, first)?;
            settled_links(alloc, of, first, links)
        }
    }
}

// Each operation of a chain takes the type, behind a first operand that has it.
#[cycle(settling)]
fn settled_links(
    alloc: Global,
    of: ElemType,
    first: TypedExpr,
    links: &[LooseLink],
) -> Result<TypedExpr, TypingFault>
    ensures { Gives term_of result (settled_tails of (term_of first) (map loose_tail_of links.now)) }
{
    let mut whole = first;
    for link in links {
        if !allows(link.operation, of) {
            return Err(TypingFault::TypeMismatch(link.at));
        }
        let operand = settled(alloc, of, &link.operand)?;
        whole = linked(alloc, whole, link.operation, of, operand)?;
    }
    Ok(whole)
}

/// An operation on two typed operands, as one more link of the first one's chain.
pub(crate) fn linked(
    alloc: Global,
    first: TypedExpr,
    operation: Operation,
    of_type: ElemType,
    operand: TypedExpr,
) -> Result<TypedExpr, TypingFault>
    ensures { Gives term_of result (Ok (double operation of_type (term_of first) (term_of operand))) }
{
    let link = TypedLink {
        operation,
        of_type,
        operand,
    };
    match first {
        TypedExpr::Chain(front, links) => {
            let mut links = links;
            links.push(link)?;
            Ok(TypedExpr::Chain(front, links))
        }
        first => {
            let mut links = Vec::new(alloc);
            links.push(link)?;
            Ok(TypedExpr::Chain(Box::new(alloc, first)?, links))
        }
    }
}

/// An operation on two free operands, as one more link of the first one's chain.
pub(crate) fn loosely_linked(
    alloc: Global,
    first: Loose,
    operation: Operation,
    at: usize,
    operand: Loose,
) -> Result<Loose, TypingFault>
    ensures { Gives loose_of result (Ok (loose_double operation at (loose_of first) (loose_of operand))) }
{
    let link = LooseLink {
        operation,
        at,
        operand,
    };
    match first {
        Loose::Chain(front, links) => {
            let mut links = links;
            links.push(link)?;
            Ok(Loose::Chain(front, links))
        }
        first => {
            let mut links = Vec::new(alloc);
            links.push(link)?;
            Ok(Loose::Chain(Box::new(alloc, first)?, links))
        }
    }
}

/// An operand where a type is asked for, at a place.
pub(crate) fn taken(
    alloc: Global,
    of: ElemType,
    at: usize,
    operand: Operand,
) -> Result<TypedExpr, TypingFault>
    ensures { Gives term_of result (taken of at (operand_of operand)) }
{
    match operand {
        Operand::Fixed(own, expr) => {
            if widens(own, of) {
                Ok(expr)
            } else {
                Err(TypingFault::TypeMismatch(at))
            }
        }
        Operand::Free(loose) => settled(alloc, of, &loose),
        Operand::Whole => Err(TypingFault::TypeMismatch(at)),
    }
}

/// A truth where a place asks for one, which no free operand is.
pub(crate) fn truth(at: usize, operand: Operand) -> Result<TypedExpr, TypingFault>
    ensures { Gives term_of result (truth_of at (operand_of operand)) }
{
    match operand {
        Operand::Fixed(own, expr) => {
            if own == ElemType::Bool {
                Ok(expr)
            } else {
                Err(TypingFault::TypeMismatch(at))
            }
        }
        Operand::Free(_) | Operand::Whole => Err(TypingFault::TypeMismatch(at)),
    }
}

/// An integer and its type where a place asks for one.
pub(crate) fn integer(
    alloc: Global,
    at: usize,
    operand: Operand,
) -> Result<(ElemType, TypedExpr), TypingFault>
    ensures { Gives (λ r. (r.0, term_of r.1)) result (integer_of at (operand_of operand)) }
{
    match operand {
        Operand::Fixed(own, expr) => {
            if is_integer(own) {
                Ok((own, expr))
            } else {
                Err(TypingFault::TypeMismatch(at))
            }
        }
        Operand::Free(loose) => Ok((ElemType::Lint, settled(alloc, ElemType::Lint, &loose)?)),
        Operand::Whole => Err(TypingFault::TypeMismatch(at)),
    }
}
