//! What expressions cost.

ghost use Rattle.std.specs.Prelude.{◌≡◌, map};
ghost use Rattle.st_types.specs.Views.{tail_of, term_of};
ghost use Rattle.fb_words.specs.declared.operator.Operation.TheVariants.{Infix};
ghost use Rattle.fb_prices.specs.Words.{prices_of};
ghost use Rattle.fb_model_work.specs.Spending.{in_term, of_operation};
ghost use Rattle.fb_find_laws.specs.Nodes.{capped};
ghost use Rattle.fb_work_statements.specs.Sums.{linked_work};

use crate::sums::{MANY, added};
use fb_prices::{Prices, Primitive};
use fb_words::{Operation, Operator};
use st_types::{TypedExpr, TypedLink};

// The primitive of an operator.
fn of_operator(operator: Operator) -> Primitive
    ensures { result ≡ of_operation (Infix operator) }
{
    match operator {
        Operator::Plus | Operator::Minus => Primitive::Add,
        Operator::Times => Primitive::Multiply,
        Operator::Over => Primitive::Divide,
        Operator::Modulo => Primitive::Modulo,
        Operator::And | Operator::Or | Operator::Xor => Primitive::Logic,
        Operator::Equal | Operator::NotEqual | Operator::Less => Primitive::Compare,
        Operator::Greater | Operator::LessEqual | Operator::GreaterEqual => Primitive::Compare,
    }
}

// The primitive of an operation.
fn of_operation(operation: Operation) -> Primitive
    ensures { result ≡ of_operation operation }
{
    match operation {
        Operation::Infix(operator) => of_operator(operator),
        Operation::Negate => Primitive::Negate,
        Operation::Not => Primitive::Not,
        Operation::Abs => Primitive::Absolute,
        Operation::Min | Operation::Max | Operation::Limit => Primitive::Extreme,
        Operation::Convert(_, _) => Primitive::Convert,
    }
}

/// What an expression costs, whatever its values are.
#[cycle(expression)]
pub fn expression_work(prices: &Prices, expr: &TypedExpr) -> u64
    ensures { result ≡ capped (in_term (prices_of prices.now) (term_of expr.now)) }
{
    match expr {
        TypedExpr::Constant(_) => added(prices.price(Primitive::Constant), 0),
        TypedExpr::Read(_) => added(prices.price(Primitive::Variable), 0),
        TypedExpr::Element(_, _, _, index) => added(
            prices.price(Primitive::Element),
            expression_work(prices, index),
        ),
        TypedExpr::Unary(operation, _, operand) => added(
            prices.price(of_operation(*operation)),
            expression_work(prices, operand),
        ),
        TypedExpr::Chain(first, links) => {
            links_work(prices, expression_work(prices, first), links)
        }
    }
}

// Operations behind a first operand that costs so much.
#[cycle(expression)]
fn links_work(prices: &Prices, first: u64, links: &[TypedLink]) -> u64
    ensures { result ≡ capped (linked_work (prices_of prices.now) (map tail_of links.now) first) }
{
    let mut all = first.min(MANY);
    for link in links {
        let operand = expression_work(prices, &link.operand);
        all = added(
            prices.price(of_operation(link.operation)),
            added(all, operand),
        );
    }
    all
}
