//! Room: language. Tokens to expressions and algorithms of Structured Text.
//! `parse_expr` and `parse_algorithm` answer exactly the tree that the grammar gives to the tokens, expressions nested at most 64 deep and statements 32;
//! no tokens are two trees (`one_expression`, `one_algorithm`), and a refusal with Syntax or TooDeep is true at its place.
#![tactic(auto)]

mod algorithm;
mod constant;
mod label;
mod operator;
mod reading;
mod statement;
mod whole;

pub use algorithm::{body, one_algorithm, parse_algorithm};
pub use constant::{literal, number};
pub use fb_tree::{Arm, Bound, Branch, Constant, Expr, Label, Link, Literal, Stmt};
pub use label::integer;
pub use operator::Role;
pub use reading::expression;
pub use whole::{one_expression, parse_expr};
