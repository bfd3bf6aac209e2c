//! Guards and algorithms.

ghost use Rattle.std.specs.Prelude.{◌≡◌, ℕ, List, [], IfOk};
ghost use Rattle.fb_model.specs.Names.{Name};
ghost use Rattle.fb_model.specs.StructuredText.{Expression, Statements};
ghost use Rattle.fb_model.specs.TypedText.{Term, Commands};
ghost use Rattle.fb_model.specs.TextTyping.{Symbol, IsAsked, IsCondition, AreCommands};
ghost use Rattle.fb_model.specs.TextFaults.{Fault, IsNotAsked, IsNoCondition, SomeMisdone};
ghost use Rattle.fb_tree.specs.Algorithms.{expr_of, body_of};
ghost use Rattle.st_types.specs.Answers.{Finds, Refuses};
ghost use Rattle.st_types.specs.Views.{term_of, entries};
ghost use Rattle.st_types.specs.CommandViews.{commands_of};

use crate::command::TypedStmt;
use crate::expression::{asked, condition};
use crate::scope::Scope;
use crate::statement::commands;
use crate::term::TypedExpr;
use fb_faults::TypingFault;
use fb_tree::{Expr, Stmt};
use fb_words::ElemType;
use std::alloc::Global;

/// A typed algorithm: its statements, in order.
#[derive(Drop)]
pub struct Algo {
    pub statements: Vec<TypedStmt>,
}

/// The typed form of an expression where a type is asked for at a place.
///
/// Refused with `UnknownName` at a name that stands for no variable or function, `TypeMismatch` at the operator, function or `[` that
/// is not given the type that it asks for, or at the place itself, and `BadLiteral` at a literal that does not fit its type.
pub fn resolve_expr(
    alloc: Global,
    scope: &Scope,
    of: ElemType,
    at: usize,
    expr: &Expr,
) -> Result<TypedExpr, TypingFault>
    ensures found { IfOk result (λ x. IsAsked (entries scope.now) of (expr_of expr.now) (term_of x)) }
    ensures only { (x : Term) → IsAsked (entries scope.now) of (expr_of expr.now) x → Finds term_of result x }
    ensures refused { Refuses (IsNotAsked (entries scope.now) of at (expr_of expr.now)) result }
{
    asked(alloc, scope, of, at, expr)
}

/// The typed form of a condition at a place, as a guard: an expression that is BOOL by itself.
///
/// Refused as `resolve_expr`; with `TypeMismatch` at the place also where the expression is of numbers alone, which nothing there gives a
/// type.
pub fn resolve_condition(
    alloc: Global,
    scope: &Scope,
    at: usize,
    expr: &Expr,
) -> Result<TypedExpr, TypingFault>
    ensures found { IfOk result (λ x. IsCondition (entries scope.now) (expr_of expr.now) (term_of x)) }
    ensures only { (x : Term) → IsCondition (entries scope.now) (expr_of expr.now) x → Finds term_of result x }
    ensures refused { Refuses (IsNoCondition (entries scope.now) at (expr_of expr.now)) result }
{
    condition(alloc, scope, at, expr)
}

/// The typed form of an algorithm.
///
/// Refused as `resolve_expr`; with `NotWritable` at a variable that may not be assigned, as an input or the variable of a FOR in its
/// body; with `TypeMismatch` also at an IF, ELSIF, CASE, FOR or `:=`; and with `BadLiteral` also at a label that does not fit the
/// selector's type, and at a step that is 0 or does not fit.
pub fn resolve_algorithm(alloc: Global, scope: &Scope, list: &[Stmt]) -> Result<Algo, TypingFault>
    ensures found { IfOk result (λ x. AreCommands (entries scope.now) [] (body_of list.now) (commands_of x.statements.items)) }
    ensures only { (x : Commands) → AreCommands (entries scope.now) [] (body_of list.now) x → Finds (λ x. commands_of x.statements.items) result x }
    ensures refused { Refuses (SomeMisdone (entries scope.now) [] (body_of list.now)) result }
{
    let statements = commands(alloc, scope, &[], list)?;
    Ok(Algo { statements })
}

/// An expression has one typed form at most where a type is asked for, and so has a condition.
pub fn one_term()
    ensures asked { (env : List Symbol) (a : ElemType) (e : Expression) (x y : Term) → IsAsked env a e x → IsAsked env a e y → x ≡ y }
    ensures conditions { (env : List Symbol) (e : Expression) (x y : Term) → IsCondition env e x → IsCondition env e y → x ≡ y }
{}

/// Statements have one typed form at most.
pub fn one_algorithm()
    ensures { (env : List Symbol) (busy : List Name) (xs : Statements) (x y : Commands) → AreCommands env busy xs x → AreCommands env busy xs y → x ≡ y }
{}

/// What is well typed has no fault that a refusal could name.
pub fn refusals_are_true()
    ensures expressions { (env : List Symbol) (a : ElemType) (s : ℕ) (e : Expression) (x : Term) (w : Fault) → IsAsked env a e x → IsNotAsked env a s e w → ⊥ }
    ensures conditions { (env : List Symbol) (s : ℕ) (e : Expression) (x : Term) (w : Fault) → IsCondition env e x → IsNoCondition env s e w → ⊥ }
    ensures statements { (env : List Symbol) (busy : List Name) (xs : Statements) (c : Commands) (w : Fault) → AreCommands env busy xs c → SomeMisdone env busy xs w → ⊥ }
{}
