//! Trees as short text: `A@7` is the name A whose first byte is the seventh behind the text's beginning, and so is `5@7` a number.

use fb_lex::{Kind, Token};
use fb_tree::{Arm, Branch, Constant, Expr, Label, Link, Literal, Name, Stmt};
use fb_words::Operator;
use fbr_places::Writing;

// A literal: a TIME is in milliseconds.
fn literal(out: &mut Writing, value: Literal) {
    let (of_type, mark, negative, size) = match value {
        Literal::Whole(negative, size) => ("", "", negative, size),
        Literal::Typed(of, negative, size) => (of.name(), "#", negative, size),
        Literal::Duration(negative, size) => ("T", "#", negative, size),
        Literal::Truth(true) => {
            out.put("true");
            return;
        }
        Literal::Truth(false) => {
            out.put("false");
            return;
        }
    };
    let sign = if negative { "-" } else { "" };
    out.put(of_type);
    out.put(mark);
    out.put(sign);
    out.show(&size);
}

/// A token and the bytes that it takes.
pub fn token(out: &mut Writing, token: &Token) {
    match &token.kind {
        Kind::Name(text) => {
            out.put("name ");
            out.put(text.as_str())
        }
        Kind::Number(size) => literal(out, Literal::Whole(false, *size)),
        Kind::Typed(of, negative, size) => literal(out, Literal::Typed(*of, *negative, *size)),
        Kind::Duration(negative, size) => literal(out, Literal::Duration(*negative, *size)),
        Kind::Mark(mark) => {
            out.put("mark ");
            out.put(mark.sign());
            out.put(mark.word())
        }
    }
    out.put(" @");
    out.show(&token.start);
    out.put("..");
    out.show(&token.end);
    out.put("\n");
}

/// A word, the place where it stands, and a space.
pub fn spot(out: &mut Writing, word: &str, at: usize) {
    out.put(word);
    out.put("@");
    out.show(&at);
    out.put(" ");
}

/// A name and its place.
pub fn name(out: &mut Writing, name: &Name) {
    out.put(name.text.as_str());
    out.put("@");
    out.show(&name.at);
}

/// A literal and its place.
pub fn constant(out: &mut Writing, constant: Constant) {
    literal(out, constant.value);
    out.put("@");
    out.show(&constant.at);
}

// How an operator is written behind a space.
fn sign(operator: Operator) -> &'static str {
    match operator {
        Operator::Or => " OR",
        Operator::Xor => " XOR",
        Operator::And => " AND",
        Operator::Equal => " =",
        Operator::NotEqual => " <>",
        Operator::Less => " <",
        Operator::Greater => " >",
        Operator::LessEqual => " <=",
        Operator::GreaterEqual => " >=",
        Operator::Plus => " +",
        Operator::Minus => " -",
        Operator::Times => " *",
        Operator::Over => " /",
        Operator::Modulo => " MOD",
    }
}

/// An expression. Operators of one level stand in one pair of parentheses, an operand of a sign in one of its own.
#[cycle(expression)]
pub fn expression(out: &mut Writing, expr: &Expr) {
    match expr {
        Expr::Literal(value) => constant(out, *value),
        Expr::Variable(variable) => name(out, variable),
        Expr::Element(array, at, index) => {
            name(out, array);
            spot(out, "[", *at);
            expression(out, index);
            out.put("]")
        }
        Expr::Call(function, arguments) => {
            name(out, function);
            out.put("(");
            each(out, arguments);
            out.put(" )")
        }
        Expr::Negative(at, operand) => {
            spot(out, "(-", *at);
            expression(out, operand);
            out.put(")")
        }
        Expr::Inverse(at, operand) => {
            spot(out, "(NOT", *at);
            expression(out, operand);
            out.put(")")
        }
        Expr::Chain(first, links) => {
            out.put("(");
            expression(out, first);
            chain(out, links);
            out.put(")")
        }
    }
}

// Expressions, each behind a space.
#[cycle(expression)]
fn each(out: &mut Writing, list: &[Expr]) {
    for item in list {
        out.put(" ");
        expression(out, item);
    }
}

// Operators with their second operands.
#[cycle(expression)]
fn chain(out: &mut Writing, links: &[Link]) {
    for link in links {
        spot(out, sign(link.operator), link.at);
        expression(out, &link.operand);
    }
}

/// Statements in braces, each behind a space.
#[cycle(statement)]
pub fn statements(out: &mut Writing, list: &[Stmt]) {
    out.put("{");
    for statement in list {
        out.put(" ");
        one(out, statement);
        out.put(";");
    }
    out.put(" }");
}

#[cycle(statement)]
fn one(out: &mut Writing, statement: &Stmt) {
    match statement {
        Stmt::Assign(variable, at, value) => {
            name(out, variable);
            spot(out, " :=", *at);
            expression(out, value)
        }
        Stmt::AssignElement(array, open, index, at, value) => {
            name(out, array);
            spot(out, "[", *open);
            expression(out, index);
            spot(out, "] :=", *at);
            expression(out, value)
        }
        Stmt::If(branches, rest) => {
            conditions(out, branches);
            statements(out, rest)
        }
        Stmt::Case(at, selector, arms, rest) => {
            spot(out, "CASE", *at);
            expression(out, selector);
            choices(out, arms);
            out.put(" ELSE ");
            statements(out, rest)
        }
        Stmt::For(at, variable, first, last, step, body) => {
            spot(out, "FOR", *at);
            name(out, variable);
            out.put(" := ");
            expression(out, &first.value);
            out.put(" TO ");
            expression(out, &last.value);
            if let Some(step) = step {
                out.put(" BY ");
                constant(out, *step);
            }
            out.put(" ");
            statements(out, body)
        }
    }
}

// The conditions of an IF, up to its ELSE.
#[cycle(statement)]
fn conditions(out: &mut Writing, branches: &[Branch]) {
    for branch in branches {
        spot(out, "IF", branch.at);
        expression(out, &branch.condition);
        out.put(" ");
        statements(out, &branch.body);
        out.put(" ELSE ");
    }
}

// The labels of an arm, each behind a space.
fn labels(out: &mut Writing, list: &[Label]) {
    for label in list {
        out.put(" ");
        constant(out, label.low);
        if let Some(high) = label.high {
            out.put("..");
            constant(out, high);
        }
    }
}

// The arms of a CASE.
#[cycle(statement)]
fn choices(out: &mut Writing, arms: &[Arm]) {
    for arm in arms {
        labels(out, &arm.labels);
        out.put(": ");
        statements(out, &arm.body);
    }
}
