//! Expressions with their names resolved.

ghost use Rattle.std.specs.Prelude.{◌≡◌, IfOk, OnOk, map};
ghost use Rattle.cat_conditions.specs.Plain.{term_of, furthers_of, further_of};
ghost use Rattle.cat_resolve.specs.Form as Formula;
ghost use Rattle.cat_resolve.specs.Form.{form, operands_of, with_operand};
ghost use Rattle.cat_resolve.specs.Meanings.{meanings};
ghost use Rattle.cat_resolve.specs.Resolved as spec;

use crate::names::{Meaning, Names};
use cat_conditions::plain_law;
use cat_program::{Expr, Further, Operator, Sign};
use cn_base::tree;
use std::alloc::{AllocError, Global};

fn operator(operator: tree::Operator) -> Operator
    ensures { result ≡ spec.operator_of operator }
{
    match operator {
        tree::Operator::Or => Operator::Or,
        tree::Operator::And => Operator::And,
        tree::Operator::Add => Operator::Add,
        tree::Operator::Sub => Operator::Sub,
        tree::Operator::Mul => Operator::Mul,
        tree::Operator::Div => Operator::Div,
        tree::Operator::Rem => Operator::Rem,
    }
}

fn comparison(comparison: tree::Comparison) -> Operator
    ensures { result ≡ spec.comparison_of comparison }
{
    match comparison {
        tree::Comparison::Eq => Operator::Eq,
        tree::Comparison::Ne => Operator::Ne,
        tree::Comparison::Lt => Operator::Lt,
        tree::Comparison::Le => Operator::Le,
        tree::Comparison::Gt => Operator::Gt,
        tree::Comparison::Ge => Operator::Ge,
    }
}

fn sign(sign: tree::Sign) -> Sign
    ensures { result ≡ spec.sign_of sign }
{
    match sign {
        tree::Sign::Neg => Sign::Neg,
        tree::Sign::Not => Sign::Not,
    }
}

fn number(number: u32) -> Expr
    ensures { form result ≡ spec.number_form number }
{
    Expr::Number(number.cast_signed())
}

/// `true` is 1, `false` is 0.
fn truth(truth: bool) -> Expr
    ensures { form result ≡ spec.truth_form truth }
{
    if truth {
        Expr::Number(1)
    } else {
        Expr::Number(0)
    }
}

fn variable(names: &Names, name: &str) -> Expr
    ensures { form result ≡ spec.name_form (meanings names.now name.now) }
{
    match names.get(name) {
        Some(Meaning::Word(word)) => Expr::Word(word),
        _ => Expr::Word(0),
    }
}

fn element(alloc: Global, names: &Names, name: &str, index: Expr) -> Result<Expr, AllocError>
    ensures { IfOk result (λ e. form e ≡ spec.element_form (meanings names.now name.now) (form index)) }
{
    let (base, len) = match names.get(name) {
        Some(Meaning::Array { base, len }) => (base, len),
        _ => (0, 0),
    };
    let index = Box::new(alloc, index)?;
    Ok(Expr::Element { base, len, index })
}

fn signed(alloc: Global, sign: Sign, operand: Expr) -> Result<Expr, AllocError>
    ensures { IfOk result (λ e. form e ≡ Formula.signed sign (form operand)) }
{
    let operand = Box::new(alloc, operand)?;
    Ok(Expr::Signed { sign, operand })
}

fn add(rest: &mut Vec<Further>, operator: Operator, operand: Expr) -> Result<(), AllocError>
    ensures { OnOk result (operands_of rest.new.items ≡ with_operand (operands_of rest.old.items) operator (form operand)) }
{
    rest.push(Further { operator, operand })?;
    Ok(())
}

fn chained(alloc: Global, first: Expr, rest: Vec<Further>) -> Result<Expr, AllocError>
    ensures { IfOk result (λ e. form e ≡ Formula.chain (form first) (operands_of rest.items)) }
{
    let first = Box::new(alloc, first)?;
    Ok(Expr::Chain { first, rest })
}

/// A comparison is a chain with one further operand.
fn compared(
    alloc: Global,
    first: Expr,
    operator: Operator,
    second: Expr,
) -> Result<Expr, AllocError>
    ensures { IfOk result (λ e. form e ≡ spec.compared (form first) operator (form second)) }
{
    let mut rest = Vec::new(alloc);
    add(&mut rest, operator, second)?;
    chained(alloc, first, rest)
}

/// An expression of a source with its names resolved.
#[cycle(expr)]
pub fn expression(alloc: Global, names: &Names, source: &tree::Expr) -> Result<Expr, AllocError>
    ensures { IfOk result (λ e. form e ≡ spec.formula_of (meanings names.now) (term_of source.now)) }
{
    plain_law();
    match source {
        tree::Expr::Number(n) => Ok(number(*n)),
        tree::Expr::Truth(is_true) => Ok(truth(*is_true)),
        tree::Expr::Payload => Ok(Expr::Payload),
        tree::Expr::Name(name) => Ok(variable(names, name.as_str())),
        tree::Expr::Element(name, index) => {
            let index = expression(alloc, names, index.get())?;
            element(alloc, names, name.as_str(), index)
        }
        tree::Expr::Signed(mark, operand) => {
            let operand = expression(alloc, names, operand.get())?;
            signed(alloc, sign(*mark), operand)
        }
        tree::Expr::Chain(first, others) => {
            let first = expression(alloc, names, first.get())?;
            let rest = operands(alloc, names, others.as_slice())?;
            chained(alloc, first, rest)
        }
        tree::Expr::Compare(first, c, second) => {
            let first = expression(alloc, names, first.get())?;
            let second = expression(alloc, names, second.get())?;
            compared(alloc, first, comparison(*c), second)
        }
    }
}

/// The further operands of a chain.
#[cycle(expr)]
fn operands(
    alloc: Global,
    names: &Names,
    source: &[tree::Further],
) -> Result<Vec<Further>, AllocError>
    ensures { IfOk result (λ r. operands_of r.items ≡ spec.operands_from (meanings names.now) (furthers_of (map further_of source.now))) }
{
    plain_law();
    let mut rest = Vec::new(alloc);
    for other in source {
        let operand = expression(alloc, names, &other.operand)?;
        add(&mut rest, operator(other.operator), operand)?;
    }
    Ok(rest)
}
