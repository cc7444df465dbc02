//! Sorts of names and types of values.

ghost use Rattle.std.specs.Prelude.{◌≡◌, ◌&&◌, not, map};
ghost use Rattle.cn_base.specs.declared.tree.Further.{out-Further};
ghost use Rattle.std.specs.List.{list_any};
ghost use Rattle.cat_conditions.specs.Types as spec;
ghost use Rattle.cat_conditions.specs.Plain.{action_of, term_of, further_of, furthers_of};
ghost use Rattle.cat_types.specs.Shown.{shown};
ghost use Rattle.cat_types.specs.Sorts.{sorts};

use crate::names::Names;
use crate::pieces::Piece;
use cat_conditions::{Sort, ValueType, plain_law};
use cn_base::Text;
use cn_base::tree::{Comparison, Expr, Further, Item, Operator, Sign, Stmt};

fn plain_type(sort: Option<Sort>) -> Option<ValueType>
    ensures { result ≡ spec.plain_type sort }
{
    match sort {
        Some(Sort::Int) => Some(ValueType::Int),
        Some(Sort::Bool) => Some(ValueType::Bool),
        _ => None,
    }
}

fn element_type(sort: Option<Sort>) -> Option<ValueType>
    ensures { result ≡ spec.element_type sort }
{
    match sort {
        Some(Sort::Array) => Some(ValueType::Int),
        _ => None,
    }
}

fn operator_type(operator: Operator) -> ValueType
    ensures { result ≡ spec.operator_type operator }
{
    match operator {
        Operator::Or | Operator::And => ValueType::Bool,
        Operator::Add | Operator::Sub | Operator::Mul | Operator::Div | Operator::Rem =>
            ValueType::Int,
    }
}

fn sign_type(sign: Sign) -> ValueType
    ensures { result ≡ spec.sign_type sign }
{
    match sign {
        Sign::Neg => ValueType::Int,
        Sign::Not => ValueType::Bool,
    }
}

fn chain_type(others: &[Further]) -> Option<ValueType>
    ensures { result ≡ spec.chain_type (furthers_of (map further_of others.now)) }
{
    plain_law();
    match others.first() {
        Some(other) => Some(operator_type(other.operator)),
        None => None,
    }
}

fn is_same(a: ValueType, b: ValueType) -> bool
    ensures { result ≡ spec.is_same a b }
{
    match (a, b) {
        (ValueType::Int, ValueType::Int) | (ValueType::Bool, ValueType::Bool) => true,
        (ValueType::Int, ValueType::Bool) | (ValueType::Bool, ValueType::Int) => false,
    }
}

/// Whether they are one type, or one of them is of a name of a wrong sort.
fn agrees(a: Option<ValueType>, b: Option<ValueType>) -> bool
    ensures { result ≡ spec.agrees a b }
{
    match (a, b) {
        (Some(a), Some(b)) => is_same(a, b),
        (None, _) | (_, None) => true,
    }
}

fn is_plain(sort: Option<Sort>) -> bool
    ensures { result ≡ spec.is_plain sort }
{
    match sort {
        Some(Sort::Int) | Some(Sort::Bool) => true,
        _ => false,
    }
}

fn is_array(sort: Option<Sort>) -> bool
    ensures { result ≡ spec.is_array sort }
{
    match sort {
        Some(Sort::Array) => true,
        _ => false,
    }
}

fn is_task(sort: Option<Sort>) -> bool
    ensures { result ≡ spec.is_task sort }
{
    match sort {
        Some(Sort::Task) => true,
        _ => false,
    }
}

fn is_event(sort: Option<Sort>) -> bool
    ensures { result ≡ spec.is_event sort }
{
    match sort {
        Some(Sort::Event) => true,
        _ => false,
    }
}

impl Names<'_> {
    fn type_of(&self, expr: &Expr) -> Option<ValueType>
        ensures { result ≡ spec.type_of (sorts self.now) (term_of expr.now) }
    {
        plain_law();
        match expr {
            Expr::Number(_) | Expr::Payload => Some(ValueType::Int),
            Expr::Truth(_) | Expr::Compare(..) => Some(ValueType::Bool),
            Expr::Name(name) => plain_type(self.sort(name)),
            Expr::Element(name, _) => element_type(self.sort(name)),
            Expr::Signed(sign, _) => Some(sign_type(*sign)),
            Expr::Chain(_, others) => chain_type(others.as_slice()),
        }
    }

    fn is_of(&self, value_type: ValueType, expr: &Expr) -> bool
        ensures { result ≡ spec.is_of (sorts self.now) value_type (term_of expr.now) }
    {
        agrees(Some(value_type), self.type_of(expr))
    }

    /// Whether the operator and its operand are of the chain's type.
    fn further_is_of(&self, value_type: ValueType, other: &Further) -> bool
        ensures { result ≡ (spec.is_same value_type (spec.operator_type (out-Further other.now).operator) && spec.is_of (sorts self.now) value_type (term_of (out-Further other.now).operand)) }
    {
        is_same(value_type, operator_type(other.operator)) && self.is_of(value_type, &other.operand)
    }

    fn furthers_are_of(&self, value_type: ValueType, others: &[Further]) -> bool
        ensures { result ≡ spec.furthers_are_of (sorts self.now) value_type (furthers_of (map further_of others.now)) }
    {
        plain_law();
        for other in others {
            if !self.further_is_of(value_type, other) {
                return false;
            }
        }
        true
    }

    fn agrees_in_chain(&self, first: &Expr, others: &[Further]) -> bool
        ensures { result ≡ spec.agrees_in_chain (sorts self.now) (term_of first.now) (furthers_of (map further_of others.now)) }
    {
        match chain_type(others) {
            Some(value_type) => self.is_of(value_type, first)
                && self.furthers_are_of(value_type, others),
            None => true,
        }
    }

    fn agrees_in_comparison(&self, first: &Expr, comparison: Comparison, second: &Expr) -> bool
        ensures { result ≡ spec.agrees_in_comparison (sorts self.now) (term_of first.now) comparison (term_of second.now) }
    {
        match comparison {
            Comparison::Eq | Comparison::Ne => agrees(self.type_of(first), self.type_of(second)),
            Comparison::Lt | Comparison::Le | Comparison::Gt | Comparison::Ge => {
                self.is_of(ValueType::Int, first) && self.is_of(ValueType::Int, second)
            }
        }
    }

    fn expr_agrees(&self, expr: &Expr) -> bool
        ensures { result ≡ spec.term_agrees (sorts self.now) (term_of expr.now) }
    {
        plain_law();
        match expr {
            Expr::Number(_) | Expr::Truth(_) | Expr::Payload => true,
            Expr::Name(name) => is_plain(self.sort(name)),
            Expr::Element(name, index) => {
                is_array(self.sort(name)) && self.is_of(ValueType::Int, index.get())
            }
            Expr::Signed(sign, operand) => self.is_of(sign_type(*sign), operand.get()),
            Expr::Chain(first, others) => self.agrees_in_chain(first.get(), others.as_slice()),
            Expr::Compare(first, comparison, second) => {
                self.agrees_in_comparison(first.get(), *comparison, second.get())
            }
        }
    }

    fn statement_agrees(&self, statement: &Stmt) -> bool
        ensures { result ≡ spec.action_agrees (sorts self.now) (action_of statement.now) }
    {
        plain_law();
        match statement {
            Stmt::Set(name, value) => {
                let sort = self.sort(name);
                is_plain(sort) && agrees(plain_type(sort), self.type_of(value))
            }
            Stmt::SetAt(name, index, value) => {
                is_array(self.sort(name))
                    && self.is_of(ValueType::Int, index)
                    && self.is_of(ValueType::Int, value)
            }
            Stmt::Out(_, value) => self.is_of(ValueType::Int, value),
            Stmt::Post(name) => is_task(self.sort(name)),
            Stmt::If(test, ..) | Stmt::While(test, _) => self.is_of(ValueType::Bool, test),
            Stmt::Repeat(..) => true,
        }
    }

    fn has_other_than_events(&self, list: &[Text]) -> bool
        ensures { result ≡ list_any (λ x. not (spec.is_event (sorts self.now x))) list.now }
    {
        for name in list {
            if !is_event(self.sort(name)) {
                return true;
            }
        }
        false
    }

    fn item_agrees(&self, item: &Item) -> bool
        ensures { result ≡ spec.item_agrees (sorts self.now) item.now }
    {
        match item {
            Item::Degrade(list) => !self.has_other_than_events(list.as_slice()),
            Item::Start(name) => is_task(self.sort(name)),
            _ => true,
        }
    }

    /// Whether a name of a wrong sort stands in it, or it takes a value of a wrong type.
    pub fn has_wrong_type(&self, piece: &Piece<'_>) -> bool
        ensures { result ≡ spec.has_wrong_type (sorts self.now) (shown piece.now) }
    {
        match piece {
            Piece::Item(item) => !self.item_agrees(item),
            Piece::Statement(_, _, statement) => !self.statement_agrees(statement),
            Piece::Expression(_, expr) => !self.expr_agrees(expr),
        }
    }
}
