//! How many operands and instructions statements have. A number past a limit of its own stands for all
//! greater ones, so none overflows.

ghost use Rattle.std.specs.Prelude.{◌≡◌, ◌+◌, ◌*◌, ◌<◌, ◌≤◌, ◌^◌, min, max, length, map};
ghost use Rattle.cat_conditions.specs.Counts as spec;
ghost use Rattle.cat_conditions.specs.Plain.{action_of, term_of, further_of, furthers_of, block_of};
ghost use Rattle.cat_types.specs.Capped.{capped};

use cat_conditions::plain_law;
use cn_base::tree::{Expr, Further, Stmt};

/// One more than each limit.
pub const MANY: u32 = 1_000_001;

pub fn add(a: u32, b: u32) -> u32
    requires small { (a ≤ 1000001) × (b ≤ 1000001) }
    ensures { result ≡ capped (a + b) }
{
    (a + b).min(MANY)
}

fn larger(a: u32, b: u32) -> u32
    ensures { result ≡ max a b }
{
    if a < b { b } else { a }
}

/// How many instructions an expression has.
#[cycle(expr)]
pub fn size(expr: &Expr) -> u32
    ensures { result ≡ capped (spec.size (term_of expr.now)) }
{
    plain_law();
    match expr {
        Expr::Number(_) | Expr::Truth(_) | Expr::Payload | Expr::Name(_) => 1,
        Expr::Element(_, index) => add(size(index.get()), 1),
        Expr::Signed(_, operand) => add(size(operand.get()), 1),
        Expr::Chain(first, others) => add(size(first.get()), further_size(others.as_slice())),
        Expr::Compare(first, _, second) => add(add(size(first.get()), size(second.get())), 1),
    }
}

#[cycle(expr)]
fn further_size(others: &[Further]) -> u32
    ensures { result ≡ capped (spec.further_size (furthers_of (map further_of others.now))) }
{
    plain_law();
    let mut sum = 0;
    for other in others {
        sum = add(sum, add(size(&other.operand), 1));
    }
    sum
}

/// How many operands an expression needs at once.
#[cycle(need)]
pub fn need(expr: &Expr) -> u32
    ensures { result ≡ capped (spec.need (term_of expr.now)) }
{
    plain_law();
    match expr {
        Expr::Number(_) | Expr::Truth(_) | Expr::Payload | Expr::Name(_) => 1,
        Expr::Element(_, index) => need(index.get()),
        Expr::Signed(_, operand) => need(operand.get()),
        Expr::Chain(first, others) => larger(need(first.get()), further_need(others.as_slice())),
        Expr::Compare(first, _, second) => larger(need(first.get()), add(need(second.get()), 1)),
    }
}

#[cycle(need)]
fn further_need(others: &[Further]) -> u32
    ensures { result ≡ capped (spec.further_need (furthers_of (map further_of others.now))) }
{
    plain_law();
    let mut most = 0;
    for other in others {
        most = larger(most, add(need(&other.operand), 1));
    }
    most
}

/// How many operands a statement needs by itself.
pub fn statement_need(statement: &Stmt) -> u32
    ensures { result ≡ capped (spec.action_need (action_of statement.now)) }
{
    plain_law();
    match statement {
        Stmt::Set(_, value) | Stmt::Out(_, value) => need(value),
        Stmt::SetAt(_, index, value) => larger(need(index), add(need(value), 1)),
        Stmt::Post(_) => 0,
        Stmt::If(test, ..) | Stmt::While(test, _) => need(test),
        Stmt::Repeat(..) => 1,
    }
}

/// How many instructions the code of a statement has.
#[cycle(size)]
fn statement_size(statement: &Stmt) -> u32
    ensures { result ≡ capped (spec.action_size (action_of statement.now)) }
{
    plain_law();
    match statement {
        Stmt::Set(_, value) | Stmt::Out(_, value) => add(size(value), 1),
        Stmt::SetAt(_, index, value) => add(add(size(index), size(value)), 1),
        Stmt::Post(_) => 1,
        Stmt::If(test, first, second) => {
            let first = add(add(size(test), 1), block_size(first.as_slice()));
            match second {
                Some(second) => add(first, add(1, block_size(second.as_slice()))),
                None => first,
            }
        }
        Stmt::While(test, body) => add(add(size(test), block_size(body.as_slice())), 2),
        Stmt::Repeat(_, body) => add(block_size(body.as_slice()), 3),
    }
}

#[cycle(size)]
pub fn block_size(block: &[Stmt]) -> u32
    ensures { result ≡ capped (spec.block_size (block_of block.now)) }
{
    let mut sum = 0;
    for statement in block {
        sum = add(sum, statement_size(statement));
    }
    sum
}

/// The instructions of all turns of a `repeat` whose body has so many.
fn turns_run(count: u32, body: u32) -> u32
    requires { body ≤ 1000001 }
    ensures { result ≡ capped (1 + (count + 1) + count + count * body) }
{
    let count = count as u64;
    (2 + 2 * count + count * body as u64).min(MANY as u64) as u32
}

/// The greatest count of instructions that one run of a statement has.
#[cycle(run)]
fn statement_run(statement: &Stmt) -> u32
    ensures { result ≡ capped (spec.action_run (action_of statement.now)) }
{
    plain_law();
    match statement {
        Stmt::Set(_, value) | Stmt::Out(_, value) => add(size(value), 1),
        Stmt::SetAt(_, index, value) => add(add(size(index), size(value)), 1),
        Stmt::Post(_) => 1,
        Stmt::If(test, first, second) => {
            let test = add(size(test), 1);
            let first = block_run(first.as_slice());
            match second {
                Some(second) => add(test, larger(add(first, 1), block_run(second.as_slice()))),
                None => add(test, first),
            }
        }
        Stmt::While(test, _) => add(size(test), 1),
        Stmt::Repeat(count, body) => turns_run(*count, block_run(body.as_slice())),
    }
}

#[cycle(run)]
pub fn block_run(block: &[Stmt]) -> u32
    ensures { result ≡ capped (spec.block_run (block_of block.now)) }
{
    let mut sum = 0;
    for statement in block {
        sum = add(sum, statement_run(statement));
    }
    sum
}
