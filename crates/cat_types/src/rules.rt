//! Pieces that offend by themselves.

ghost use Rattle.std.specs.Prelude.{◌≡◌, ◌<◌, ◌^◌, nat_lt, length};
ghost use Rattle.cat_conditions.specs.Local as spec;
ghost use Rattle.cat_conditions.specs.Counts as counts;
ghost use Rattle.std.specs.List.{list_any};
ghost use Rattle.cat_conditions.specs.Plain.{action_of, term_of};
ghost use Rattle.cat_types.specs.Shown.{shown, all_shown};
ghost use Rattle.cat_conditions.specs.Offences.{At, Finds};
ghost use Rattle.cat_types.specs.Rules.{is_broken};

use crate::pieces::Piece;
use crate::sizes;
use cat_conditions::plain_law;
use cn_base::tree::{Expr, Item, Stmt, Timing};
use sqlite_items::Items;

/// A condition that a piece breaks by itself.
#[derive(Clone, Copy)]
pub enum Rule {
    NumbersInRange,
    FewVersions,
    NoWhileInEvents,
    NoRepeatInTasks,
    NoPayloadInTasks,
    DeadlinesInTime,
    OperandsFit,
    HandlersShort,
}

impl Rule {
    fn is_broken_by(self, piece: &Piece<'_>) -> bool
        ensures { result ≡ is_broken self (shown piece.now) }
    {
        match self {
            Rule::NumbersInRange => is_out_of_range(piece),
            Rule::FewVersions => has_many_versions(piece),
            Rule::NoWhileInEvents => is_event_loop(piece),
            Rule::NoRepeatInTasks => is_task_turns(piece),
            Rule::NoPayloadInTasks => is_task_payload(piece),
            Rule::DeadlinesInTime => is_late(piece),
            Rule::OperandsFit => needs_too_many(piece),
            Rule::HandlersShort => runs_too_long(piece),
        }
    }

    /// The place of the first piece that breaks it.
    pub fn first_broken(self, pieces: &[Piece<'_>]) -> Option<u32>
        requires { length pieces.now < 2 ^ 32 }
        ensures { Finds (length pieces.now) (At (is_broken self) (all_shown pieces.now)) result }
    {
        for (place, piece) in pieces.iter().enumerate() {
            if self.is_broken_by(piece) {
                return Some(place as u32);
            }
        }
        None
    }
}

fn is_within(n: u32, low: u32, high: u32) -> bool
    ensures { result ≡ spec.is_within low high n }
{
    low <= n && n <= high
}

fn has_timing_in_range(timing: Timing) -> bool
    ensures { result ≡ spec.has_timing_in_range timing }
{
    match timing {
        Timing::Every(period, offset) => is_within(period, 1, 1_000_000) && offset <= 1_000_000,
        Timing::Spacing(least) => is_within(least, 1, 1_000_000),
    }
}

fn has_item_in_range(item: &Item) -> bool
    ensures { result ≡ spec.has_item_in_range item.now }
{
    match item {
        Item::Array(_, len) => is_within(*len, 1, 1_024),
        Item::Event(_, timing, deadline, _) => {
            has_timing_in_range(*timing) && is_within(*deadline, 1, 1_000_000)
        }
        _ => true,
    }
}

fn has_statement_in_range(statement: &Stmt) -> bool
    ensures { result ≡ spec.has_action_in_range (action_of statement.now) }
{
    plain_law();
    match statement {
        Stmt::Out(channel, _) => *channel <= 255,
        Stmt::Repeat(count, _) => *count <= 1_000,
        Stmt::Set(..) | Stmt::SetAt(..) | Stmt::Post(_) | Stmt::If(..) | Stmt::While(..) => true,
    }
}

fn is_out_of_range(piece: &Piece<'_>) -> bool
    ensures { result ≡ spec.is_out_of_range (shown piece.now) }
{
    match piece {
        Piece::Item(item) => !has_item_in_range(item),
        Piece::Statement(_, _, statement) => !has_statement_in_range(statement),
        Piece::Expression(..) => false,
    }
}

fn has_many_versions(piece: &Piece<'_>) -> bool
    ensures { result ≡ spec.has_many_versions (shown piece.now) }
{
    match piece {
        Piece::Item(Item::Event(_, _, _, versions)) => versions.len() > 4,
        _ => false,
    }
}

fn is_while(statement: &Stmt) -> bool
    ensures { result ≡ spec.is_loop (action_of statement.now) }
{
    plain_law();
    match statement {
        Stmt::While(..) => true,
        Stmt::Set(..) | Stmt::SetAt(..) | Stmt::Out(..) | Stmt::Post(_) | Stmt::If(..) => false,
        Stmt::Repeat(..) => false,
    }
}

fn is_repeat(statement: &Stmt) -> bool
    ensures { result ≡ spec.is_turns (action_of statement.now) }
{
    plain_law();
    match statement {
        Stmt::Repeat(..) => true,
        Stmt::Set(..) | Stmt::SetAt(..) | Stmt::Out(..) | Stmt::Post(_) | Stmt::If(..) => false,
        Stmt::While(..) => false,
    }
}

fn is_payload(expr: &Expr) -> bool
    ensures { result ≡ spec.is_payload (term_of expr.now) }
{
    plain_law();
    match expr {
        Expr::Payload => true,
        Expr::Number(_) | Expr::Truth(_) | Expr::Name(_) | Expr::Element(..) => false,
        Expr::Signed(..) | Expr::Chain(..) | Expr::Compare(..) => false,
    }
}

fn least_gap(timing: Timing) -> u32
    ensures { result ≡ spec.least_gap timing }
{
    match timing {
        Timing::Every(period, _) => period,
        Timing::Spacing(least) => least,
    }
}

/// Whether it is a `while` in an event.
fn is_event_loop(piece: &Piece<'_>) -> bool
    ensures { result ≡ spec.is_event_loop (shown piece.now) }
{
    match piece {
        Piece::Statement(in_event, _, statement) => *in_event && is_while(statement),
        Piece::Item(_) | Piece::Expression(..) => false,
    }
}

/// Whether it is a `repeat` in a task.
fn is_task_turns(piece: &Piece<'_>) -> bool
    ensures { result ≡ spec.is_task_turns (shown piece.now) }
{
    match piece {
        Piece::Statement(in_event, _, statement) => !*in_event && is_repeat(statement),
        Piece::Item(_) | Piece::Expression(..) => false,
    }
}

/// Whether it is `payload` in a task.
fn is_task_payload(piece: &Piece<'_>) -> bool
    ensures { result ≡ spec.is_task_payload (shown piece.now) }
{
    match piece {
        Piece::Expression(in_event, expr) => !*in_event && is_payload(expr),
        Piece::Item(_) | Piece::Statement(..) => false,
    }
}

/// Whether it is an event whose deadline exceeds its period or spacing.
fn is_late(piece: &Piece<'_>) -> bool
    ensures { result ≡ spec.is_late (shown piece.now) }
{
    match piece {
        Piece::Item(Item::Event(_, timing, deadline, _)) => least_gap(*timing) < *deadline,
        _ => false,
    }
}

/// Whether it is a statement that needs more operands than the repeats around it leave.
fn needs_too_many(piece: &Piece<'_>) -> bool
    ensures { result ≡ counts.needs_too_many (shown piece.now) }
{
    match piece {
        Piece::Statement(_, room, statement) => (*room as u32) < sizes::statement_need(statement),
        Piece::Item(_) | Piece::Expression(..) => false,
    }
}

fn has_long_version(versions: &[Items<Stmt>]) -> bool
    ensures { result ≡ list_any (λ version. nat_lt 1000000 (counts.version_run version)) versions.now }
{
    for version in versions {
        if sizes::block_run(version.as_slice()) >= 1_000_000 {
            return true;
        }
    }
    false
}

/// Whether it is an event with a version that may run too many instructions.
fn runs_too_long(piece: &Piece<'_>) -> bool
    ensures { result ≡ counts.runs_too_long (shown piece.now) }
{
    match piece {
        Piece::Item(Item::Event(_, _, _, versions)) => has_long_version(versions.as_slice()),
        _ => false,
    }
}
