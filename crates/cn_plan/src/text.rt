//! The lines of a plan: of the least harvest, and why it is the least.

ghost use Rattle.std.specs.Prelude.{◌≡◌, ◌∷◌, ◌++◌, [], codes};
ghost use Rattle.cn_base.specs.Causes.{HasCause};
ghost use Rattle.cn_base.specs.PageWords.{AddsTo, sink_in, sink_name};
ghost use Rattle.cn_base.specs.Writing.{Writes};
ghost use Rattle.degradation.specs.Choice.{Suits};
ghost use Rattle.cn_plan.specs.Least.{SuitsLeast};
ghost use Rattle.cn_base.specs.Texts.{line};
ghost use Rattle.cn_report.specs.Report.{chosen_text};
ghost use Rattle.cn_plan.specs.Plan.{verdict_line, harvest_line, below_line, found_text, plan_text};

use crate::answer::Least;
use cat_program::Program;
use cn_base::{Page, Piece, Sink, WriteFail};
use cn_report::add_chosen;
use degradation::Chosen;
use feasibility::Verdict;
use itoa::Buffer;

/// Adds a line of words behind `front` that ends with both sides of an inequality. All parts are spelled already.
fn add_sides<'a, K: Sink>(
    page: &mut Page<'_, K>,
    front: &'a [u8],
    name: &'a [u8],
    left: &'a [u8],
    right: &'a [u8],
) -> Result<(), WriteFail>
    ensures same_sink { sink_name page.new ≡ sink_name page.old }
    ensures text { AddsTo K.written page.old page.new (line (front.now ∷ name.now ∷ left.now ∷ right.now ∷ [])) result }
    ensures cause { HasCause (K.faults (sink_in page.old)) (K.faults (sink_in page.new)) result }
{
    page.line(&[
        Piece::Text(front),
        Piece::Text(b" "),
        Piece::Text(name),
        Piece::Text(b" "),
        Piece::Text(left),
        Piece::Text(b" "),
        Piece::Text(right),
        Piece::Text(b"\n"),
    ])
}

/// Adds the line of the inequality on time.
fn add_late<'a, K: Sink>(
    page: &mut Page<'_, K>,
    front: &'a [u8],
    length: &'a [u8],
    left: &'a [u8],
    right: &'a [u8],
) -> Result<(), WriteFail>
    ensures same_sink { sink_name page.new ≡ sink_name page.old }
    ensures text { AddsTo K.written page.old page.new (line (front.now ∷ codes "F3" ∷ length.now ∷ left.now ∷ right.now ∷ [])) result }
    ensures cause { HasCause (K.faults (sink_in page.old)) (K.faults (sink_in page.new)) result }
{
    page.line(&[
        Piece::Text(front),
        Piece::Text(b" F3 "),
        Piece::Text(length),
        Piece::Text(b" "),
        Piece::Text(left),
        Piece::Text(b" "),
        Piece::Text(right),
        Piece::Text(b"\n"),
    ])
}

/// Adds which inequality fails, with both sides, behind other words. A set that is feasible has no such words.
fn add_verdict<'a, K: Sink>(
    page: &mut Page<'_, K>,
    front: &'a [u8],
    verdict: Verdict,
) -> Result<(), WriteFail>
    ensures same_sink { sink_name page.new ≡ sink_name page.old }
    ensures text { AddsTo K.written page.old page.new (verdict_line front.now verdict) result }
    ensures cause { HasCause (K.faults (sink_in page.old)) (K.faults (sink_in page.new)) result }
{
    let mut first = Buffer::new();
    let mut second = Buffer::new();
    let mut third = Buffer::new();
    match verdict {
        Verdict::Yes => page.line(&[Piece::Text(front), Piece::Text(b"\n")]),
        Verdict::F1 { left, right } => add_sides(
            page,
            front,
            b"F1",
            first.format(left).as_bytes(),
            second.format(right).as_bytes(),
        ),
        Verdict::F2 { left, right } => add_sides(
            page,
            front,
            b"F2",
            first.format(left).as_bytes(),
            second.format(right).as_bytes(),
        ),
        Verdict::F3 {
            length,
            left,
            right,
        } => add_late(
            page,
            front,
            third.format(length).as_bytes(),
            first.format(left).as_bytes(),
            second.format(right).as_bytes(),
        ),
    }
}

/// Adds the line of the harvest.
fn add_harvest<K: Sink>(page: &mut Page<'_, K>, q: u32) -> Result<(), WriteFail>
    ensures same_sink { sink_name page.new ≡ sink_name page.old }
    ensures text { AddsTo K.written page.old page.new (harvest_line q) result }
    ensures cause { HasCause (K.faults (sink_in page.old)) (K.faults (sink_in page.new)) result }
{
    page.line(&[
        Piece::Text(b"plan "),
        Piece::Number(i128::from(q)),
        Piece::Text(b"\n"),
    ])
}

/// Adds the line of the certificate.
fn add_below<K: Sink>(page: &mut Page<'_, K>, below: &Option<Verdict>) -> Result<(), WriteFail>
    ensures same_sink { sink_name page.new ≡ sink_name page.old }
    ensures text { AddsTo K.written page.old page.new (below_line below.now) result }
    ensures cause { HasCause (K.faults (sink_in page.old)) (K.faults (sink_in page.new)) result }
{
    match below {
        Some(verdict) => add_verdict(page, b"below", *verdict),
        None => page.text(b"below none\n"),
    }
}

/// Adds the choice and then the certificate.
fn add_proof<K: Sink>(
    page: &mut Page<'_, K>,
    program: &Program,
    chosen: &Chosen,
    below: &Option<Verdict>,
) -> Result<(), WriteFail>
    requires { Suits program.now chosen.now }
    ensures same_sink { sink_name page.new ≡ sink_name page.old }
    ensures text { AddsTo K.written page.old page.new (chosen_text program.now chosen.now ++ below_line below.now) result }
    ensures cause { HasCause (K.faults (sink_in page.old)) (K.faults (sink_in page.new)) result }
{
    match add_chosen(page, program, chosen) {
        Ok(()) => add_below(page, below),
        Err(fail) => Err(fail),
    }
}

/// Adds a harvest that was found.
fn add_found<K: Sink>(
    page: &mut Page<'_, K>,
    program: &Program,
    q: u32,
    chosen: &Chosen,
    below: &Option<Verdict>,
) -> Result<(), WriteFail>
    requires { Suits program.now chosen.now }
    ensures same_sink { sink_name page.new ≡ sink_name page.old }
    ensures text { AddsTo K.written page.old page.new (found_text program.now q chosen.now below.now) result }
    ensures cause { HasCause (K.faults (sink_in page.old)) (K.faults (sink_in page.new)) result }
{
    match add_harvest(page, q) {
        Ok(()) => add_proof(page, program, chosen, below),
        Err(fail) => Err(fail),
    }
}

/// Adds the lines of a plan to a page.
fn add_plan<K: Sink>(
    page: &mut Page<'_, K>,
    program: &Program,
    plan: &Least,
) -> Result<(), WriteFail>
    requires { SuitsLeast program.now plan.now }
    ensures same_sink { sink_name page.new ≡ sink_name page.old }
    ensures text { AddsTo K.written page.old page.new (plan_text program.now plan.now) result }
    ensures cause { HasCause (K.faults (sink_in page.old)) (K.faults (sink_in page.new)) result }
{
    match plan {
        Least::Found { q, chosen, below } => add_found(page, program, *q, chosen, below),
        Least::Never { verdict } => add_verdict(page, b"plan none", *verdict),
    }
}

/// Writes the least harvest, what is chosen at it, and why it is the least, or that no harvest is enough: a line for each, or a
/// proper prefix of the text where a write fails. Takes no memory.
pub fn write_plan<K: Sink>(program: &Program, plan: &Least, sink: &mut K) -> Result<(), WriteFail>
    requires { SuitsLeast program.now plan.now }
    ensures text { Writes (K.written sink.old) (K.written sink.new) (plan_text program.now plan.now) result }
    ensures cause { HasCause (K.faults sink.old) (K.faults sink.new) result }
{
    let mut page = Page::on(sink);
    match add_plan(&mut page, program, plan) {
        Ok(()) => page.close(),
        Err(fail) => Err(fail),
    }
}
