//! The lines of the variables.

ghost use Rattle.std.specs.Prelude.{◌≡◌, ◌+◌, ◌≤◌, ◌++◌, codes, length};
ghost use Rattle.std.specs.Fmt.{signed_decimal};
ghost use Rattle.cn_base.specs.Causes.{HasCause};
ghost use Rattle.cn_base.specs.PageWords.{AddsTo, sink_in, sink_name};
ghost use Rattle.cn_base.specs.Texts.{in_turn};
ghost use Rattle.cn_report.specs.Outcome.{value_of, variable_line, variables_text};

use cat_program::{Program, Variable};
use checkpoint_slots::Slot;
use cn_base::{Page, Piece, Sink, WriteFail};

fn add_value<K: Sink>(page: &mut Page<'_, K>, value: i32) -> Result<(), WriteFail>
    ensures same_sink { sink_name page.new ≡ sink_name page.old }
    ensures text { AddsTo K.written page.old page.new (codes " " ++ signed_decimal value) result }
    ensures cause { HasCause (K.faults (sink_in page.old)) (K.faults (sink_in page.new)) result }
{
    page.line(&[Piece::Text(b" "), Piece::Number(i128::from(value))])
}

// The values of words in order, with a space before each.
fn add_values<K: Sink>(
    page: &mut Page<'_, K>,
    slot: &Slot,
    base: u16,
    len: u16,
) -> Result<(), WriteFail>
    requires within { base + len ≤ length slot.now.words }
    requires few { length slot.now.words ≤ 1024 }
    ensures same_sink { sink_name page.new ≡ sink_name page.old }
    ensures text { AddsTo K.written page.old page.new (in_turn (λ k. codes " " ++ signed_decimal (value_of slot.now (base + k))) len) result }
    ensures cause { HasCause (K.faults (sink_in page.old)) (K.faults (sink_in page.new)) result }
{
    for k in 0..len {
        add_value(page, slot.word(base + k))?;
    }
    Ok(())
}

fn add_name<K: Sink>(page: &mut Page<'_, K>, name: &[u8]) -> Result<(), WriteFail>
    ensures same_sink { sink_name page.new ≡ sink_name page.old }
    ensures text { AddsTo K.written page.old page.new (codes "var " ++ name.now) result }
    ensures cause { HasCause (K.faults (sink_in page.old)) (K.faults (sink_in page.new)) result }
{
    page.line(&[Piece::Text(b"var "), Piece::Text(name)])
}

// The line of a variable: all its words' values.
fn add_variable<K: Sink>(
    page: &mut Page<'_, K>,
    slot: &Slot,
    variable: &Variable,
) -> Result<(), WriteFail>
    requires within { variable.now.base + variable.now.len ≤ length slot.now.words }
    requires few { length slot.now.words ≤ 1024 }
    ensures same_sink { sink_name page.new ≡ sink_name page.old }
    ensures text { AddsTo K.written page.old page.new (variable_line slot.now variable.now) result }
    ensures cause { HasCause (K.faults (sink_in page.old)) (K.faults (sink_in page.new)) result }
{
    add_name(page, variable.name.as_str().as_bytes())?;
    add_values(page, slot, variable.base, variable.len)?;
    page.text(b"\n")
}

/// The line of each variable, in order.
pub(crate) fn add_variables<K: Sink>(
    page: &mut Page<'_, K>,
    program: &Program,
    slot: &Slot,
) -> Result<(), WriteFail>
    requires { length slot.now.words ≡ length program.now.words }
    ensures same_sink { sink_name page.new ≡ sink_name page.old }
    ensures text { AddsTo K.written page.old page.new (variables_text slot.now program.now.variables) result }
    ensures cause { HasCause (K.faults (sink_in page.old)) (K.faults (sink_in page.new)) result }
{
    let _checked = program.bodies();
    for variable in program.variables() {
        add_variable(page, slot, variable)?;
    }
    Ok(())
}
