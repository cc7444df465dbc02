//! One line of a listing.

ghost use Rattle.std.specs.Prelude.{◌≡◌, [], ◌∷◌, decimal};
ghost use Rattle.std.specs.Fmt.{signed_decimal};
ghost use Rattle.cn_base.specs.Causes.{HasCause};
ghost use Rattle.cn_base.specs.PageWords.{AddsTo, sink_in, sink_name};
ghost use Rattle.cn_base.specs.Texts.{line};
ghost use Rattle.cat_compile.specs.Listing.{sign_word, operator_word, instr_line, task_line, version_line, heads};

use cat_machine::Instr;
use cat_program::{Operator, Sign};
use cn_base::{Page, Piece, Sink, WriteFail};

fn sign_name(sign: Sign) -> &'static [u8]
    ensures { result.now ≡ sign_word sign }
{
    match sign {
        Sign::Neg => b"neg".as_slice(),
        Sign::Not => b"not".as_slice(),
    }
}

fn operator_name(operator: Operator) -> &'static [u8]
    ensures { result.now ≡ operator_word operator }
{
    match operator {
        Operator::Add => b"add".as_slice(),
        Operator::Sub => b"sub".as_slice(),
        Operator::Mul => b"mul".as_slice(),
        Operator::Div => b"div".as_slice(),
        Operator::Rem => b"rem".as_slice(),
        Operator::Eq => b"eq".as_slice(),
        Operator::Ne => b"ne".as_slice(),
        Operator::Lt => b"lt".as_slice(),
        Operator::Le => b"le".as_slice(),
        Operator::Gt => b"gt".as_slice(),
        Operator::Ge => b"ge".as_slice(),
        Operator::And => b"and".as_slice(),
        Operator::Or => b"or".as_slice(),
    }
}

/// The line of an instruction without numbers.
fn add_bare<K: Sink>(page: &mut Page<'_, K>, pc: u32, name: &[u8]) -> Result<(), WriteFail>
    ensures same_sink { sink_name page.new ≡ sink_name page.old }
    ensures text { AddsTo K.written page.old page.new (line (decimal pc ∷ name.now ∷ [])) result }
    ensures cause { HasCause (K.faults (sink_in page.old)) (K.faults (sink_in page.new)) result }
{
    page.line(&[
        Piece::Number(i128::from(pc)),
        Piece::Text(b" "),
        Piece::Text(name),
        Piece::Text(b"\n"),
    ])
}

/// The line of an instruction with one number.
fn add_one<K: Sink>(
    page: &mut Page<'_, K>,
    pc: u32,
    name: &[u8],
    number: i128,
) -> Result<(), WriteFail>
    ensures same_sink { sink_name page.new ≡ sink_name page.old }
    ensures text { AddsTo K.written page.old page.new (line (decimal pc ∷ name.now ∷ signed_decimal number ∷ [])) result }
    ensures cause { HasCause (K.faults (sink_in page.old)) (K.faults (sink_in page.new)) result }
{
    page.line(&[
        Piece::Number(i128::from(pc)),
        Piece::Text(b" "),
        Piece::Text(name),
        Piece::Text(b" "),
        Piece::Number(number),
        Piece::Text(b"\n"),
    ])
}

/// The line of an instruction on an array.
fn add_array<K: Sink>(
    page: &mut Page<'_, K>,
    pc: u32,
    name: &[u8],
    base: u16,
    len: u16,
) -> Result<(), WriteFail>
    ensures same_sink { sink_name page.new ≡ sink_name page.old }
    ensures text { AddsTo K.written page.old page.new (line (decimal pc ∷ name.now ∷ decimal base ∷ decimal len ∷ [])) result }
    ensures cause { HasCause (K.faults (sink_in page.old)) (K.faults (sink_in page.new)) result }
{
    page.line(&[
        Piece::Number(i128::from(pc)),
        Piece::Text(b" "),
        Piece::Text(name),
        Piece::Text(b" "),
        Piece::Number(i128::from(base)),
        Piece::Text(b" "),
        Piece::Number(i128::from(len)),
        Piece::Text(b"\n"),
    ])
}

/// The line of an instruction: its place, its name and its numbers.
pub fn add_instr<K: Sink>(page: &mut Page<'_, K>, pc: u32, instr: Instr) -> Result<(), WriteFail>
    ensures same_sink { sink_name page.new ≡ sink_name page.old }
    ensures text { AddsTo K.written page.old page.new (instr_line pc instr) result }
    ensures cause { HasCause (K.faults (sink_in page.old)) (K.faults (sink_in page.new)) result }
{
    match instr {
        Instr::Push(n) => add_one(page, pc, b"push", i128::from(n)),
        Instr::Load(word) => add_one(page, pc, b"load", i128::from(word)),
        Instr::Payload => add_bare(page, pc, b"payload"),
        Instr::Signed(sign) => add_bare(page, pc, sign_name(sign)),
        Instr::Operate(operator) => add_bare(page, pc, operator_name(operator)),
        Instr::Jump(to) => add_one(page, pc, b"jump", i128::from(to)),
        Instr::JumpZero(to) => add_one(page, pc, b"jumpzero", i128::from(to)),
        Instr::Turn(to) => add_one(page, pc, b"turn", i128::from(to)),
        Instr::Begin(task) => add_one(page, pc, b"begin", i128::from(task)),
        Instr::End => add_bare(page, pc, b"end"),
        Instr::LoadAt { base, len } => add_array(page, pc, b"loadat", base, len),
        Instr::Store(word) => add_one(page, pc, b"store", i128::from(word)),
        Instr::StoreAt { base, len } => add_array(page, pc, b"storeat", base, len),
        Instr::Post(task) => add_one(page, pc, b"post", i128::from(task)),
        Instr::Out(channel) => add_one(page, pc, b"out", i128::from(channel)),
    }
}

/// The header of a task, where the task begins at this place.
pub fn add_task<K: Sink>(
    page: &mut Page<'_, K>,
    name: &str,
    entry: u32,
    pc: u32,
) -> Result<(), WriteFail>
    ensures same_sink { sink_name page.new ≡ sink_name page.old }
    ensures text { AddsTo K.written page.old page.new (heads entry pc (task_line name.now pc)) result }
    ensures cause { HasCause (K.faults (sink_in page.old)) (K.faults (sink_in page.new)) result }
{
    if entry != pc {
        return Ok(());
    }
    page.line(&[
        Piece::Text(b"task "),
        Piece::Text(name.as_bytes()),
        Piece::Text(b" "),
        Piece::Number(i128::from(pc)),
        Piece::Text(b"\n"),
    ])
}

/// The header of a version of an event, where the version begins at this place.
pub fn add_version<K: Sink>(
    page: &mut Page<'_, K>,
    name: &str,
    version: usize,
    entry: u32,
    pc: u32,
) -> Result<(), WriteFail>
    ensures same_sink { sink_name page.new ≡ sink_name page.old }
    ensures text { AddsTo K.written page.old page.new (heads entry pc (version_line name.now version pc)) result }
    ensures cause { HasCause (K.faults (sink_in page.old)) (K.faults (sink_in page.new)) result }
{
    if entry != pc {
        return Ok(());
    }
    page.line(&[
        Piece::Text(b"event "),
        Piece::Text(name.as_bytes()),
        Piece::Text(b" "),
        Piece::Number(version as i128),
        Piece::Text(b" "),
        Piece::Number(i128::from(pc)),
        Piece::Text(b"\n"),
    ])
}
