//! The words, tasks and places that instructions name exist.

ghost use Rattle.std.specs.Prelude.{◌≡◌, ◌≤◌, ◌<◌, ◌↔◌, IsTrue, MatchOption, length};
ghost use Rattle.cn_object.specs.Operands.{HasOperands, OperandsAt, target_of};
ghost use Rattle.cn_object.specs.Verified.{Everywhere};
ghost use Rattle.cn_object.specs.Verdict.{FailsFirst};

use cat_machine::{Code, Instr};

/// The place to which an instruction may go.
pub(crate) fn target_of(instr: Instr) -> Option<u32>
    ensures { result ≡ target_of instr }
{
    match instr {
        Instr::Jump(to) | Instr::JumpZero(to) | Instr::Turn(to) => Some(to),
        _ => None,
    }
}

fn has_operands(instr: Instr, words: u32, tasks: u32, count: u32) -> bool
    ensures { IsTrue result ↔ HasOperands words tasks count instr }
{
    match instr {
        Instr::Load(word) | Instr::Store(word) => u32::from(word) < words,
        Instr::LoadAt { base, len } | Instr::StoreAt { base, len } => {
            1 <= len && u32::from(base) + u32::from(len) <= words
        }
        Instr::Begin(task) | Instr::Post(task) => u32::from(task) < tasks,
        Instr::Jump(to) | Instr::JumpZero(to) | Instr::Turn(to) => to < count,
        _ => true,
    }
}

/// The first instruction that names what does not exist.
pub(crate) fn operand_fault(code: &Code, words: u32, tasks: u32) -> Option<u32>
    ensures { MatchOption result (Everywhere code.now (OperandsAt words tasks code.now)) (λ place. FailsFirst code.now (OperandsAt words tasks code.now) place) }
{
    let count = code.len();
    for pc in 0..count {
        let instr = code.instr(pc);
        if !has_operands(instr, words, tasks, count) {
            return Some(pc);
        }
    }
    None
}
