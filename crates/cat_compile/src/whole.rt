ghost use Rattle.std.specs.Prelude.{◌≡◌, ◌<◌, ◌≤◌, ◌+◌, [], ◌∷◌, ◌++◌, length, map, OnOk, IfOk};
ghost use Rattle.cat_program.specs.Body.{tree_of};
ghost use Rattle.cat_program.specs.Places.{body_size, versions_size};
ghost use Rattle.cat_program.specs.Checked.{IsChecked, EachBelow, bodies_of, versions_of};
ghost use Rattle.cat_machine.specs.Code.{body_code, task_code, tasks_code, tasks_entries, versions_code, versions_entries, events_code, events_entries, code_of};
ghost use Rattle.cat_machine.specs.CodeValue.{entries_of};
ghost use Rattle.cat_machine.specs.declared.instr.Instr.TheVariants as i;

use crate::emit::emit_block;
use crate::expr::put;
use cat_machine::{Code, Instr, code_is_laid_out};
use cat_program::Program;
use cn_base::NoMemory;
use std::alloc::{AllocError, Global};

/// A block and its end.
fn emit_version(program: &Program, code: &mut Vec<Instr>, b: u32) -> Result<(), AllocError>
    requires checked { IsChecked program.now }
    requires block { b < length program.now.blocks }
    requires room { length code.old.items + body_size (tree_of program.now.blocks b) ≤ 60000 }
    ensures { OnOk result (code.new.items ≡ code.old.items ++ (body_code (length code.old.items) (tree_of program.now.blocks b) ++ i.End ∷ [])) }
{
    emit_block(program, code, b)?;
    put(code, Instr::End)
}

/// A task.
fn emit_task(program: &Program, code: &mut Vec<Instr>, t: u8, b: u32) -> Result<(), AllocError>
    requires checked { IsChecked program.now }
    requires block { b < length program.now.blocks }
    requires room { length code.old.items + 1 + body_size (tree_of program.now.blocks b) ≤ 60000 }
    ensures { OnOk result (code.new.items ≡ code.old.items ++ task_code (length code.old.items) t (tree_of program.now.blocks b)) }
{
    put(code, Instr::Begin(t))?;
    emit_version(program, code, b)
}

/// All tasks, with the entry of each.
fn emit_tasks(
    alloc: Global,
    program: &Program,
    code: &mut Vec<Instr>,
) -> Result<Vec<u32>, AllocError>
    requires { code.old.items ≡ [] }
    ensures code { OnOk result (code.new.items ≡ tasks_code 0 0 (bodies_of program.now)) }
    ensures entries { IfOk result (λ e. e.items ≡ tasks_entries 0 (bodies_of program.now)) }
{
    code_is_laid_out();
    let mut entries = Vec::new(alloc);
    let tasks = program.bodies();
    for (t, b) in tasks.iter().enumerate() {
        entries.push(code.len() as u32)?;
        emit_task(program, code, t as u8, *b)?;
    }
    Ok(entries)
}

/// The versions of an event, with the entry of each.
fn emit_event(
    alloc: Global,
    program: &Program,
    code: &mut Vec<Instr>,
    versions: &[u32],
) -> Result<Vec<u32>, AllocError>
    requires checked { IsChecked program.now }
    requires blocks { EachBelow (length program.now.blocks) versions.now }
    requires room { length code.old.items + versions_size (map (tree_of program.now.blocks) versions.now) ≤ 60000 }
    ensures code { OnOk result (code.new.items ≡ code.old.items ++ versions_code (length code.old.items) (map (tree_of program.now.blocks) versions.now)) }
    ensures entries { IfOk result (λ e. e.items ≡ versions_entries (length code.old.items) (map (tree_of program.now.blocks) versions.now)) }
{
    code_is_laid_out();
    let mut entries = Vec::new(alloc);
    for b in versions {
        entries.push(code.len() as u32)?;
        emit_version(program, code, *b)?;
    }
    Ok(entries)
}

/// All events.
fn emit_events(
    alloc: Global,
    program: &Program,
    code: &mut Vec<Instr>,
) -> Result<Vec<Vec<u32>>, AllocError>
    requires checked { IsChecked program.now }
    requires tasks { code.old.items ≡ tasks_code 0 0 (bodies_of program.now) }
    ensures code { OnOk result (code.new.items ≡ code.old.items ++ events_code (length code.old.items) (versions_of program.now)) }
    ensures entries { IfOk result (λ e. entries_of e.items ≡ events_entries (length code.old.items) (versions_of program.now)) }
{
    code_is_laid_out();
    let mut all = Vec::new(alloc);
    let events = program.versions();
    for event in events {
        let entries = emit_event(alloc, program, code, event.as_slice())?;
        all.push(entries)?;
    }
    Ok(all)
}

// The code, where only memory may be wanting.
fn whole_code(alloc: Global, program: &Program) -> Result<Code, AllocError>
    ensures { IfOk result (λ code. code ≡ code_of program.now) }
{
    code_is_laid_out();
    let _checked = program.bodies();
    let mut code = Vec::new(alloc);
    let tasks = emit_tasks(alloc, program, &mut code)?;
    let versions = emit_events(alloc, program, &mut code)?;
    Ok(Code::of(code, tasks, versions))
}

/// The code of a program.
pub fn compile(alloc: Global, program: &Program) -> Result<Code, NoMemory>
    ensures { IfOk result (λ code. code ≡ code_of program.now) }
{
    match whole_code(alloc, program) {
        Ok(code) => Ok(code),
        Err(_) => Err(NoMemory),
    }
}
