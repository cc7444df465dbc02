//! Steps of the tasks.

ghost use Rattle.std.specs.Prelude.{◌≡◌, ◌<◌, ◌+◌, ◌^◌, ◌++◌, true, false, None, IfOk, OnOk};
ghost use Rattle.cat_program.specs.declared.syntax.Stepped.TheVariants.{None as NoStep};
ghost use Rattle.cat_program.specs.Checked.{body_at};
ghost use Rattle.cat_program.specs.Meaning.{task_step_of};
ghost use Rattle.cat_eval.specs.Cursor.{Fits, state_of};
ghost use Rattle.reference_run.specs.Reference.{advance_to, entries_of};
ghost use Rattle.reference_run.specs.Held.{HasAdvanced, HasStepped, moment_of};

use crate::run::{Run, add};
use cat_eval::task_step;
use cat_program::{LogEntry, Program, Stepped};
use cn_base::NoMemory;
use std::alloc::AllocError;

// Whether a step existed.
fn is_step(stepped: Stepped) -> bool
    ensures some { result ≡ true → stepped ≡ NoStep → ⊥ }
    ensures none { result ≡ false → stepped ≡ NoStep }
{
    match stepped {
        Stepped::None => false,
        _ => true,
    }
}

// Adds the entry of an output.
fn note(entries: &mut Vec<LogEntry>, stepped: Stepped) -> Result<(), AllocError>
    ensures { OnOk result (entries.new.items ≡ entries.old.items ++ entries_of stepped) }
{
    match stepped {
        Stepped::Out { channel, value } => add(entries, LogEntry::Out { channel, value }),
        _ => Ok(()),
    }
}

// Takes a step, or answers that there is none.
fn step(program: &Program, run: &mut Run) -> Result<bool, NoMemory>
    requires fits { Fits program.now run.old.state }
    requires few { run.old.steps + 1 < 2 ^ 32 }
    ensures went { IfOk result (λ went. went ≡ true → HasStepped program.now run.old run.new) }
    ensures none { IfOk result (λ went. went ≡ false → task_step_of (body_at program.now) (state_of program.now run.old.state) ≡ None) }
{
    let stepped = task_step(program, &mut run.state);
    if !is_step(stepped) {
        return Ok(false);
    }
    note(&mut run.entries, stepped)?;
    run.steps += 1;
    Ok(true)
}

/// Steps until so many have been taken in all, or answers that there are not so many, or that more have been taken already.
pub(crate) fn advance(program: &Program, run: &mut Run, upto: u32) -> Result<bool, NoMemory>
    requires { Fits program.now run.old.state }
    ensures all { IfOk result (λ all. all ≡ true → HasAdvanced program.now upto run.old run.new) }
    ensures none { IfOk result (λ all. all ≡ false → advance_to (body_at program.now) upto (moment_of program.now run.old) ≡ None) }
{
    if upto < run.steps {
        return Ok(false);
    }
    'steps: for _step in run.steps..upto {
        if !step(program, run)? {
            return Ok(false);
        }
    }
    Ok(true)
}
