//! How far a run has come.

ghost use Rattle.std.specs.Prelude.{◌≡◌, ◌++◌, ◌∷◌, [], length, replicate, IfOk, OnOk};
ghost use Rattle.reference_run.specs.Held.{IsFirst};

use cat_eval::State;
use cat_program::{LogEntry, Program};
use cn_base::NoMemory;
use std::alloc::{AllocError, Global};

/// The state of the tasks, the entries so far, the steps that have been taken, the start of the last item or 0, and how many items
/// of each event there were.
#[derive(Drop)]
pub(crate) struct Run {
    pub state: State,
    pub entries: Vec<LogEntry>,
    pub steps: u32,
    pub start: u32,
    pub done: Vec<u32>,
}

/// One entry more.
pub(crate) fn add(entries: &mut Vec<LogEntry>, entry: LogEntry) -> Result<(), AllocError>
    ensures { OnOk result (entries.new.items ≡ entries.old.items ++ entry ∷ []) }
{
    entries.push(entry)?;
    Ok(())
}

fn zeros(alloc: Global, n: u8) -> Result<Vec<u32>, AllocError>
    ensures { IfOk result (λ v. v.items ≡ replicate n 0) }
{
    vec![in alloc; 0u32; n as usize]
}

impl Run {
    /// Nothing has been done.
    pub(crate) fn first(alloc: Global, program: &Program) -> Result<Run, NoMemory>
        ensures { IfOk result (IsFirst program.now) }
    {
        let state = State::first(alloc, program)?;
        let done = zeros(alloc, program.events())?;
        Ok(Run {
            state,
            entries: Vec::new(alloc),
            steps: 0,
            start: 0,
            done,
        })
    }
}
