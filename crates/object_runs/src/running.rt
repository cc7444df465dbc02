//! An object's sections, one after another.

ghost use Rattle.std.specs.Prelude.{◌≡◌, IfOk, length};
ghost use Rattle.cat_machine.specs.Fits.{stepped_of};
ghost use Rattle.cn_object.specs.Running.{first_of};
ghost use Rattle.object_runs.specs.Resting.{IsAtRest, IsRunnable};
ghost use Rattle.object_runs.specs.Running.{SectionGives};

use cat_machine::{Did, Working, next, run_section};
use cat_program::Stepped;
use cn_base::NoMemory;
use cn_object::{Object, handler_sums_law, never_stuck_law};
use std::alloc::{AllocError, Global};

// The first state, where only memory may be wanting.
fn begun(alloc: Global, object: &Object) -> Result<Working, AllocError>
    ensures { IfOk result (λ w. w ≡ first_of object.now) }
{
    let words = object.words.as_slice().to_vec(alloc)?;
    let started = object.started.as_slice().to_vec(alloc)?;
    Ok(Working::of(words, started))
}

/// The first working state of an object that the verifier has accepted: the first values of its words and its started posts, with no
/// current task, no handler, no operand, and payload 0.
pub fn first(alloc: Global, object: &Object) -> Result<Working, NoMemory>
    requires { IsRunnable object.now }
    ensures is { IfOk result (λ w. w ≡ first_of object.now) }
    ensures rests { IfOk result (IsAtRest object.now) }
{
    match begun(alloc, object) {
        Ok(working) => Ok(working),
        Err(_) => Err(NoMemory),
    }
}

fn stepped(did: Did) -> Stepped
    ensures { result ≡ stepped_of did }
{
    match did {
        Did::Emitted { channel, value } => Stepped::Out { channel, value },
        Did::Went => Stepped::Quiet,
        Did::Acted => Stepped::Quiet,
        Did::Ended => Stepped::Quiet,
    }
}

/// One whole section of an object that the verifier has accepted: from the next place up to the first instruction that acts. `None`
/// exactly where there is no next place, and then the state stays. It takes no memory.
pub fn section(object: &Object, working: &mut Working) -> Stepped
    requires runnable { IsRunnable object.now }
    requires at_rest { IsAtRest object.now working.old }
    ensures gives { SectionGives object.now.code working.old result working.new }
    ensures rests { IsAtRest object.now working.new }
{
    never_stuck_law();
    handler_sums_law();
    match next(&object.code, working) {
        None => Stepped::None,
        Some(_) => {
            let did = run_section(&object.code, working);
            stepped(did)
        }
    }
}
