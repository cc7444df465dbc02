ghost use Rattle.std.specs.Prelude.{◌≡◌, ◌≤◌, ℕ, List, Some, length};
ghost use Rattle.cat_program.specs.declared.syntax.Stepped.{Stepped as Answer};
ghost use Rattle.nv_memory.specs.declared.device.Device.{Device as Profile};
ghost use Rattle.cat_machine.specs.declared.instr.Mode.{Mode as Way};
ghost use Rattle.cat_machine.specs.CodeValue.{CodeValue};
ghost use Rattle.cat_machine.specs.Held.{Held};
ghost use Rattle.cat_machine.specs.Machine.{Stepping, step_of};
ghost use Rattle.cat_machine.specs.Fits.{ReadyFor};
ghost use Rattle.cost_bounds.specs.BoundsValue.{BoundsValue};
ghost use Rattle.cn_object.specs.declared.object.Object.{Object as Program};
ghost use Rattle.cn_object.specs.Fitting.{FitsCode};
ghost use Rattle.cn_object.specs.Verified.{IsVerified};
ghost use Rattle.object_runs.specs.Bounds.{AreBoundsOf, CostsWithin};
ghost use Rattle.object_runs.specs.Resting.{IsResting, IsRunnable};
ghost use Rattle.object_runs.specs.Running.{Answers, IsRunOf};
ghost use Rattle.object_runs.specs.Whole.{Follows, IsReached, IsStart, RunsWell};

use cn_object::{handler_sums_law, never_stuck_law};

/// One instruction of verified code leaves a state that fits again: a law of the definitions.
pub fn fits_on_law()
    ensures { (code : CodeValue) (h : Held) (mode : Way) (s : Stepping) → FitsCode code h → ReadyFor mode code h → step_of mode code h ≡ Some s → FitsCode code s.after }
{}

/// From any state between two sections each section and each handler of verified code ends, the one with an instruction that acts and
/// the other with its end: a law of the definitions.
pub fn runs_well_law()
    ensures { (words tasks : ℕ) (code : CodeValue) (h : Held) → IsVerified words tasks code → length code.tasks ≡ tasks → length code.instrs ≤ 60000 → IsResting words tasks code h → RunsWell words tasks code h }
{
    never_stuck_law();
    handler_sums_law();
}

/// Over every list of sections and handlers from the first working state of an object that is accepted, each section and each handler
/// ends so, and each of its instructions finds its operands, words and place: a law of the definitions.
pub fn objects_run_law()
    ensures well { (o : Program) (h : Held) → IsRunnable o → IsReached o h → RunsWell (length o.words) (length o.started) o.code h }
    ensures each { (o : Program) (h start now : Held) (mode : Way) → IsRunnable o → IsReached o h → IsStart o.code h mode start → Follows mode o.code start now → (s : Stepping) × (step_of mode o.code now ≡ Some s) }
{
    never_stuck_law();
    handler_sums_law();
}

/// And none of them costs more than the bounds of the object: a law of the definitions.
pub fn costs_within_law()
    ensures { (o : Program) (device : Profile) (b : BoundsValue) (h : Held) → IsRunnable o → AreBoundsOf o device b → IsReached o h → CostsWithin o device b h }
{
    never_stuck_law();
    handler_sums_law();
}

/// From a state, and so from the first one of an object, a count of sections has one run: a law of the definitions.
pub fn one_run_law()
    ensures object { (o : Program) (most : ℕ) (a b : List Answer) → IsRunOf o most a → IsRunOf o most b → a ≡ b }
    ensures state { (code : CodeValue) (most : ℕ) (h : Held) (a b : List Answer) → Answers code most h a → Answers code most h b → a ≡ b }
{}
