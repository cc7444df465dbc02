ghost use Rattle.std.specs.Prelude.{◌≡◌, ℕ, List, Some, length, slice_get};
ghost use Rattle.cat_machine.specs.declared.instr.Mode.{Mode as Way};
ghost use Rattle.cat_machine.specs.CodeValue.{CodeValue};
ghost use Rattle.cat_machine.specs.Held.{Held};
ghost use Rattle.cat_machine.specs.Machine.{Stepping, step_of};
ghost use Rattle.cat_machine.specs.Fits.{ReadyFor};
ghost use Rattle.cn_object.specs.declared.object.Object.{Object as Program};
ghost use Rattle.cn_object.specs.Spelling.{IsFileOf};
ghost use Rattle.cn_object.specs.Fitting.{FitsCode};
ghost use Rattle.cn_object.specs.Running.{first_of};
ghost use Rattle.cn_object.specs.declared.object.Kind.{Kind as Rule};
ghost use Rattle.cn_object.specs.Regions.{version_entries};
ghost use Rattle.cn_object.specs.Sums.{HandlerSums};
ghost use Rattle.cn_object.specs.Verdict.{IsBad, IsGood, IsVerifiedObject};
ghost use Rattle.cn_object.specs.Verified.{IsVerified};

/// Bytes are the file of one object at most: a law of the definitions.
pub fn one_object_law()
    ensures { (a b : Program) (bytes : List ℕ) → IsFileOf a bytes → IsFileOf b bytes → a ≡ b }
{}

/// Bytes have one verdict: they are refused for one kind at one place, and only where they aren't the file of an object whose code
/// can be run. A law of the definitions.
pub fn one_verdict_law()
    ensures refused { (bytes : List ℕ) (kind also : Rule) (place other : ℕ) → IsBad bytes kind place → IsBad bytes also other → (kind ≡ also) × (place ≡ other) }
    ensures either { (bytes : List ℕ) (o : Program) (kind : Rule) (place : ℕ) → IsGood bytes o → ¬ IsBad bytes kind place }
{}

/// Verified code is never stuck: wherever a step may be asked for, the instruction is there, and finds its operands, words and
/// place. A law of the definitions.
pub fn never_stuck_law()
    ensures { (code : CodeValue) (h : Held) (mode : Way) → FitsCode code h → ReadyFor mode code h → (s : Stepping) × (step_of mode code h ≡ Some s) }
{}

/// The first working state of a verified object fits its code: a law of the definitions.
pub fn first_fits_law()
    ensures { (o : Program) → IsVerifiedObject o → length o.started ≡ length o.code.tasks → FitsCode o.code (first_of o) }
{}

/// The entry of a version of verified code is worth the greatest sum over its paths, whatever each class costs, and none of them takes
/// more than 1,000,000 instructions: a law of the definitions.
pub fn handler_sums_law()
    ensures { (words tasks : ℕ) (code : CodeValue) (k entry : ℕ) → IsVerified words tasks code → slice_get (version_entries code) k ≡ Some entry → HandlerSums code entry }
{}
