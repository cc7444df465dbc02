ghost use Rattle.std.specs.Prelude.{◌≡◌, ◌<◌, ◌^◌, ℕ, List, length};
ghost use Rattle.nv_memory.specs.declared.device.Device.{Device as Profile};
ghost use Rattle.cat_program.specs.Checked.{Checked, IsChecked};
ghost use Rattle.cat_machine.specs.Code.{code_of};
ghost use Rattle.cost_bounds.specs.BoundsValue.{BoundsValue};
ghost use Rattle.cost_bounds.specs.Greatest.{AreBounds};
ghost use Rattle.cost_bounds.specs.Pass.{AreMade, tasks_in};
ghost use Rattle.cn_object.specs.declared.object.Object.{Object as Program};
ghost use Rattle.cn_object.specs.declared.object.Kind.{Kind as Rule};
ghost use Rattle.cn_object.specs.Spelling.{IsFileOf, program_object};
ghost use Rattle.cn_object.specs.Verdict.{IsBad, IsGood};
ghost use Rattle.cn_object.specs.Verified.{IsVerified};

use cat_machine::code_is_laid_out;
use cn_object::{one_object_law, one_verdict_law};
use cost_bounds::{compiled_bounds_law, handler_paths_law, one_bounds_law};

/// The code of a checked program keeps every rule that the verifier asks of code, with the program's words and tasks: a law of
/// the definitions.
pub fn compiled_code_is_verified()
    ensures { (p : Checked) → IsChecked p → IsVerified (length p.words) (length p.tasks) (code_of p) }
{
    code_is_laid_out();
    handler_paths_law();
}

/// The object file of a checked program is accepted and never refused, and no other object than the program's has this file: its code, first
/// words and started posts. A law of the definitions.
pub fn objects_of_programs_are_accepted()
    ensures good { (p : Checked) (bytes : List ℕ) → IsChecked p → IsFileOf (program_object p) bytes → IsGood bytes (program_object p) }
    ensures never { (p : Checked) (bytes : List ℕ) (kind : Rule) (place : ℕ) → IsChecked p → IsFileOf (program_object p) bytes → ¬ IsBad bytes kind place }
    ensures same { (p : Checked) (bytes : List ℕ) (o : Program) → IsFileOf (program_object p) bytes → IsGood bytes o → o ≡ program_object p }
{
    compiled_code_is_verified();
    one_object_law();
    one_verdict_law();
}

/// What a pass over the code of a checked program's object makes are the bounds of the program, which has one value of them: a
/// law of the definitions.
pub fn objects_have_program_bounds()
    ensures { (p : Checked) (bytes : List ℕ) (o : Program) (device : Profile) (lines : ℕ) (made known : BoundsValue) → IsChecked p → lines < 2 ^ 32 → IsFileOf (program_object p) bytes → IsGood bytes o
        → AreMade o.code device lines (tasks_in o.code) made → AreBounds p device lines made × (AreBounds p device lines known → made ≡ known) }
{
    objects_of_programs_are_accepted();
    compiled_bounds_law();
    one_bounds_law();
}
