ghost use Rattle.std.specs.Prelude.{◌≡◌, ◌+◌, ◌<◌, ◌^◌, [], None, Some, ℕ};
ghost use Rattle.nv_memory.specs.declared.device.Device.{Device as Profile};
ghost use Rattle.nv_memory.specs.declared.device.Class.TheVariants.{Basic};
ghost use Rattle.cat_program.specs.Checked.{Checked, IsChecked, HasVersion, version_at};
ghost use Rattle.cat_machine.specs.Held.{Held};
ghost use Rattle.cat_machine.specs.CodeValue.{EntryAt};
ghost use Rattle.cat_machine.specs.Code.{code_of};
ghost use Rattle.cat_machine.specs.Costs.{Costs, handler_most};
ghost use Rattle.cat_machine.specs.declared.instr.Mode.TheVariants.{Task};
ghost use Rattle.cat_machine.specs.Machine.{Ended', until};
ghost use Rattle.cat_machine.specs.Fits.{Fits, IsIdle};
ghost use Rattle.cost_bounds.specs.Paths.{IsSection, IsHandler};
ghost use Rattle.cost_bounds.specs.BoundsValue.{BoundsValue, HasJob};
ghost use Rattle.cost_bounds.specs.Greatest.{AreBounds, IsGreatest, RunsWithin, sum_over};
ghost use Rattle.cost_bounds.specs.Pass.{AreMade, tasks_in};

use cat_machine::{code_is_laid_out, spending_law};

/// From any state between two sections, no section and no handler takes more than a program's bounds say: a law of the
/// definitions.
pub fn runs_within_law()
    ensures { (p : Checked) (device : Profile) (lines : ℕ) (b : BoundsValue) (h : Held) → AreBounds p device lines b → Fits p (code_of p) h → h.kept ≡ None → h.stack ≡ [] → RunsWithin p device lines b h }
{
    code_is_laid_out();
    spending_law();
}

/// The run of a section from an idle state is one of the paths of the tasks' code: a law of the definitions.
pub fn sections_are_paths()
    ensures { (p : Checked) (h : Held) (run : Ended') → IsIdle p h → until 1000000 Task (code_of p) h ≡ Some run → IsSection p run.path }
{
    code_is_laid_out();
}

/// A program's bounds have a job for each version of each event: a law of the definitions.
pub fn versions_have_jobs_law()
    ensures { (p : Checked) (device : Profile) (lines : ℕ) (b : BoundsValue) (event version : ℕ) → AreBounds p device lines b → HasVersion p event version → HasJob b event version }
{}

/// The greatest cost of a version's statements, with its end, is the greatest sum over the paths of its code: a law of the
/// definitions.
pub fn handler_paths_law()
    ensures { (u : Costs) (p : Checked) → IsChecked p → (event version entry : ℕ) → EntryAt (code_of p) event version entry → IsGreatest (IsHandler p event version) (sum_over u p) (handler_most u (version_at p event version) + u Basic) }
{
    code_is_laid_out();
}

/// What a pass over a program's code makes are the bounds of the program: a law of the definitions.
pub fn compiled_bounds_law()
    ensures { (p : Checked) (device : Profile) (lines : ℕ) (b : BoundsValue) → IsChecked p → lines < 2 ^ 32 → AreMade (code_of p) device lines (tasks_in (code_of p)) b → AreBounds p device lines b }
{
    code_is_laid_out();
}

/// A program has one value of its bounds: a law of the definitions.
pub fn one_bounds_law()
    ensures { (p : Checked) (device : Profile) (lines : ℕ) (a b : BoundsValue) → AreBounds p device lines a → AreBounds p device lines b → a ≡ b }
{}
