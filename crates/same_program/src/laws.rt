ghost use Rattle.std.specs.Prelude.{◌≡◌, ◌≢◌, ℕ, ℤ, Option, Some};
ghost use Rattle.cn_base.specs.declared.tree.Tree.{Tree};
ghost use Rattle.cat_program.specs.Body.{Body};
ghost use Rattle.cat_program.specs.Checked.{Checked, body_at, first_state, rest_at, version_at};
ghost use Rattle.cat_program.specs.Meaning.{Store, TaskState, TaskStep, handled, task_step_of};
ghost use Rattle.cat_program.specs.Resting.{RestsAt};
ghost use Rattle.cat_resolve.specs.Program.{IsProgramOf};
ghost use Rattle.cat_machine.specs.Code.{code_of};
ghost use Rattle.cat_compile.specs.Listing.{listing_text};
ghost use Rattle.same_program.specs.Same.{IsSame};
ghost use Rattle.nv_memory.specs.declared.device.Device.{Device};
ghost use Rattle.cost_bounds.specs.BoundsValue.{BoundsValue};
ghost use Rattle.feasibility.specs.declared.choose.ChooseFault.{ChooseFault};
ghost use Rattle.feasibility.specs.declared.choose.ChooseFault.TheVariants.{NoMemory};
ghost use Rattle.degradation.specs.declared.chosen.Chosen.{Chosen};
ghost use Rattle.degradation.specs.declared.supply.Supply.{Supply};
ghost use Rattle.degradation.specs.Choice.{IsChoice, IsNoChoice};
ghost use Rattle.same_program.specs.Setting.{AreSettings};
ghost use Rattle.same_program.specs.Alike.{ListIsLike, StateIsLike, StepIsLike};
ghost use Rattle.same_program.specs.Own.{IsOwnList, RestsLike};

/// All programs of a source say the same.
pub fn same_program_law()
    ensures { (a b : Tree) (p q : Checked) → a.items ≡ b.items → IsProgramOf a p → IsProgramOf b q → IsSame p q }
{}

/// Programs that say the same do the same: step by step in their tasks, and in each version of an event.
pub fn same_steps_law()
    ensures first { (p q : Checked) → IsSame p q → StateIsLike (first_state p) (first_state q) }
    ensures step { (p q : Checked) (s t : TaskState) → IsSame p q → StateIsLike s t → StepIsLike (task_step_of (body_at p) s) (task_step_of (body_at q) t) }
    ensures handled { (p q : Checked) (event version : ℕ) (payload : ℤ) (s : Store) → IsSame p q → handled (version_at p event version) payload s ≡ handled (version_at q event version) payload s }
{}

/// Being alike goes both ways, and on from one to the next.
pub fn alike_law()
    ensures turned { (s t : TaskState) → StateIsLike s t → StateIsLike t s }
    ensures onward { (r s t : TaskState) → StateIsLike r s → StateIsLike s t → StateIsLike r t }
{}

/// A place of the code stands for lists that are alike in programs that say the same, or in each for none.
pub fn same_places_law()
    ensures place { (p q : Checked) (pc : ℕ) → IsSame p q → ListIsLike (rest_at p pc) (rest_at q pc) }
    ensures rests { (p q : Checked) (pc : Option ℕ) (list : Option Body) → IsSame p q → RestsAt p pc list → RestsLike q pc list }
{}

/// The lists at which a program's tasks come by, and those that its places stand for, are its own, and of its own lists those
/// that are alike are the same.
pub fn own_lists_law()
    ensures place { (p : Checked) (pc : ℕ) → IsOwnList p (rest_at p pc) }
    ensures first { (p : Checked) → IsOwnList p (first_state p).current }
    ensures step { (p : Checked) (s : TaskState) (step : TaskStep) → IsOwnList p s.current → task_step_of (body_at p) s ≡ Some step → IsOwnList p step.after.current }
    ensures one { (p : Checked) (k l : Option Body) → IsOwnList p k → IsOwnList p l → ListIsLike k l → k ≡ l }
{}

/// Programs that say the same have the same code, and it is listed the same.
pub fn same_code_law()
    ensures code { (p q : Checked) → IsSame p q → code_of p ≡ code_of q }
    ensures listing { (p q : Checked) → IsSame p q → listing_text p (code_of p) ≡ listing_text q (code_of q) }
{}

/// The bounds of programs that say the same are the same on a device.
pub fn one_bounds_law()
    ensures { (p q : Checked) (d : Device) (lines : ℕ) (b c : BoundsValue) → AreSettings p q d lines b c → b ≡ c }
{}

/// With any supply there is one choice of versions, or one reason why there is none; want of memory is no reason.
pub fn one_choice_law()
    ensures choice { (p q : Checked) (d : Device) (supply : Supply) (lines : ℕ) (b c : BoundsValue) → AreSettings p q d lines b c →
        (x y : Chosen) → IsChoice p b d supply lines x → IsChoice q c d supply lines y → x ≡ y }
    ensures reason { (p q : Checked) (d : Device) (supply : Supply) (lines : ℕ) (b c : BoundsValue) → AreSettings p q d lines b c →
        (f g : ChooseFault) → IsNoChoice p b d supply f → IsNoChoice q c d supply g → f ≢ NoMemory → g ≢ NoMemory → f ≡ g }
    ensures either { (p q : Checked) (d : Device) (supply : Supply) (lines : ℕ) (b c : BoundsValue) → AreSettings p q d lines b c →
        (x : Chosen) (f : ChooseFault) → IsChoice p b d supply lines x → IsNoChoice q c d supply f → f ≡ NoMemory }
{}
