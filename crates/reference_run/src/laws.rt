ghost use Rattle.std.specs.Prelude.{◌≡◌, ℕ};
ghost use Rattle.reference_run.specs.Reference.{HasFault, IsReference, Moment, Setting};
ghost use Rattle.reference_run.specs.declared.schedule.Schedule.{Schedule};

/// A schedule has one reference run, or one fault, and never two of these.
pub fn one_reference()
    ensures end { (s : Setting) (schedule : Schedule) (a b : Moment) → IsReference s schedule a → IsReference s schedule b → a ≡ b }
    ensures fault { (s : Setting) (schedule : Schedule) (i j : ℕ) → HasFault s schedule i → HasFault s schedule j → i ≡ j }
    ensures either { (s : Setting) (schedule : Schedule) (end : Moment) (i : ℕ) → IsReference s schedule end → HasFault s schedule i → ⊥ }
{}
