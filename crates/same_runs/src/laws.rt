ghost use Rattle.std.specs.Prelude.{◌↔◌, ℕ, List};
ghost use Rattle.reference_run.specs.Reference.{HasFault, IsReference, Moment, Setting};
ghost use Rattle.reference_run.specs.declared.schedule.Schedule.{Schedule};
ghost use Rattle.cn_resume.specs.declared.fault.ImageFault.{ImageFault as TheFault};
ghost use Rattle.cn_resume.specs.declared.fault.ImageKind.{ImageKind as TheKind};
ghost use Rattle.cn_resume.specs.Fit.{IsFirstFault, IsFit, IsRefused, Purpose};
ghost use Rattle.same_runs.specs.Alike.{AreSamePurposes, AreSameSettings, MomentIsLike};

use reference_run::one_reference;
use same_program::{alike_law, own_lists_law, same_places_law, same_steps_law};

/// In settings whose programs say the same, a schedule has a reference run in both or in none, the ends are alike, and a fault
/// is at the same item.
pub fn same_runs_law()
    ensures runs { (s t : Setting) (schedule : Schedule) → AreSameSettings s t → ((end : Moment) × IsReference s schedule end) ↔ ((end : Moment) × IsReference t schedule end) }
    ensures ends { (s t : Setting) (schedule : Schedule) (a b : Moment) → AreSameSettings s t → IsReference s schedule a → IsReference t schedule b → MomentIsLike a b }
    ensures faults { (s t : Setting) (schedule : Schedule) (i : ℕ) → AreSameSettings s t → HasFault s schedule i ↔ HasFault t schedule i }
{
    alike_law();
    one_reference();
    same_steps_law();
}

/// For programs that say the same, the same files are fit, and any other has the same first fault, of one kind at one number.
pub fn same_images_law()
    ensures fit { (p q : Purpose) (file : List ℕ) → AreSamePurposes p q → IsFit p file ↔ IsFit q file }
    ensures fault { (p q : Purpose) (file : List ℕ) (kind : TheKind) (at : ℕ) → AreSamePurposes p q → IsFirstFault p file kind at ↔ IsFirstFault q file kind at }
    ensures refused { (p q : Purpose) (file : List ℕ) (fault : TheFault) → AreSamePurposes p q → IsRefused p file fault ↔ IsRefused q file fault }
{
    alike_law();
    own_lists_law();
    same_places_law();
    same_steps_law();
}
