//! There is one plan.

ghost use Rattle.std.specs.Prelude.{◌≡◌, ℕ};
ghost use Rattle.cat_program.specs.Checked.{Checked};
ghost use Rattle.nv_memory.specs.declared.device.Device.{Device};
ghost use Rattle.cost_bounds.specs.BoundsValue.{BoundsValue};
ghost use Rattle.same_program.specs.Setting.{AreSettings};
ghost use Rattle.cn_plan.specs.declared.answer.Least.{Least};
ghost use Rattle.cn_plan.specs.declared.answer.LeastFault.TheVariants.{WindowTooLong};
ghost use Rattle.cn_plan.specs.Least.{IsLeast, IsLeastFault};

use same_program::{one_bounds_law, one_choice_law};

/// Programs that say the same have one plan on a device, or one spacing with which there is none.
pub fn one_plan_law()
    ensures plan { (p q : Checked) (d : Device) (lines : ℕ) (b c : BoundsValue) → AreSettings p q d lines b c →
        (x y : Least) → IsLeast p b d lines x → IsLeast q c d lines y → x ≡ y }
    ensures spacing { (p q : Checked) (d : Device) (lines : ℕ) (b c : BoundsValue) → AreSettings p q d lines b c →
        (s t : ℕ) → IsLeastFault p b d (WindowTooLong s) → IsLeastFault q c d (WindowTooLong t) → s ≡ t }
    ensures either { (p q : Checked) (d : Device) (lines : ℕ) (b c : BoundsValue) → AreSettings p q d lines b c →
        (x : Least) (s : ℕ) → IsLeast p b d lines x → IsLeastFault q c d (WindowTooLong s) → ⊥ }
{
    one_bounds_law();
    one_choice_law();
}
