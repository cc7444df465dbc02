ghost use Rattle.std.specs.Prelude.{◌≡◌, ◌≢◌, ℕ, ◌∷◌, [], List};
ghost use Rattle.cat_program.specs.Checked.{Checked};
ghost use Rattle.nv_memory.specs.declared.device.Device.{Device as Profile};
ghost use Rattle.cost_bounds.specs.BoundsValue.{BoundsValue};
ghost use Rattle.feasibility.specs.declared.choose.ChooseFault.{ChooseFault as Fault};
ghost use Rattle.feasibility.specs.declared.choose.ChooseFault.TheVariants.{NoMemory};
ghost use Rattle.degradation.specs.declared.chosen.Chosen.{Chosen as Choice};
ghost use Rattle.degradation.specs.Choice.{supply_of, IsChoice, IsNoChoice};
ghost use Rattle.same_program.specs.Setting.{AreSettings};
ghost use Rattle.forecast_table.specs.declared.epoch.Epoch.{Epoch as Row};
ghost use Rattle.forecast_choice.specs.Rows.{row_of, AreChoices, IsFirstRefused};

use same_program::one_choice_law;

/// With one row, which says of the harvest what the device's profile guarantees, the choices are the one of `choose`, and so is the
/// reason why there is none.
pub fn one_row_law()
    ensures chosen { (p : Checked) (b : BoundsValue) (device : Profile) (lines : ℕ) (found : List Choice) → AreChoices p b device lines (row_of device ∷ []) found →
        (chosen : Choice) × (found ≡ chosen ∷ []) × IsChoice p b device (supply_of device) lines chosen }
    ensures alone { (p : Checked) (b : BoundsValue) (device : Profile) (lines : ℕ) (chosen : Choice) → IsChoice p b device (supply_of device) lines chosen →
        AreChoices p b device lines (row_of device ∷ []) (chosen ∷ []) }
    ensures refused { (p : Checked) (b : BoundsValue) (device : Profile) (lines number : ℕ) (fault : Fault) → IsFirstRefused p b device lines (row_of device ∷ []) number fault →
        (number ≡ 1) × IsNoChoice p b device (supply_of device) fault }
    ensures first { (p : Checked) (b : BoundsValue) (device : Profile) (lines : ℕ) (fault : Fault) → IsNoChoice p b device (supply_of device) fault →
        IsFirstRefused p b device lines (row_of device ∷ []) 1 fault }
{}

/// A program on a device has one list of choices for the rows of a forecast, or one first row that has none and one reason for it,
/// and not both; so have two programs that say the same. Want of memory is no reason.
pub fn one_rows_law()
    ensures choices { (p q : Checked) (d : Profile) (lines : ℕ) (b c : BoundsValue) → AreSettings p q d lines b c →
        (rows : List Row) (found other : List Choice) → AreChoices p b d lines rows found → AreChoices q c d lines rows other → found ≡ other }
    ensures reasons { (p q : Checked) (d : Profile) (lines : ℕ) (b c : BoundsValue) → AreSettings p q d lines b c → AreSettings q p d lines c b →
        (rows : List Row) (m n : ℕ) (f g : Fault) → IsFirstRefused p b d lines rows m f → IsFirstRefused q c d lines rows n g → f ≢ NoMemory → g ≢ NoMemory →
        (m ≡ n) × (f ≡ g) }
    ensures either { (p q : Checked) (d : Profile) (lines : ℕ) (b c : BoundsValue) → AreSettings p q d lines b c →
        (rows : List Row) (found : List Choice) (n : ℕ) (f : Fault) → AreChoices p b d lines rows found → IsFirstRefused q c d lines rows n f → f ≡ NoMemory }
{
    one_choice_law();
}
