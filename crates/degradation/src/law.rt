ghost use Rattle.std.specs.Prelude.{◌≡◌, ◌≤◌, ◌<◌, ℕ, List, Some, length, slice_get};
ghost use Rattle.cat_program.specs.Checked.{Checked, IsChecked};
ghost use Rattle.nv_memory.specs.declared.device.Device.{Device as Profile};
ghost use Rattle.cost_bounds.specs.BoundsValue.{BoundsValue};
ghost use Rattle.demand_core.specs.declared.Load.{Load as Asked};
ghost use Rattle.demand_core.specs.Demand.{CanRepeat};
ghost use Rattle.degradation.specs.declared.chosen.Chosen.{Chosen as Choice};
ghost use Rattle.degradation.specs.declared.supply.Supply.{Supply as Given};
ghost use Rattle.degradation.specs.Choice.{base_of, HasBounds, IsChoice, Suits};
ghost use Rattle.degradation.specs.Held.{AreDegraded, IsLoadOf, IsServed};

use cat_program::events_have_headers;

/// What every choice holds of, whatever the code that found it.
pub fn chosen_law()
    ensures served { (p : Checked) (b : BoundsValue) (device : Profile) (supply : Given) (lines : ℕ) (chosen : Choice) → IsChoice p b device supply lines chosen → IsServed b device supply chosen }
    // its versions and loads are those after a front of the degrade order
    ensures degraded { (p : Checked) (b : BoundsValue) (device : Profile) (supply : Given) (lines : ℕ) (chosen : Choice) → IsChoice p b device supply lines chosen →
        (k : ℕ) × (k ≤ length p.mentions) × AreDegraded p b k chosen.versions chosen.loads }
    // demand and supply repeat
    ensures repeats { (p : Checked) (b : BoundsValue) (device : Profile) (supply : Given) (lines : ℕ) (chosen : Choice) → IsChecked p → HasBounds p b →
        IsChoice p b device supply lines chosen → 0 < supply.p → CanRepeat (base_of b device supply) chosen.loads }
{
    degraded_loads_law();
}

/// After each front of the degrade order an event's load is that of its header and of the bound of its version.
pub fn degraded_loads_law()
    ensures { (p : Checked) (b : BoundsValue) (k : ℕ) (versions : List ℕ) (loads : List Asked) → IsChecked p → HasBounds p b → AreDegraded p b k versions loads →
        (event : ℕ) (load : Asked) → slice_get loads event ≡ Some load → IsLoadOf p b versions event load }
{
    events_have_headers();
}

/// Every choice for a checked program has one version and one load of each event.
pub fn choices_suit()
    ensures { (p : Checked) (b : BoundsValue) (device : Profile) (supply : Given) (lines : ℕ) (chosen : Choice) → IsChecked p → HasBounds p b → IsChoice p b device supply lines chosen → Suits p chosen }
{
    events_have_headers();
}
