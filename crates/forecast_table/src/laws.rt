ghost use Rattle.std.specs.Prelude.{◌≡◌, ◌+◌, ◌<◌, ◌≤◌, ℕ, List, Some, Ok, slice_get};
ghost use Rattle.forecast_table.specs.declared.epoch.Epoch.{Epoch as Row};
ghost use Rattle.forecast_table.specs.Epochs.{in_force, IsForecast};
ghost use Rattle.forecast_table.specs.Table.{forecast_of};

/// A row of a forecast is in force from its own tick on, until the next one begins: a law of the definitions.
pub fn epochs_law()
    ensures { (rows : List Row) (i : ℕ) (row : Row) (t : ℕ) → IsForecast rows → slice_get rows i ≡ Some row → row.tick ≤ t →
        ((next : Row) → slice_get rows (i + 1) ≡ Some next → t < next.tick) → in_force rows t ≡ Some row }
{}

/// The rows that a text spells are a forecast: a law of the definitions.
pub fn told_forecasts_are_sound()
    ensures { (bytes : List ℕ) (rows : List Row) → forecast_of bytes ≡ Ok rows → IsForecast rows }
{}
