ghost use Rattle.std.specs.Prelude.{◌≡◌, ◌<◌, ◌≤◌, ◌∷◌, [], length, slice_get, Some, None, IfOk, MatchOption};
ghost use Rattle.forecast_table.specs.Epochs.{in_force, IsForecast};

use crate::epoch::Epoch;
use cn_base::NoMemory;
use std::alloc::Global;
use std::marker::Model;

/// The greatest number of rows of a forecast.
pub const MOST_EPOCHS: u32 = 64;

/// The rows of a forecast, at least one and at most [`MOST_EPOCHS`]: the first begins at tick 0, each other one after the row before
/// it. Their ticks are below `MOST_TICKS`; `p` is 1 to 1,000,000, `q` at most 1,000,000.
#[derive(Drop)]
pub struct Forecast {
    rows: Vec<Epoch>,
}

impl Model for Forecast {
    ghost use Rattle.std.specs.Prelude.{List};
    ghost use Rattle.forecast_table.specs.declared.epoch.Epoch.{Epoch};
    ghost use Rattle.forecast_table.specs.Epochs.{IsForecast};

    ghost Value = { List Epoch };

    ghost view = { λ f. f.rows.items };

    ghost invariant = { λ f. IsForecast f.rows.items };
}

// The place of the last row that begins at a tick or before it.
fn found_in(rows: &[Epoch], tick: u32) -> Option<usize>
    ensures { MatchOption result (in_force rows.now tick ≡ None) (λ i. (i < length rows.now) × (slice_get rows.now i ≡ in_force rows.now tick)) }
{
    let mut found = None;
    for (i, row) in rows.iter().enumerate() {
        if tick < row.tick {
            continue;
        }
        found = Some(i);
    }
    found
}

impl Forecast {
    pub(crate) fn of(rows: Vec<Epoch>) -> Forecast
        requires { IsForecast rows.items }
        ensures { result ≡ rows.items }
    {
        Forecast { rows }
    }

    /// The forecast of one row: at all times at least `q` units in every `p` ticks.
    pub fn steady(alloc: Global, p: u32, q: u32) -> Result<Forecast, NoMemory>
        requires some { 1 ≤ p }
        requires p { p ≤ 1000000 }
        requires q { q ≤ 1000000 }
        ensures { IfOk result (λ f. f ≡ record { tick = 0; p = p; q = q } ∷ []) }
    {
        let row = Epoch { tick: 0, p, q };
        match vec![in alloc; row] {
            Ok(rows) => Ok(Forecast::of(rows)),
            Err(_) => Err(NoMemory),
        }
    }

    /// The rows in order.
    pub fn rows(&self) -> &[Epoch]
        ensures rows { result.now ≡ self.now }
        ensures sound { IsForecast self.now }
    {
        self.rows.as_slice()
    }

    /// The place of the row in force at a tick, the first row's being 0.
    pub fn place_at(&self, tick: u32) -> usize
        ensures within { result < length self.now }
        ensures row { slice_get self.now result ≡ in_force self.now tick }
    {
        match found_in(self.rows(), tick) {
            Some(place) => place,
            None => unreachable!(),
        }
    }

    /// The row in force at a tick.
    pub fn at(&self, tick: u32) -> Epoch
        ensures { in_force self.now tick ≡ Some result }
    {
        self.rows()[self.place_at(tick)]
    }
}
