ghost use Rattle.std.specs.Prelude.{◌≡◌, ◌≤◌, Some, IfSome, IfOk};
ghost use Rattle.toml.specs.View.{table_view, view};
ghost use Rattle.device_profile.specs.InRange.{IsStoreInRange, IsSupplyInRange};
ghost use Rattle.device_profile.specs.Profile as spec;
ghost use Rattle.device_profile.specs.Told.{told_cost};
ghost use Rattle.device_profile.specs.declared.keys.Key.TheVariants as key;

use crate::fault::KeyFault;
use crate::keys::Key;
use crate::lookups::value;
use cn_base::Fill;
use cn_tables::{fill_of, within};
use nv_memory::Cost;
use toml::{Table, Value};

/// The fill of the device.
pub(crate) fn fill_at(table: &Table) -> Option<Fill>
    ensures { result ≡ spec.fill_in (spec.value_at key.Fill (table_view table.now)) }
{
    match value(table, Key::Fill) {
        Some(found) => match found.as_str() {
            Some(text) => fill_of(text.as_bytes()),
            None => None,
        },
        None => None,
    }
}

/// The store of a device.
#[derive(Clone, Copy, Debug)]
pub(crate) struct Store {
    pub cap: u32,
    pub start: u32,
    pub resume: u32,
}

/// The log's length and the guaranteed harvest.
#[derive(Clone, Copy, Debug)]
pub(crate) struct Supply {
    pub log: u32,
    pub p: u32,
    pub q: u32,
}

// The number that a value is, from `least` to `most`.
fn number_of(found: &Value, least: u32, most: u32) -> Option<u32>
    ensures value { result ≡ spec.number_in least most (Some (view found.now)) }
    ensures least { IfSome result (λ n. least ≤ n) }
    ensures most { IfSome result (λ n. n ≤ most) }
{
    match found.as_integer() {
        Some(found) => within(found, least, most),
        None => None,
    }
}

// The number at a key, from `least` to `most`.
fn number(table: &Table, key: Key, least: u32, most: u32) -> Option<u32>
    ensures value { result ≡ spec.number_in least most (spec.value_at key (table_view table.now)) }
    ensures least { IfSome result (λ n. least ≤ n) }
    ensures most { IfSome result (λ n. n ≤ most) }
{
    match value(table, key) {
        Some(found) => number_of(found, least, most),
        None => None,
    }
}

/// The cost at three keys.
pub(crate) fn cost_of(table: &Table, ticks: Key, bound: Key, actual: Key) -> Result<Cost, KeyFault>
    ensures { told_cost result ≡ spec.cost_at ticks bound actual (table_view table.now) }
{
    let Some(ticks) = number(table, ticks, 1, 1_000) else {
        return Err(KeyFault::Range(ticks));
    };
    let Some(bound) = number(table, bound, 0, 1_000_000) else {
        return Err(KeyFault::Range(bound));
    };
    let Some(actual) = number(table, actual, 0, 1_000_000) else {
        return Err(KeyFault::Range(actual));
    };
    Ok(Cost {
        ticks,
        bound,
        actual,
    })
}

/// The store of the device.
pub(crate) fn store_of(table: &Table) -> Result<Store, KeyFault>
    ensures value { result ≡ spec.store_at (table_view table.now) }
    ensures in_range { IfOk result IsStoreInRange }
{
    let Some(cap) = number(table, Key::Cap, 1, 1_000_000) else {
        return Err(KeyFault::Range(Key::Cap));
    };
    let Some(start) = number(table, Key::Start, 0, cap) else {
        return Err(KeyFault::Range(Key::Start));
    };
    let Some(resume) = number(table, Key::Resume, 0, cap) else {
        return Err(KeyFault::Range(Key::Resume));
    };
    Ok(Store { cap, start, resume })
}

/// The log's length and the guaranteed harvest.
pub(crate) fn supply_of(table: &Table) -> Result<Supply, KeyFault>
    ensures value { result ≡ spec.supply_at (table_view table.now) }
    ensures in_range { IfOk result IsSupplyInRange }
{
    let Some(log) = number(table, Key::Log, 1, 1_000_000) else {
        return Err(KeyFault::Range(Key::Log));
    };
    let Some(p) = number(table, Key::P, 1, 1_000_000) else {
        return Err(KeyFault::Range(Key::P));
    };
    let Some(q) = number(table, Key::Q, 0, 1_000_000) else {
        return Err(KeyFault::Range(Key::Q));
    };
    Ok(Supply { log, p, q })
}
