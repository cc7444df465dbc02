ghost use Rattle.std.specs.Prelude.{◌≡◌};
ghost use Rattle.toml.specs.View.{table_view};
ghost use Rattle.device_profile.specs.Answer.{IsAnswer, answered};
ghost use Rattle.device_profile.specs.Profile as spec;
ghost use Rattle.device_profile.specs.Told.{told};

use crate::extra::has_extra;
use crate::fault::{DeviceFault, KeyFault};
use crate::keys::Key;
use crate::lookups::first_missing;
use crate::parts::{cost_of, fill_at, store_of, supply_of};
use cn_tables::MOST_BYTES;
use nv_memory::Device;
use std::alloc::Global;
use toml::Table;

// The device of a table that has every key and no further one.
fn device_of(table: &Table) -> Result<Device, KeyFault>
    ensures { told result ≡ spec.device_at (table_view table.now) }
{
    let store = store_of(table)?;
    let supply = supply_of(table)?;
    let Some(fill) = fill_at(table) else {
        return Err(KeyFault::Range(Key::Fill));
    };
    let basic = cost_of(table, Key::BasicTicks, Key::BasicBound, Key::BasicActual)?;
    let memory = cost_of(table, Key::MemoryTicks, Key::MemoryBound, Key::MemoryActual)?;
    let out = cost_of(table, Key::OutTicks, Key::OutBound, Key::OutActual)?;
    let write = cost_of(table, Key::WriteTicks, Key::WriteBound, Key::WriteActual)?;
    let wake = cost_of(table, Key::WakeTicks, Key::WakeBound, Key::WakeActual)?;
    Ok(Device {
        cap: store.cap,
        start: store.start,
        resume: store.resume,
        log: supply.log,
        p: supply.p,
        q: supply.q,
        fill,
        basic,
        memory,
        out,
        write,
        wake,
    })
}

// The device of a profile's table.
fn profile_of(table: &Table) -> Result<Device, KeyFault>
    ensures { told result ≡ spec.profile_of (table_view table.now) }
{
    if let Some(key) = first_missing(table) {
        return Err(KeyFault::Missing(key));
    }
    if has_extra(table) {
        return Err(KeyFault::Extra);
    }
    device_of(table)
}

// The answer that a table's device or fault is.
fn answered(found: Result<Device, KeyFault>) -> Result<Device, DeviceFault>
    ensures { result ≡ answered found }
{
    match found {
        Ok(device) => Ok(device),
        Err(KeyFault::Missing(key)) => Err(DeviceFault::DeviceKey(key)),
        Err(KeyFault::Extra) => Err(DeviceFault::DeviceExtra),
        Err(KeyFault::Range(key)) => Err(DeviceFault::DeviceRange(key)),
    }
}

/// The device that a profile tells: TOML with each key of `Key`, each in its range, and no other.
pub fn device(alloc: Global, bytes: &[u8]) -> Result<Device, DeviceFault>
    ensures { IsAnswer bytes.now result }
{
    if bytes.len() > MOST_BYTES {
        return Err(DeviceFault::DeviceLong);
    }
    let Ok(text) = std::str::from_utf8(bytes) else {
        return Err(DeviceFault::DeviceSyntax);
    };
    let table = match toml::table_from_str(alloc, text) {
        Ok(table) => table,
        Err(cause) => {
            if cause.is_memory() {
                return Err(DeviceFault::NoMemory);
            }
            return Err(DeviceFault::DeviceSyntax);
        }
    };
    answered(profile_of(&table))
}
