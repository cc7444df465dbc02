//! From the bytes of a profile to its device.

ghost use Rattle.std.specs.Prelude.{◌≡◌};
ghost use Rattle.catnap_top.specs.Files.{device_in, stop_of_device};
ghost use Rattle.catnap_top.specs.Look.{Looks};

use crate::fault::{Fault, ProfileFault};
use crate::stop::Stop;
use device_profile::{DeviceFault, device};
use nv_memory::Device;
use std::alloc::Global;

fn stop_for_device(fault: DeviceFault) -> Stop
    ensures { result ≡ stop_of_device fault }
{
    let kind = match fault {
        DeviceFault::DeviceLong => ProfileFault::Long,
        DeviceFault::DeviceSyntax => ProfileFault::Syntax,
        DeviceFault::DeviceKey(key) => ProfileFault::Missing(key),
        DeviceFault::DeviceExtra => ProfileFault::Extra,
        DeviceFault::DeviceRange(key) => ProfileFault::Range(key),
        DeviceFault::NoMemory => return Stop::NoMemory,
    };
    Stop::Refused(Fault::Device(kind))
}

/// The device of a profile, or the first reason for which it is refused.
pub fn device_of(alloc: Global, profile: &[u8]) -> Result<Device, Stop>
    ensures { Looks (device_in profile.now) result }
{
    match device(alloc, profile) {
        Ok(device) => Ok(device),
        Err(fault) => Err(stop_for_device(fault)),
    }
}
