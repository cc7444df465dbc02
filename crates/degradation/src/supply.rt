ghost use Rattle.std.specs.Prelude.{◌≡◌};
ghost use Rattle.degradation.specs.Choice.{supply_of};

use nv_memory::Device;

/// What the surroundings are taken to give: in every `p` ticks in a row at least `q` units are harvested.
#[derive(Clone, Copy, Debug, PartialEq, Eq)]
pub struct Supply {
    pub p: u32,
    pub q: u32,
}

impl Supply {
    /// What a device's profile guarantees.
    pub fn of(device: &Device) -> Supply
        ensures { result ≡ supply_of device.now }
    {
        Supply {
            p: device.p,
            q: device.q,
        }
    }
}
