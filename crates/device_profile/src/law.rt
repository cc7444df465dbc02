ghost use Rattle.std.specs.Prelude.{◌≡◌};
ghost use Rattle.nv_memory.specs.declared.device.Device.{Device};
ghost use Rattle.device_profile.specs.Told.{profile_told};

/// A device is what its profile tells of it.
pub fn one_device_law()
    ensures { (d e : Device) → profile_told d ≡ profile_told e → d ≡ e }
{}
