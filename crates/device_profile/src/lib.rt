//! The device that a profile in TOML tells.
#![tactic(auto)]

mod extra;
mod fault;
mod keys;
mod law;
mod lookups;
mod parts;
mod profile;
#[cfg(test)]
mod tests;

pub use fault::DeviceFault;
pub use keys::Key;
pub use law::one_device_law;
pub use profile::device;
