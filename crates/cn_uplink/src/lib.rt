//! The committed log of a replay over a bad link: a table of steps, a sender with a window of packets, and a host that holds what
//! arrives in order.
#![tactic(auto)]

mod counts;
mod laws;
mod link_step;
mod link_steps;
mod log;
mod packet;
mod table;
mod text;
mod wire;
mod world;

pub use counts::Counts;
pub use laws::{links_are_faithful, one_uplink_text, prefixes_go_on};
pub use link_step::{LinkKind, LinkStep};
pub use link_steps::Links;
pub use log::committed_log;
pub use packet::Packet;
pub use table::{LinkFault, links};
pub use text::write_uplink;
pub use world::World;
