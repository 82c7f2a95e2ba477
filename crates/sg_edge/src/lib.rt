//! Where the gateway's octets come from and go to.
#![tactic(auto)]

mod clock;
mod link;
mod mem_clock;
mod mem_link;
mod mem_noise;
mod memory;
mod noise;
mod pace;
mod ports;
mod rng_noise;
mod sink;
mod source;
mod standard;
mod sure;
mod udp;
mod wall_clock;

pub use clock::Clock;
pub use link::{CallCounts, Link, Receipt};
pub use mem_clock::{MemClock, SureClock};
pub use mem_link::{LinkRecord, MemLink, SureLink};
pub use mem_noise::{MemNoise, SureNoise};
pub use memory::{MemSink, MemSource};
pub use noise::Noise;
pub use rng_noise::{RngNoise, SystemRng};
pub use sink::{Sink, write_all};
pub use source::Source;
pub use standard::{StdSink, StdSource};
pub use sure::{SureSink, SureSource};
pub use udp::UdpLink;
pub use wall_clock::WallClock;
