//! MIKEY messages of the pre-shared-key method, read and printed (RFC 3830).
#![tactic(auto)]

mod chain;
mod faults;
mod fields;
mod laws;
mod message;
mod payload;
mod payloads;
mod policy;
mod printing;
mod reading;

pub use faults::ReadMikeyFault;
pub use laws::{message_law, steps_law};
pub use message::{CsEntry, Message, Tgk, Tgks};
pub use payload::Payload;
pub use policy::Policy;
pub use printing::print;
pub use reading::read;
pub use sg_base::Items;
