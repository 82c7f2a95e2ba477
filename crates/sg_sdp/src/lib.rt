//! Session descriptions, read, printed and carried to the other side (RFC 4566).
#![tactic(auto)]

mod addresses;
mod carrying;
mod faults;
mod form;
mod laws;
mod medium;
mod printing;
mod reading;
mod sdp;

pub use faults::ReadSdpFault;
pub use laws::{
    a_carried_text_is_a_description, a_description_stays_one, descriptions_have_one_value,
};
pub use medium::{Lines, Media, Medium, Profile};
pub use reading::read;
pub use sdp::Sdp;
