//! What an offer and its answer leave of a call, in states whose calls use them up (RFC 3264).
#![tactic(auto)]

mod answering;
mod attributes;
mod books;
mod carrying;
mod describing;
mod idle;
mod keyed;
mod keying;
mod live;
mod media;
mod media_spec;
mod messages;
mod noting;
mod offered;
mod replying;
mod settling;
mod sides;

pub use books::Books;
pub use idle::{Idle, ManualMedium};
pub use keying::{Bundle, Keying, Opening};
pub use live::{Ended, Live};
pub use media_spec::{MEDIUM_SIDES, MediaSpec, SideSpec};
pub use offered::Offered;
pub use sg_agreement::Way;
