//! HMAC over SHA-1 (RFC 2104), with keys that are hashed once, and the pseudo-random function that MIKEY
//! makes of it (RFC 3830, 4.1).
#![tactic(auto)]

mod hmac;
mod laws;
mod pseudo_random;
mod tag;

pub use hmac::{MAC_LEN, Mac, MacKey};
pub use laws::hmac_sha1_length;
pub use pseudo_random::{labelled_key, prf};
pub use tag::tag_fits;
