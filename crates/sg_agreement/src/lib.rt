//! What an offer and its answer agree (RFC 3264, RFC 4568, RFC 4567): its definitions, its laws, and which media are
//! active.
#![tactic(auto)]

mod laws;
mod sides;
mod ways;

pub use laws::{
    active_media_are_agreed, active_media_are_taken_in_order, agreements_are_sound,
    no_key_goes_to_the_plain_side, offers_fit_their_calls, own_messages_encrypt,
    what_is_agreed_stands_in_the_texts,
};
pub use sides::{is_active, is_any_active, is_of_side, unaddressed};
pub use ways::Way;
