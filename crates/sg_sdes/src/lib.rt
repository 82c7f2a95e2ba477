//! Crypto lines: the keys of SRTP in session descriptions (RFC 4568).
#![tactic(auto)]

mod answers;
mod distinct;
mod inline_keys;
mod key_texts;
mod keys;
mod laws;
mod lines;
mod parameters;
mod printing;
mod reading;
mod words;

pub use answers::{answer_line, choose, match_answer, offer_lines};
pub use inline_keys::InlineKeys;
pub use laws::{crypto_lines_are_read_again, crypto_lines_follow_the_grammar};
pub use lines::{CryptoLine, InlineKey};
pub use printing::print_crypto;
pub use reading::read_crypto;
