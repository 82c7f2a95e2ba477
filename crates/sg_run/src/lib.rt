//! The top call: a command's words, and what it is given of the outside.
#![tactic(auto)]

mod laws;
mod top;

pub use laws::{
    demonstrations_count_what_is_told, lines_say_what_is_told, migrations_write_what_is_migrated,
    runs_go_by_their_option,
};
pub use sg_demo::{Summary, traffic};
pub use sg_trace::Status;
pub use top::run;
