//! The command `migrate`: a script of version 1 is written as one of version 2.
#![tactic(auto)]

mod laws;
mod lines;
mod migrating;

pub use laws::{
    migrated_scripts_are_of_version_two, migrated_scripts_tell_the_same,
    moments_of_datagrams_are_ticks,
};
pub use migrating::migrate;
