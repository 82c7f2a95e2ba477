//! The auditor's pages.
#![tactic(auto)]

mod laws;

pub use laws::{
    keys_are_agreed, open_sessions_stay, sessions_are_open, the_audit_holds, the_pages_hold,
};
