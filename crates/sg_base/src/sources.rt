//! Which sources a session admits.

/// Which synchronization sources a session admits (RFC 3711, 3.2): any, one alone, or the first that
/// is opened or sealed, and then that one alone.
#[derive(Clone, Copy)]
pub enum Admit {
    Any,
    One(u32),
    FirstSeen,
}
