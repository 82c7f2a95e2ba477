//! Tests of key sets and the ring, of a session's two sides, and of a telephone's end of a session. They stand in a
//! crate of their own, since a crate with tests is proved twice.
#![tactic(auto)]

#[cfg(test)]
mod key_sets;
#[cfg(test)]
mod peers;
#[cfg(test)]
mod rings;
#[cfg(test)]
mod sides;
