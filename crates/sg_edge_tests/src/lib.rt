//! Tests of the outside: its forms in memory, and the adapters of the system on loopback. They stand in a crate of
//! their own, since a crate with tests is proved twice.
#![tactic(auto)]

#[cfg(test)]
mod outside;
