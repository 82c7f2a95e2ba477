//! Tests of MIKEY exchanges and of crypto sessions. They stand in a crate of their own, since a crate with tests is
//! proved twice.
#![tactic(auto)]

#[cfg(test)]
mod crypto_sessions;
#[cfg(test)]
mod exchange_rows;
#[cfg(test)]
mod exchanges;
#[cfg(test)]
mod session_rows;
