//! Tests of the crates that read and print texts: lines, outcomes, session descriptions, crypto lines and MIKEY messages.
//! They stand in a crate of their own, since a crate with tests is proved twice.
#![tactic(auto)]

#[cfg(test)]
mod bridge_outcomes;
#[cfg(test)]
mod crypto_answers;
#[cfg(test)]
mod crypto_lines;
#[cfg(test)]
mod descriptions;
#[cfg(test)]
mod lines;
#[cfg(test)]
mod messages;
#[cfg(test)]
mod outcomes;
