//! Tests of the crates at the base: fields of texts, pads, key identifiers, packet heads, indices, replay windows, AES and
//! its keystreams, codes, derived keys and lanes. They stand in a crate of their own, since a crate with tests is proved
//! twice.
#![tactic(auto)]

#[cfg(test)]
mod blocks;
#[cfg(test)]
mod codes;
#[cfg(test)]
mod derivations;
#[cfg(test)]
mod fields;
#[cfg(test)]
mod heads;
#[cfg(test)]
mod identifiers;
#[cfg(test)]
mod indices;
#[cfg(test)]
mod keystreams;
#[cfg(test)]
mod lanes;
#[cfg(test)]
mod pads;
#[cfg(test)]
mod windows;
