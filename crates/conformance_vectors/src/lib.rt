//! Octets and their meanings from outside, as tests of the codecs, and their calls that take memory.
#![tactic(auto)]

#[cfg(test)]
mod ad;
#[cfg(test)]
mod base;
#[cfg(test)]
mod bluez;
#[cfg(test)]
mod fields;
#[cfg(test)]
mod group_octets;
#[cfg(test)]
mod ltvs;
#[cfg(test)]
mod operations;
#[cfg(test)]
mod pacs;
#[cfg(test)]
mod pdus;
#[cfg(test)]
mod states;
#[cfg(test)]
mod takes;
#[cfg(test)]
mod trains;
