//! Tests of the public calls of the crates of senders, sources, relays, receivers, sinks and assistants that no scenario shows: each call
//! that takes memory succeeds once where there is enough.
#![tactic(auto)]

#[cfg(test)]
mod assistants;
#[cfg(test)]
mod framed_receivers;
#[cfg(test)]
mod numbers;
#[cfg(test)]
mod players;
#[cfg(test)]
mod receivers;
#[cfg(test)]
mod refused_takers;
#[cfg(test)]
mod refusing;
#[cfg(test)]
mod relays;
#[cfg(test)]
mod scan_delegators;
#[cfg(test)]
mod sources;
#[cfg(test)]
mod taken;
#[cfg(test)]
mod two_sources;
