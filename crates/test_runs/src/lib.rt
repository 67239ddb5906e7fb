//! Tests of the runs of texts, documents and the generator, of what neither a clause of them nor a run of the program shows: boxes of the
//! caller, and how often the outside is called and fails.
#![tactic(auto)]

#[cfg(test)]
mod boxes;
#[cfg(test)]
mod calls;
#[cfg(test)]
mod faults;
#[cfg(test)]
mod kept;
#[cfg(test)]
mod limits;
#[cfg(test)]
mod running;
