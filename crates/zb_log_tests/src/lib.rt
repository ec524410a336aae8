//! Tests of the plain values, of the spelling of numbers, deltas and batches, of the conflict table, of a client's log,
//! and of the use of stripes.
#![tactic(auto)]

#[cfg(test)]
mod batches;
#[cfg(test)]
mod cache;
#[cfg(test)]
mod conflict;
#[cfg(test)]
mod deltas;
#[cfg(test)]
mod logs;
#[cfg(test)]
mod numbers;
#[cfg(test)]
mod types;
#[cfg(test)]
mod usage;
