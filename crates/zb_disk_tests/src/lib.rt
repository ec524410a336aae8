//! Tests of the disk: the outside and its devices, cells, and what stands on them.
#![tactic(auto)]

#[cfg(test)]
mod cell;
#[cfg(test)]
mod checkpoint;
#[cfg(test)]
mod devices;
#[cfg(test)]
mod journal;
