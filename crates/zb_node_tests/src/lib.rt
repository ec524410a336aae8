//! Tests of the file manager's node: stops of its changes, openings of its platter with each server lost, and a journal that fills.
#![tactic(auto)]

#[cfg(test)]
mod bench;
#[cfg(test)]
mod filling;
#[cfg(test)]
mod losses;
#[cfg(test)]
mod openings;
#[cfg(test)]
mod stops;
#[cfg(test)]
mod stripes;
