//! Tests of what stores fragments on a platter: headers, slots, the index, the map of slots, and the store.
#![tactic(auto)]

#[cfg(test)]
mod counting;
#[cfg(test)]
mod headers;
#[cfg(test)]
mod index;
#[cfg(test)]
mod map;
#[cfg(test)]
mod opening;
#[cfg(test)]
mod slots;
#[cfg(test)]
mod store;
#[cfg(test)]
mod system;
