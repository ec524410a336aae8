//! Tests of stripes: where bytes lie, parities, plans of reads and writes, servers in memory, and a server on its platter.
#![tactic(auto)]

#[cfg(test)]
mod growing;
#[cfg(test)]
mod layout;
#[cfg(test)]
mod node;
#[cfg(test)]
mod parity;
#[cfg(test)]
mod reads;
#[cfg(test)]
mod servers;
#[cfg(test)]
mod writes;
