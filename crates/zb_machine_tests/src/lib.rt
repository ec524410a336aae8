//! Tests of the client's and the cleaner's machines: each row of their steps, by answers that are written by hand, and
//! many random answers of the right form to a client. What they form is formed by the calls below them.
#![tactic(auto)]

#[cfg(test)]
mod cleaner_bench;
#[cfg(test)]
mod cleaner_rows;
#[cfg(test)]
mod client_bench;
#[cfg(test)]
mod client_random;
#[cfg(test)]
mod client_rows;
#[cfg(test)]
mod servers;
