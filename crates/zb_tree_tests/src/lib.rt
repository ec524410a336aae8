//! Tests of the names and the plain tree as a value; and of the files' blocks and the file manager, with random batches
//! beside the plain tree.
#![tactic(auto)]

#[cfg(test)]
mod checkpoint_bytes;
#[cfg(test)]
mod first_run;
#[cfg(test)]
mod history;
#[cfg(test)]
mod manager;
#[cfg(test)]
mod names;
#[cfg(test)]
mod pointers;
#[cfg(test)]
mod random_batches;
