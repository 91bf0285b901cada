//! Tests of the machine on programs that are built by hand. It has nothing else.
#![tactic(auto)]

#[cfg(test)]
mod beyond;
#[cfg(test)]
mod build;
#[cfg(test)]
mod far;
#[cfg(test)]
mod jumps;
#[cfg(test)]
mod kills;
#[cfg(test)]
mod last_objects;
#[cfg(test)]
mod numbers;
#[cfg(test)]
mod runs;
