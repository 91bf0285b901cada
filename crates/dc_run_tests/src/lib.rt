//! Tests of the source's runs on programs that are read, and on one that no source has. It has nothing else.
#![tactic(auto)]

#[cfg(test)]
mod build;
#[cfg(test)]
mod runs;
