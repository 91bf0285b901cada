//! Tests of decimals, lists, choosers, watches and the reader of choice lists. It has nothing else.
#![tactic(auto)]

#[cfg(test)]
mod decimals;
#[cfg(test)]
mod lists;
#[cfg(test)]
mod readings;
#[cfg(test)]
mod runs;
