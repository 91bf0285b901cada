//! Tests of the memory: objects, ranges, values of each kind as bytes, and blocks of bytes. It has nothing else.
#![tactic(auto)]

#[cfg(test)]
mod blocks;
#[cfg(test)]
mod objects;
#[cfg(test)]
mod ranges;
#[cfg(test)]
mod stores;
#[cfg(test)]
mod values;
