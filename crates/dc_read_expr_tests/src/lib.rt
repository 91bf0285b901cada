//! Tests of the reader of expressions: texts with the trees that are read from them. It has nothing else.
#![tactic(auto)]

#[cfg(test)]
mod alternatives;
#[cfg(test)]
mod heights;
#[cfg(test)]
mod places;
#[cfg(test)]
mod reading;
#[cfg(test)]
mod types;
#[cfg(test)]
mod written;
