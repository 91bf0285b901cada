//! Tests of the reader of units: texts with the parts that are read from them. It has nothing else.
#![tactic(auto)]

#[cfg(test)]
mod declarations;
#[cfg(test)]
mod heights;
#[cfg(test)]
mod reading;
#[cfg(test)]
mod rows;
#[cfg(test)]
mod statements;
#[cfg(test)]
mod written;
