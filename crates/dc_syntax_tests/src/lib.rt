//! Tests of the grammar's tokens, of the names in force, of heights and of copies of trees. It has nothing else.
#![tactic(auto)]

#[cfg(test)]
mod copies;
#[cfg(test)]
mod heights;
#[cfg(test)]
mod names;
#[cfg(test)]
mod parts;
#[cfg(test)]
mod words;
