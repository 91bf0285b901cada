//! Tests of types and their layout, of structs beside what a C compiler gives. It has nothing else.
#![tactic(auto)]

#[cfg(test)]
mod copies;
#[cfg(test)]
mod faults;
#[cfg(test)]
mod limits;
#[cfg(test)]
mod made;
#[cfg(test)]
mod rows;
