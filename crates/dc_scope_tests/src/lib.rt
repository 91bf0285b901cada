//! Tests of scopes and of the members of structs. It has nothing else.
#![tactic(auto)]

#[cfg(test)]
mod copies;
#[cfg(test)]
mod hiding;
#[cfg(test)]
mod members;
#[cfg(test)]
mod second;
#[cfg(test)]
mod steps;
#[cfg(test)]
mod what;
