//! Tests of the typed program: copies of each form, kinds, rules, and programs that are sound. It has nothing else.
#![tactic(auto)]

#[cfg(test)]
mod contracts;
#[cfg(test)]
mod expressions;
#[cfg(test)]
mod made;
#[cfg(test)]
mod names;
#[cfg(test)]
mod programs;
#[cfg(test)]
mod statements;
