//! Tests of the types of expressions and of integer constants. Beside them it has nothing but the types that other tests run on
//! too.
#![tactic(auto)]

#[cfg(test)]
mod constants;
pub mod made;
#[cfg(test)]
mod operators;
#[cfg(test)]
mod parts;
#[cfg(test)]
mod shown;
#[cfg(test)]
mod words;
