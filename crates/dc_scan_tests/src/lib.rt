//! Tests of scanning: texts that are printed again as they stood, and texts that are refused. Beside them it has nothing
//! but the texts that other tests run on too.
#![tactic(auto)]

#[cfg(test)]
mod answers;
#[cfg(test)]
mod bounds;
pub mod examples;
#[cfg(test)]
mod expressions;
#[cfg(test)]
mod frames;
#[cfg(test)]
mod instructions;
#[cfg(test)]
mod lines;
#[cfg(test)]
mod refused;
#[cfg(test)]
mod texts;
