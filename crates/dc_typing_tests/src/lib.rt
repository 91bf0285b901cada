//! Tests of typed expressions: sources with what they mean or the first rule that they break. It has nothing else.
#![tactic(auto)]

#[cfg(test)]
mod accepted;
#[cfg(test)]
mod judging;
#[cfg(test)]
mod refused;
#[cfg(test)]
mod shown;
#[cfg(test)]
mod surroundings;
