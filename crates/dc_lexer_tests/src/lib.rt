//! Tests of the lexer: sources with their tokens, and where the reading of others stops. It has nothing else.
#![tactic(auto)]

#[cfg(test)]
mod answers;
#[cfg(test)]
mod bounds;
#[cfg(test)]
mod refused;
#[cfg(test)]
mod taken;
