//! Tests of sets of what may be written and freed. It has nothing else.
#![tactic(auto)]

#[cfg(test)]
mod allowed;
#[cfg(test)]
mod below;
#[cfg(test)]
mod freed;
#[cfg(test)]
mod listed;
#[cfg(test)]
mod nested;
#[cfg(test)]
mod steps;
