//! Tests of the top call, on a shelf and sinks in memory, and of the real outside. It has nothing else.
#![tactic(auto)]

#[cfg(test)]
mod answers;
#[cfg(test)]
mod broken_sources;
#[cfg(test)]
mod bytes;
#[cfg(test)]
mod calls;
#[cfg(test)]
mod cuts;
#[cfg(test)]
mod ends;
#[cfg(test)]
mod expressions;
#[cfg(test)]
mod forgotten;
#[cfg(test)]
mod forms;
#[cfg(test)]
mod harness;
#[cfg(test)]
mod instructions;
#[cfg(test)]
mod objects;
#[cfg(test)]
mod real_outside;
#[cfg(test)]
mod replays;
#[cfg(test)]
mod rows;
#[cfg(test)]
mod seen;
#[cfg(test)]
mod write_sets;
