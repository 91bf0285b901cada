//! Tests of arithmetic: edge values of each kind beside what a C compiler makes of them. It has nothing else.
#![tactic(auto)]

#[cfg(test)]
mod binary;
#[cfg(test)]
mod conversions;
#[cfg(test)]
mod pointers;
#[cfg(test)]
mod shown;
