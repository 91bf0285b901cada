// What expressions are asked in.

use crate::registers::Registers;
use dc_memory::Store;
use dc_writeset::WriteSets;

/// What expressions are asked in: the registers, the memory and the write sets.
#[derive(Clone, Copy)]
pub struct Surroundings<'a> {
    pub regs: &'a Registers,
    pub memory: &'a Store,
    pub sets: &'a WriteSets,
}
