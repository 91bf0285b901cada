// Code that grows, and its numbers.
ghost use Rattle.std.specs.Prelude.{◌≡◌, ◌+◌, [], ◌∷◌, ◌++◌, map, IfOk, OnOk};
ghost use Rattle.dc_goto.specs.View.{instr_view};

use dc_goto::Instr;
use sqlite_items::Items;
use std::alloc::AllocError;

/// A sum, or no memory: no program is that long.
pub fn sum(a: u64, b: u64) -> Result<u64, AllocError>
    ensures { IfOk result (λ n. n ≡ a + b) }
{
    match a.checked_add(b) {
        Some(n) => Ok(n),
        None => Err(AllocError),
    }
}

/// One more instruction.
pub fn put(out: &mut Items<Instr>, instr: Instr) -> Result<(), AllocError>
    ensures { OnOk result (map instr_view out.new ≡ map instr_view out.old ++ instr_view instr ∷ []) }
{
    out.push(instr)
}
