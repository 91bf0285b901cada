// The whole unit.
ghost use Rattle.std.specs.Prelude.{◌≡◌, IfErr, IfOk};
ghost use Rattle.dc_syntax.specs.Parts.{Part};
ghost use Rattle.dc_syntax.specs.UnitView.{unit_view};
ghost use Rattle.dc_read_expr.specs.declared.fault.Syntax.TheVariants.{NoReading};
ghost use Rattle.dc_read_unit.specs.ExternalParts.{SpellsLow};

use crate::clauses::Level;
use dc_read_expr::Syntax;
use dc_syntax::{Token, Unit, first_typedefs};
use std::alloc::Global;

const GREATEST_HEIGHT: u64 = 128;

/// The unit (C11 6.9) of height at most 128 that these tokens spell, with the typedefs of the skipped headers in force
/// before it.
///
/// The error is `NoReading` exactly where they spell none, if memory doesn't run out first.
/// It is `Memory` where there is no memory for the unit or for what is in force, and nothing of the unit is left then.
pub fn read_unit(alloc: Global, tokens: &[Token<'_>]) -> Result<Unit, Syntax>
    ensures read { IfOk result (λ u. SpellsLow tokens.now (unit_view u)) }
    ensures none { IfErr result (λ e. e ≡ NoReading → (u : Part) → SpellsLow tokens.now u → ⊥) }
{
    let names = first_typedefs(alloc)?;
    let level = Level {
        alloc,
        tokens: &*tokens,
        budget: GREATEST_HEIGHT,
    };
    match level.externals(&names, 0)? {
        None => Err(Syntax::NoReading),
        Some(list) => Ok(Unit {
            externals: list.parts,
        }),
    }
}
