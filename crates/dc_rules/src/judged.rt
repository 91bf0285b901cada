// Types, and why an expression has none.
ghost use Rattle.std.specs.Prelude.{◌≡◌};
ghost use Rattle.dc_layout.specs.Types.{type_view};
ghost use Rattle.dc_program.specs.Typing.{keeps as kept};
ghost use Rattle.dc_rules.specs.Judged.{Answers};
ghost use Rattle.dc_rules.specs.Seen.{seen};
ghost use Rattle.dc_rules.specs.declared.judged.Refused.TheVariants.{Memory};

use dc_program::{CType, Rule};
use std::alloc::AllocError;
use thiserror::Error;

/// Why an expression of some parts was given no type.
#[derive(Debug, Drop, Error)]
pub enum Refused {
    /// The parts break this rule.
    #[error("rule broken")]
    Rule(Rule),

    /// There was no memory for the type.
    #[error("memory")]
    Memory(AllocError),
}

impl From<AllocError> for Refused {
    ghost from_gives = { λ e refused. refused ≡ Memory e };

    fn from(error: AllocError) -> Self {
        Refused::Memory(error)
    }
}

/// The type where a test holds, else the rule.
pub fn keeps(rule: Rule, holds: bool, t: CType) -> Result<CType, Rule>
    ensures { seen result ≡ kept rule holds (type_view t) }
{
    if holds { Ok(t) } else { Err(rule) }
}

/// An answer that took no memory, beside others that do.
pub fn answered(answer: Result<CType, Rule>) -> Result<CType, Refused>
    ensures { Answers result (seen answer) }
{
    match answer {
        Ok(t) => Ok(t),
        Err(rule) => Err(Refused::Rule(rule)),
    }
}
