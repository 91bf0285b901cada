// Why there is no typed expression.
ghost use Rattle.std.specs.Prelude.{◌≡◌};
ghost use Rattle.dc_typing.specs.declared.refusal.Refusal.TheVariants.{Memory};

use dc_program::Rule;
use dc_text::Site;
use std::alloc::AllocError;
use thiserror::Error;

/// Why there is no typed expression.
#[derive(Debug, Drop, Error)]
pub enum Refusal {
    /// This rule is the first that is broken, by the phrase whose last token this is.
    #[error("rule broken")]
    Rule { rule: Rule, site: Site },

    /// There is no memory.
    #[error("no memory")]
    Memory(AllocError),
}

impl From<AllocError> for Refusal {
    ghost from_gives = { λ e refusal. refusal ≡ Memory e };

    fn from(error: AllocError) -> Self {
        Refusal::Memory(error)
    }
}

/// The answer that the phrase which ends at the site breaks the rule.
pub fn broken<T>(rule: Rule, site: u64) -> Result<T, Refusal>
    ensures { result ≡ Err (Refusal.Rule rule (record { 0 = site })) }
{
    Err(Refusal::Rule {
        rule,
        site: Site(site),
    })
}
