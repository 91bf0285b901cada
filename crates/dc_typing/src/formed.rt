// Expressions of forms whose parts have a type, or a broken rule.
ghost use Rattle.std.specs.Prelude.{◌≡◌};
ghost use Rattle.dc_layout.specs.Types.{PlainType, type_view};
ghost use Rattle.dc_program.specs.Typing as typing;
ghost use Rattle.dc_program.specs.View.{expr_view, form_view};
ghost use Rattle.dc_rules.specs.Judged as rules;
ghost use Rattle.dc_typing.specs.Answers.{Answers};
ghost use Rattle.dc_typing.specs.Judged.{formed, located};

use crate::refusal::Refusal;
use dc_layout::CType;
use dc_program::{Expr, Form};
use dc_rules::Refused;
use dc_text::Site;
use std::alloc::Global;

/// A type, or the rule that is broken by the phrase that ends at the site.
pub fn located(ty: Result<CType, Refused>, site: u64) -> Result<CType, Refusal>
    ensures { (judged : typing.Judged PlainType) → rules.Answers ty judged → Answers type_view (located site judged) result }
{
    match ty {
        Ok(ty) => Ok(ty),
        Err(Refused::Rule(rule)) => Err(Refusal::Rule {
            rule,
            site: Site(site),
        }),
        Err(Refused::Memory(error)) => Err(Refusal::Memory(error)),
    }
}

/// The expression of a form whose parts have the type, or the rule that is broken by the phrase that ends at the site.
pub fn formed(
    alloc: Global,
    ty: Result<CType, Refused>,
    form: Form,
    site: u64,
) -> Result<Expr, Refusal>
    ensures { (judged : typing.Judged PlainType) → rules.Answers ty judged → Answers expr_view (formed site judged (form_view form)) result }
{
    match ty {
        Ok(ty) => Ok(Expr::new(alloc, ty, form)?),
        Err(Refused::Rule(rule)) => Err(Refusal::Rule {
            rule,
            site: Site(site),
        }),
        Err(Refused::Memory(error)) => Err(Refusal::Memory(error)),
    }
}
