// The values of expressions.
ghost use Rattle.std.specs.Prelude.{◌≡◌, slice_get, reverse, IfOk};
ghost use Rattle.dc_core.specs.View.{term_view};
ghost use Rattle.dc_goto.specs.Values.{term_value as value_of};
ghost use Rattle.dc_value.specs.Answers.{Answers};
ghost use Rattle.dc_value.specs.View.{surroundings_view};

use crate::no_value::{NoValue, defined};
use crate::objects::start;
use crate::surroundings::Surroundings;
use dc_core::Term;
use sqlite_items::at;
use std::alloc::AllocError;

// The value of the variable of a quantifier that has so many others around it.
fn variable(vars: &[i128], nesting: u64) -> Option<i128>
    ensures { result ≡ slice_get vars.now nesting }
{
    match at(vars, nesting as usize) {
        None => None,
        Some(value) => Some(*value),
    }
}

impl<'a> Surroundings<'a> {
    // The value of an expression. Each form with operands has a function of its own, which isn't inlined here: a call takes time
    // for all the variables of its function, so this one is to have few.
    #[cycle(value)]
    pub(crate) fn value(
        &self,
        vars: &mut Vec<i128>,
        seen: &mut Vec<u64>,
        term: &Term,
    ) -> Result<i128, NoValue>
        ensures answer { Answers (value_of (surroundings_view self.now) vars.old.items (term_view term.now)) result seen.old.items seen.new.items }
        ensures kept { vars.new.items ≡ vars.old.items }
    {
        match term {
            Term::Constant(_, z) => Ok(*z),
            Term::Register(number) => defined(self.regs.held(*number)),
            Term::Variable(nesting) => defined(variable(vars, *nesting)),
            Term::Object(number) => Ok(start(*number)),
            Term::Load(kind, place) => self.loaded(vars, seen, *kind, place.get()),
            Term::Convert(to, from, e) => self.converted(vars, seen, *to, *from, e.get()),
            Term::Unary(op, kind, e) => self.negated(vars, seen, *op, *kind, e.get()),
            Term::Binary(op, kind, a, b) => self.operated(vars, seen, *op, *kind, a.get(), b.get()),
            Term::Lazy(op, a, b) => self.decided(vars, seen, *op, a.get(), b.get()),
            Term::Choice(test, a, b) => self.chosen(vars, seen, test.get(), a.get(), b.get()),
            Term::Moved(size, p, count) => self.moved_pointer(
                vars,
                seen,
                *size,
                p.get(),
                count.get(),
            ),
            Term::Distance(size, p, q) => self.pointer_distance(
                vars,
                seen,
                *size,
                p.get(),
                q.get(),
            ),
            Term::Asked(property, p) => self.asked_property(vars, seen, *property, p.get()),
            Term::Tested(test, p, len) => self.tested_range(vars, seen, *test, p.get(), len.get()),
            Term::Between(low, p, high) => self.ordered(vars, seen, low.get(), p.get(), high.get()),
            Term::Quantified(quantifier, _, kind, low, high, body) => {
                self.quantified(
                    vars,
                    seen,
                    *quantifier,
                    *kind,
                    low.get(),
                    high.get(),
                    body.get(),
                )
            }
        }
    }

    /// The value of an expression, where it has one and the variables of the quantifiers around it have these values, the
    /// outermost first. What `fresh` and `new` see is added to the seen objects; after an `Err` nothing is said of them.
    pub fn term_value(
        &self,
        vars: &mut Vec<i128>,
        seen: &mut Vec<u64>,
        term: &Term,
    ) -> Result<Option<i128>, AllocError>
        ensures answer { IfOk result (λ o. record { value = o; seen = reverse seen.new.items } ≡ value_of (surroundings_view self.now) vars.old.items (term_view term.now) (reverse seen.old.items)) }
        ensures kept { vars.new.items ≡ vars.old.items }
    {
        match self.value(vars, seen, term) {
            Ok(z) => Ok(Some(z)),
            Err(NoValue::Undefined) => Ok(None),
            Err(NoValue::Memory(error)) => Err(error),
        }
    }
}
