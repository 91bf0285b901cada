// The values of operations on numbers: the operands first, from left to right.
ghost use Rattle.std.specs.Prelude.{◌≡◌};
ghost use Rattle.dc_core.specs.Term as plain;
ghost use Rattle.dc_core.specs.View.{term_view};
ghost use Rattle.dc_goto.specs.Values.{term_value as value_of};
ghost use Rattle.dc_value.specs.Answers.{Answers};
ghost use Rattle.dc_value.specs.View.{surroundings_view};

use crate::no_value::{NoValue, defined};
use crate::operators::{decides, is_true, negate, operate};
use crate::surroundings::Surroundings;
use dc_core::{BinOp, LazyOp, NumKind, Term, UnOp};
use dc_num::{convert, truth};

impl<'a> Surroundings<'a> {
    // A value converted to the first kind from the second.
    #[inline(never)]
    #[cycle(value)]
    pub(crate) fn converted(
        &self,
        vars: &mut Vec<i128>,
        seen: &mut Vec<u64>,
        to: NumKind,
        from: NumKind,
        e: &Term,
    ) -> Result<i128, NoValue>
        ensures answer { Answers (value_of (surroundings_view self.now) vars.old.items (plain.Convert to from (term_view e.now))) result seen.old.items seen.new.items }
        ensures kept { vars.new.items ≡ vars.old.items }
    {
        let z = self.value(vars, seen, e)?;
        Ok(convert(to, convert(from, z)))
    }

    // Minus or the complement of a value.
    #[inline(never)]
    #[cycle(value)]
    pub(crate) fn negated(
        &self,
        vars: &mut Vec<i128>,
        seen: &mut Vec<u64>,
        op: UnOp,
        kind: NumKind,
        e: &Term,
    ) -> Result<i128, NoValue>
        ensures answer { Answers (value_of (surroundings_view self.now) vars.old.items (plain.Unary op kind (term_view e.now))) result seen.old.items seen.new.items }
        ensures kept { vars.new.items ≡ vars.old.items }
    {
        let z = self.value(vars, seen, e)?;
        defined(negate(op, kind, z))
    }

    // What an operator makes of two values.
    #[inline(never)]
    #[cycle(value)]
    pub(crate) fn operated(
        &self,
        vars: &mut Vec<i128>,
        seen: &mut Vec<u64>,
        op: BinOp,
        kind: NumKind,
        a: &Term,
        b: &Term,
    ) -> Result<i128, NoValue>
        ensures answer { Answers (value_of (surroundings_view self.now) vars.old.items (plain.Binary op kind (term_view a.now) (term_view b.now))) result seen.old.items seen.new.items }
        ensures kept { vars.new.items ≡ vars.old.items }
    {
        let a = self.value(vars, seen, a)?;
        let b = self.value(vars, seen, b)?;
        defined(operate(self.memory, op, kind, a, b))
    }

    // Whether both operands are true, or one is. The second is asked only where the first doesn't decide.
    #[inline(never)]
    #[cycle(value)]
    pub(crate) fn decided(
        &self,
        vars: &mut Vec<i128>,
        seen: &mut Vec<u64>,
        op: LazyOp,
        a: &Term,
        b: &Term,
    ) -> Result<i128, NoValue>
        ensures answer { Answers (value_of (surroundings_view self.now) vars.old.items (plain.Lazy op (term_view a.now) (term_view b.now))) result seen.old.items seen.new.items }
        ensures kept { vars.new.items ≡ vars.old.items }
    {
        let first = is_true(self.value(vars, seen, a)?);
        if decides(op, first) {
            return Ok(truth(first));
        }
        let second = self.value(vars, seen, b)?;
        Ok(truth(is_true(second)))
    }

    // The value of the second where the first is true, else that of the third.
    #[inline(never)]
    #[cycle(value)]
    pub(crate) fn chosen(
        &self,
        vars: &mut Vec<i128>,
        seen: &mut Vec<u64>,
        test: &Term,
        a: &Term,
        b: &Term,
    ) -> Result<i128, NoValue>
        ensures answer { Answers (value_of (surroundings_view self.now) vars.old.items (plain.Choice (term_view test.now) (term_view a.now) (term_view b.now))) result seen.old.items seen.new.items }
        ensures kept { vars.new.items ≡ vars.old.items }
    {
        if is_true(self.value(vars, seen, test)?) {
            self.value(vars, seen, a)
        } else {
            self.value(vars, seen, b)
        }
    }
}
