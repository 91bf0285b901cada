// The values of expressions of pointers and of what is behind them: the operands first, from left to right.
ghost use Rattle.std.specs.Prelude.{◌≡◌};
ghost use Rattle.dc_core.specs.Term as plain;
ghost use Rattle.dc_core.specs.View.{term_view};
ghost use Rattle.dc_goto.specs.Values.{term_value as value_of};
ghost use Rattle.dc_value.specs.Answers.{Answers};
ghost use Rattle.dc_value.specs.View.{surroundings_view};

use crate::no_value::{NoValue, defined};
use crate::operators::{length, pointer};
use crate::pointers::{distance, is_between, moved};
use crate::surroundings::Surroundings;
use dc_core::{NumKind, Property, RangeTest, Term};
use dc_num::truth;
use dc_program::mem_kind;

impl<'a> Surroundings<'a> {
    // The value of a kind at an address.
    #[inline(never)]
    #[cycle(value)]
    pub(crate) fn loaded(
        &self,
        vars: &mut Vec<i128>,
        seen: &mut Vec<u64>,
        kind: NumKind,
        place: &Term,
    ) -> Result<i128, NoValue>
        ensures answer { Answers (value_of (surroundings_view self.now) vars.old.items (plain.Load kind (term_view place.now))) result seen.old.items seen.new.items }
        ensures kept { vars.new.items ≡ vars.old.items }
    {
        let place = self.value(vars, seen, place)?;
        defined(self.memory.load(pointer(place), mem_kind(kind)))
    }

    // A pointer, moved by so many elements of a size.
    #[inline(never)]
    #[cycle(value)]
    pub(crate) fn moved_pointer(
        &self,
        vars: &mut Vec<i128>,
        seen: &mut Vec<u64>,
        size: u64,
        p: &Term,
        count: &Term,
    ) -> Result<i128, NoValue>
        ensures answer { Answers (value_of (surroundings_view self.now) vars.old.items (plain.Moved size (term_view p.now) (term_view count.now))) result seen.old.items seen.new.items }
        ensures kept { vars.new.items ≡ vars.old.items }
    {
        let p = self.value(vars, seen, p)?;
        let count = self.value(vars, seen, count)?;
        defined(moved(self.memory, size, pointer(p), count))
    }

    // The distance of two pointers in elements of a size.
    #[inline(never)]
    #[cycle(value)]
    pub(crate) fn pointer_distance(
        &self,
        vars: &mut Vec<i128>,
        seen: &mut Vec<u64>,
        size: u64,
        p: &Term,
        q: &Term,
    ) -> Result<i128, NoValue>
        ensures answer { Answers (value_of (surroundings_view self.now) vars.old.items (plain.Distance size (term_view p.now) (term_view q.now))) result seen.old.items seen.new.items }
        ensures kept { vars.new.items ≡ vars.old.items }
    {
        let p = self.value(vars, seen, p)?;
        let q = self.value(vars, seen, q)?;
        defined(distance(self.memory, size, pointer(p), pointer(q)))
    }

    // What a pointer or its object is like.
    #[inline(never)]
    #[cycle(value)]
    pub(crate) fn asked_property(
        &self,
        vars: &mut Vec<i128>,
        seen: &mut Vec<u64>,
        property: Property,
        p: &Term,
    ) -> Result<i128, NoValue>
        ensures answer { Answers (value_of (surroundings_view self.now) vars.old.items (plain.Asked property (term_view p.now))) result seen.old.items seen.new.items }
        ensures kept { vars.new.items ≡ vars.old.items }
    {
        let p = self.value(vars, seen, p)?;
        defined(self.property(property, pointer(p)))
    }

    // What so many bytes behind a pointer are like.
    #[inline(never)]
    #[cycle(value)]
    pub(crate) fn tested_range(
        &self,
        vars: &mut Vec<i128>,
        seen: &mut Vec<u64>,
        test: RangeTest,
        p: &Term,
        len: &Term,
    ) -> Result<i128, NoValue>
        ensures answer { Answers (value_of (surroundings_view self.now) vars.old.items (plain.Tested test (term_view p.now) (term_view len.now))) result seen.old.items seen.new.items }
        ensures kept { vars.new.items ≡ vars.old.items }
    {
        let p = self.value(vars, seen, p)?;
        let len = self.value(vars, seen, len)?;
        self.tested(seen, test, pointer(p), length(len))
    }

    // Whether three pointers are in one object in this order.
    #[inline(never)]
    #[cycle(value)]
    pub(crate) fn ordered(
        &self,
        vars: &mut Vec<i128>,
        seen: &mut Vec<u64>,
        low: &Term,
        p: &Term,
        high: &Term,
    ) -> Result<i128, NoValue>
        ensures answer { Answers (value_of (surroundings_view self.now) vars.old.items (plain.Between (term_view low.now) (term_view p.now) (term_view high.now))) result seen.old.items seen.new.items }
        ensures kept { vars.new.items ≡ vars.old.items }
    {
        let low = self.value(vars, seen, low)?;
        let p = self.value(vars, seen, p)?;
        let high = self.value(vars, seen, high)?;
        Ok(truth(is_between(self.memory, pointer(low), pointer(p), pointer(high))))
    }
}
