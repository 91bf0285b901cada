// What instructions read and change.
ghost use Rattle.std.specs.Prelude.{◌≡◌, List, ℕ, IfOk, OnOk, map, option_map};
ghost use Rattle.dc_core.specs.World.{is_full as is_full_world};
ghost use Rattle.dc_core.specs.View.{term_view};
ghost use Rattle.dc_goto.specs.Acts.{with_register};
ghost use Rattle.dc_machine.specs.Asking.{AreAsked, AreAskedThree, AreGivenTwo, AreGivenThree, AreAllGiven, IsAsked};
ghost use Rattle.dc_machine.specs.View.{now_view};

use dc_core::Term;
use dc_memory::Store;
use dc_value::{Registers, Surroundings};
use dc_writeset::WriteSets;
use std::alloc::{AllocError, Global};

/// What instructions read and change: the registers, the write sets with what was freed, the objects that were seen (newest
/// last), the memory, and the objects of the running function (newest last).
#[derive(Drop)]
pub struct Now {
    pub regs: Registers,
    pub sets: WriteSets,
    pub seen: Vec<u64>,
    pub memory: Store,
    pub locals: Vec<u64>,
}

impl Now {
    /// The value of an expression, where it has one. What it sees is noted.
    pub fn asked(&mut self, term: &Term) -> Result<Option<i128>, AllocError>
        ensures { IfOk result (λ v. IsAsked (term_view term.now) v (now_view self.old) (now_view self.new)) }
    {
        let mut variables = Vec::new(*self.seen.allocator());
        let surroundings = Surroundings {
            regs: &self.regs,
            memory: &self.memory,
            sets: &self.sets,
        };
        surroundings.term_value(&mut variables, &mut self.seen, term)
    }

    /// The values of two expressions, asked in turn.
    pub fn asked_two(
        &mut self,
        a: &Term,
        b: &Term,
    ) -> Result<(Option<i128>, Option<i128>), AllocError>
        ensures { IfOk result (λ v. AreAsked (term_view a.now) (term_view b.now) v.0 v.1 (now_view self.old) (now_view self.new)) }
    {
        let first = self.asked(a)?;
        let second = self.asked(b)?;
        Ok((first, second))
    }

    /// The values of three expressions, asked in turn.
    pub fn asked_three(
        &mut self,
        a: &Term,
        b: &Term,
        c: &Term,
    ) -> Result<(Option<i128>, Option<i128>, Option<i128>), AllocError>
        ensures { IfOk result (λ v. AreAskedThree (term_view a.now) (term_view b.now) (term_view c.now) v.0 v.1 v.2 (now_view self.old) (now_view self.new)) }
    {
        let first = self.asked(a)?;
        let second = self.asked(b)?;
        let third = self.asked(c)?;
        Ok((first, second, third))
    }

    /// The values of two expressions, where each has one; none is asked behind one without.
    pub fn given_two(&mut self, a: &Term, b: &Term) -> Result<Option<(i128, i128)>, AllocError>
        ensures { IfOk result (λ o. AreGivenTwo (term_view a.now) (term_view b.now) o (now_view self.old) (now_view self.new)) }
    {
        let Some(first) = self.asked(a)? else {
            return Ok(None);
        };
        let Some(second) = self.asked(b)? else {
            return Ok(None);
        };
        Ok(Some((first, second)))
    }

    /// The values of three expressions, where each has one; none is asked behind one without.
    pub fn given_three(
        &mut self,
        a: &Term,
        b: &Term,
        c: &Term,
    ) -> Result<Option<(i128, i128, i128)>, AllocError>
        ensures { IfOk result (λ o. AreGivenThree (term_view a.now) (term_view b.now) (term_view c.now) o (now_view self.old) (now_view self.new)) }
    {
        let Some((first, second)) = self.given_two(a, b)? else {
            return Ok(None);
        };
        let Some(third) = self.asked(c)? else {
            return Ok(None);
        };
        Ok(Some((first, second, third)))
    }

    /// The values of all expressions as registers hold them, where each has one; none is asked behind one without.
    pub fn all_given(
        &mut self,
        alloc: Global,
        terms: &[Term],
    ) -> Result<Option<Vec<Option<i128>>>, AllocError>
        ensures { IfOk result (λ o. AreAllGiven (map term_view terms.now) (option_map (λ v. v.items) o) (now_view self.old) (now_view self.new)) }
    {
        let mut values = Vec::new(alloc);
        for term in terms {
            let held = self.asked(term)?;
            match held {
                None => return Ok(None),
                Some(_) => values.push(held)?,
            }
        }
        Ok(Some(values))
    }

    /// The register takes what is held, where there is such a register.
    pub fn put(&mut self, register: u64, held: Option<i128>) -> Result<(), AllocError>
        ensures { OnOk result ((choices : List ℕ) → now_view self.new choices ≡ with_register register held (now_view self.old choices)) }
    {
        self.regs.put(register, held)
    }

    /// Whether no further object may be created.
    pub fn is_full(&self) -> bool
        ensures { (choices : List ℕ) → result ≡ is_full_world (now_view self.now choices).world }
    {
        self.memory.count() >= 65535
    }
}
