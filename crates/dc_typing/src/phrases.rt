// Phrases of expressions, by their parts.
ghost use Rattle.std.specs.Prelude.{◌≡◌, Some};
ghost use Rattle.std.specs.Option.{option_map, option_copied};
ghost use Rattle.dc_layout.specs.Types.{type_view, structs_view};
ghost use Rattle.dc_program.specs.View.{expr_view, form_view};
ghost use Rattle.dc_typing.specs.Answers.{Answers};
ghost use Rattle.dc_typing.specs.Phrases as spec;
ghost use Rattle.dc_typing.specs.View.{known};

use crate::formed::{formed, located};
use crate::judge::Judge;
use crate::operators::{Infix, Prefix, assigning_op, infix_op, prefix_op, step_op};
use crate::places::{is_lvalue, is_modifiable, takes};
use crate::refusal::{Refusal, broken};
use crate::spot::Spot;
use dc_layout::CType;
use dc_num::{BinOp, NumKind};
use dc_program::{Expr, Form, LogicalOp, Rule, UnaryOp};
use dc_rules::{
    answered, arms_type, bare, binary_type, deref_type, index_type, is_assignable, is_cast,
    is_constant_zero, is_function, is_null, is_scalar, is_void, member_type, number, pointee,
    sizeof_type, struct_of, sum_type, through_type, unary_type,
};
use dc_scope::Scopes;
use dc_syntax::{Mark, Place};
use dc_text::Name;
use std::alloc::AllocError;

// The place of a member by its name, where the type is a struct that has it.
fn member_place(scopes: &Scopes, t: Option<&CType>, name: &Name) -> Option<usize>
    ensures { result ≡ spec.member_place scopes.now (option_map type_view (option_copied t.entry)) name.now }
{
    let number = struct_of(t?)?;
    scopes.member(number, name)
}

impl<'a> Judge<'a> {
    /// `a [ b ]`
    pub fn index(&self, site: u64, a: Expr, b: Expr) -> Result<Expr, Refusal>
        ensures { Answers expr_view (spec.index (known self.now).structs site (expr_view a) (expr_view b)) result }
    {
        let ty = index_type(self.alloc, self.structs, &a.ty, &b.ty);
        formed(self.alloc, ty, Form::Index(a, b), site)
    }

    /// `a . n`
    pub fn member(&self, site: u64, a: Expr, name: &Name) -> Result<Expr, Refusal>
        ensures { Answers expr_view (spec.member (known self.now) site (expr_view a) name.now) result }
    {
        let Some(place) = member_place(self.scopes, Some(&a.ty), name) else {
            return broken(Rule::NoMember, site);
        };
        let Ok(place) = u32::try_from(place) else {
            return Err(Refusal::Memory(AllocError));
        };
        let ty = member_type(self.alloc, self.structs, &a.ty, place);
        formed(self.alloc, ty, Form::Member(a, place), site)
    }

    /// `a -> n`
    pub fn through(&self, site: u64, a: Expr, name: &Name) -> Result<Expr, Refusal>
        ensures { Answers expr_view (spec.through (known self.now) site (expr_view a) name.now) result }
    {
        let Some(place) = member_place(self.scopes, pointee(&a.ty), name) else {
            return broken(Rule::NoMember, site);
        };
        let Ok(place) = u32::try_from(place) else {
            return Err(Refusal::Memory(AllocError));
        };
        let ty = through_type(self.alloc, self.structs, &a.ty, place);
        formed(self.alloc, ty, Form::Through(a, place), site)
    }

    // What is counted up or down, where it may be.
    fn steps(&self, site: u64, spot: Spot, a: &Expr) -> Result<CType, Refusal>
        ensures { Answers type_view (spec.steps (known self.now).structs site spot (expr_view a.now)) result }
    {
        if !is_modifiable(a) {
            return broken(Rule::NotAssignable, site);
        }
        let sum = sum_type(self.alloc, self.structs, &a.ty, &number(NumKind::S32));
        let _sum = located(sum, site)?;
        if !spot.holds_effect() {
            return broken(Rule::EffectInside, site);
        }
        Ok(bare(&a.ty).duplicate(self.alloc)?)
    }

    /// `a ++` or `a --`
    pub fn after(&self, place: Place, spot: Spot, mark: Mark, a: Expr) -> Result<Expr, Refusal>
        ensures { Answers expr_view (spec.after (known self.now).structs place spot mark (expr_view a)) result }
    {
        let ty = self.steps(place.last(), spot, &a)?;
        let form = Form::After(step_op(mark), a, spot.site_at(place.line()));
        Ok(Expr::new(self.alloc, ty, form)?)
    }

    /// `++ a` or `-- a`
    pub fn before(&self, place: Place, spot: Spot, mark: Mark, a: Expr) -> Result<Expr, Refusal>
        ensures { Answers expr_view (spec.before (known self.now).structs place spot mark (expr_view a)) result }
    {
        let ty = self.steps(place.last(), spot, &a)?;
        let form = Form::Before(step_op(mark), a, spot.site_at(place.line()));
        Ok(Expr::new(self.alloc, ty, form)?)
    }

    // `a = b`
    fn assign(&self, place: Place, spot: Spot, a: Expr, b: Expr) -> Result<Expr, Refusal>
        ensures { Answers expr_view (spec.assign (known self.now).structs place spot (expr_view a) (expr_view b)) result }
    {
        if !is_modifiable(&a) {
            return broken(Rule::NotAssignable, place.last());
        }
        if !takes(self.structs, &a.ty, &b) {
            return broken(Rule::WrongValue, place.last());
        }
        if !spot.holds_effect() {
            return broken(Rule::EffectInside, place.last());
        }
        let ty = bare(&a.ty).duplicate(self.alloc)?;
        let form = Form::Assign(a, b, spot.site_at(place.line()));
        Ok(Expr::new(self.alloc, ty, form)?)
    }

    // `a += b`, or with another operator
    fn assign_by(
        &self,
        place: Place,
        spot: Spot,
        op: BinOp,
        a: Expr,
        b: Expr,
    ) -> Result<Expr, Refusal>
        ensures { Answers expr_view (spec.assign_by (known self.now).structs place spot op (expr_view a) (expr_view b)) result }
    {
        if !is_modifiable(&a) {
            return broken(Rule::NotAssignable, place.last());
        }
        let null = is_null(self.structs, &b);
        let result = binary_type(self.alloc, self.structs, op, &a.ty, false, &b.ty, null);
        let result = located(result, place.last())?;
        if !is_assignable(&a.ty, &result, false) {
            return broken(Rule::WrongValue, place.last());
        }
        if !spot.holds_effect() {
            return broken(Rule::EffectInside, place.last());
        }
        let ty = bare(&a.ty).duplicate(self.alloc)?;
        let form = Form::AssignBy(op, a, b, spot.site_at(place.line()));
        Ok(Expr::new(self.alloc, ty, form)?)
    }

    /// `a = b`, or with another assignment operator
    pub fn assigning(
        &self,
        place: Place,
        spot: Spot,
        mark: Mark,
        a: Expr,
        b: Expr,
    ) -> Result<Expr, Refusal>
        ensures { Answers expr_view (spec.assigning (known self.now).structs place spot mark (expr_view a) (expr_view b)) result }
    {
        match assigning_op(mark) {
            None => self.assign(place, spot, a, b),
            Some(op) => self.assign_by(place, spot, op, a, b),
        }
    }

    // `& a`
    fn address(&self, site: u64, a: Expr) -> Result<Expr, Refusal>
        ensures { Answers expr_view (spec.address site (expr_view a)) result }
    {
        if !is_lvalue(&a) && !is_function(&a.ty) {
            return broken(Rule::NoPlace, site);
        }
        let ty = CType::pointer(self.alloc, a.ty.duplicate(self.alloc)?)?;
        Ok(Expr::new(self.alloc, ty, Form::AddressOf(a))?)
    }

    // `* a`
    fn deref(&self, site: u64, a: Expr) -> Result<Expr, Refusal>
        ensures { Answers expr_view (spec.deref (known self.now).structs site (expr_view a)) result }
    {
        let ty = deref_type(self.alloc, self.structs, &a.ty);
        formed(self.alloc, ty, Form::Deref(a), site)
    }

    // `+ a`, `- a`, `~ a` or `! a`
    fn unary(&self, site: u64, op: UnaryOp, a: Expr) -> Result<Expr, Refusal>
        ensures { Answers expr_view (spec.unary site op (expr_view a)) result }
    {
        let ty = answered(unary_type(op, &a.ty));
        formed(self.alloc, ty, Form::Unary(op, a), site)
    }

    /// An operator before its operand.
    pub fn prefix(&self, site: u64, mark: Mark, a: Expr) -> Result<Expr, Refusal>
        ensures { Answers expr_view (spec.prefix (known self.now).structs site mark (expr_view a)) result }
    {
        match prefix_op(mark) {
            Prefix::Address => self.address(site, a),
            Prefix::Target => self.deref(site, a),
            Prefix::Operator(op) => self.unary(site, op, a),
        }
    }

    /// `sizeof a`
    pub fn sizeof_expression(&self, site: u64, a: Expr) -> Result<Expr, Refusal>
        ensures { Answers expr_view (spec.sizeof_expression (known self.now).structs site (expr_view a)) result }
    {
        let ty = answered(sizeof_type(self.structs, &a.ty));
        formed(self.alloc, ty, Form::SizeofExpression(a), site)
    }

    /// `sizeof ( T )`
    pub fn sizeof_named(&self, site: u64, t: CType) -> Result<Expr, Refusal>
        ensures { Answers expr_view (spec.sizeof_named (known self.now).structs site (type_view t)) result }
    {
        let ty = answered(sizeof_type(self.structs, &t));
        formed(self.alloc, ty, Form::SizeofType(t), site)
    }

    /// `( T ) a`
    pub fn cast(&self, site: u64, spot: Spot, t: CType, a: Expr) -> Result<Expr, Refusal>
        ensures { Answers expr_view (spec.cast (known self.now).structs site spot (type_view t) (expr_view a)) result }
    {
        let t = bare(&t).duplicate(self.alloc)?;
        let holds = if is_void(&t) {
            spot.holds_effect()
        } else {
            is_cast(&t, &a.ty, is_constant_zero(self.structs, &a))
        };
        if !holds {
            return broken(Rule::NoCast, site);
        }
        Ok(Expr::new(self.alloc, t, Form::Cast(a))?)
    }

    // Two operands with an operator that needs both.
    fn binary(&self, site: u64, op: BinOp, a: Expr, b: Expr) -> Result<Expr, Refusal>
        ensures { Answers expr_view (spec.binary (known self.now).structs site op (expr_view a) (expr_view b)) result }
    {
        let a_is_null = is_null(self.structs, &a);
        let b_is_null = is_null(self.structs, &b);
        let ty = binary_type(
            self.alloc,
            self.structs,
            op,
            &a.ty,
            a_is_null,
            &b.ty,
            b_is_null,
        );
        formed(self.alloc, ty, Form::Binary(op, a, b), site)
    }

    /// `a && b`, `a || b` or `a ==> b`
    pub fn logical(&self, site: u64, op: LogicalOp, a: Expr, b: Expr) -> Result<Expr, Refusal>
        ensures { Answers expr_view (spec.logical site op (expr_view a) (expr_view b)) result }
    {
        if !is_scalar(&a.ty) {
            return broken(Rule::TruthNeeded, site);
        }
        if !is_scalar(&b.ty) {
            return broken(Rule::TruthNeeded, site);
        }
        let ty = number(NumKind::S32);
        Ok(Expr::new(self.alloc, ty, Form::Logical(op, a, b))?)
    }

    /// Two operands with an operator between them.
    pub fn between(&self, site: u64, mark: Mark, a: Expr, b: Expr) -> Result<Expr, Refusal>
        ensures { Answers expr_view (spec.between (known self.now).structs site mark (expr_view a) (expr_view b)) result }
    {
        match infix_op(mark) {
            Infix::Both(op) => self.binary(site, op, a, b),
            Infix::First(op) => self.logical(site, op, a, b),
        }
    }

    /// `a ? b : c`
    pub fn conditional(&self, site: u64, a: Expr, b: Expr, c: Expr) -> Result<Expr, Refusal>
        ensures { Answers expr_view (spec.conditional site (expr_view a) (expr_view b) (expr_view c)) result }
    {
        if !is_scalar(&a.ty) {
            return broken(Rule::TruthNeeded, site);
        }
        let ty = arms_type(self.alloc, &b.ty, &c.ty);
        formed(self.alloc, ty, Form::Conditional(a, b, c), site)
    }
}
