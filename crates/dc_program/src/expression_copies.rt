// Copies of expressions, each on memory of its own.
ghost use Rattle.std.specs.Prelude.{◌≡◌, IfOk, IsOkAnd, IsTrue};
ghost use Rattle.dc_program.specs.declared.expression.Form.{out-Form};
ghost use Rattle.dc_program.specs.Groups.{is_leaf, is_call, is_unary, is_compound, is_predicate};

use crate::expression::{Expr, Form};
use sqlite_items::{Boxed, Items};
use std::alloc::{AllocError, Global};

impl Expr {
    /// A copy of the expression. Where there is no memory, nothing is left of it.
    #[cycle(duplicate_expr)]
    pub fn duplicate(&self, alloc: Global) -> Result<Expr, AllocError>
        ensures { IfOk result (λ copy. copy ≡ self.now) }
    {
        let form = self.form.get().duplicate(alloc)?;
        let form = Boxed::new(alloc, form)?;
        let ty = self.ty.duplicate(alloc)?;
        Ok(Expr { ty, form })
    }
}

/// A copy of the expressions, in their order.
#[cycle(duplicate_expr)]
pub fn expressions(alloc: Global, all: &Items<Expr>) -> Result<Items<Expr>, AllocError>
    ensures { IfOk result (λ copy. copy ≡ all.now) }
{
    let mut copy = Items::new(alloc);
    for one in all.as_slice() {
        copy.push(one.duplicate(alloc)?)?;
    }
    Ok(copy)
}

// Both copies. Where there was no memory for one, nothing is left of the other.
fn both(
    a: Result<Expr, AllocError>,
    b: Result<Expr, AllocError>,
) -> Result<(Expr, Expr), AllocError>
    ensures { IfOk result (λ copies. IsOkAnd a (λ x. x ≡ copies.0) × IsOkAnd b (λ x. x ≡ copies.1)) }
{
    Ok((a?, b?))
}

// All three copies. Where there was no memory for one, nothing is left of the others.
fn three(
    a: Result<Expr, AllocError>,
    b: Result<Expr, AllocError>,
    c: Result<Expr, AllocError>,
) -> Result<(Expr, Expr, Expr), AllocError>
    ensures { IfOk result (λ copies. IsOkAnd a (λ x. x ≡ copies.0) × IsOkAnd b (λ x. x ≡ copies.1) × IsOkAnd c (λ x. x ≡ copies.2)) }
{
    Ok((a?, b?, c?))
}

impl Form {
    // A copy of the form.
    #[cycle(duplicate_expr)]
    fn duplicate(&self, alloc: Global) -> Result<Form, AllocError>
        ensures { IfOk result (λ copy. copy ≡ self.now) }
    {
        match self {
            Form::Literal(..)
            | Form::Function(..)
            | Form::Static(..)
            | Form::Local(..)
            | Form::Argument(..)
            | Form::Kept(..)
            | Form::Quantified(..)
            | Form::ReturnValue
            | Form::SizeofType(..) => self.duplicate_leaf(alloc),
            Form::Call(..)
            | Form::Malloc(..)
            | Form::Calloc(..)
            | Form::Free(..)
            | Form::Memset(..)
            | Form::Memcpy(..)
            | Form::Memmove(..)
            | Form::Assert(..)
            | Form::Assume(..) => self.duplicate_call(alloc),
            Form::Member(..)
            | Form::Through(..)
            | Form::After(..)
            | Form::Before(..)
            | Form::AddressOf(..)
            | Form::Deref(..)
            | Form::Unary(..)
            | Form::SizeofExpression(..)
            | Form::Cast(..) => self.duplicate_unary(alloc),
            Form::Index(..)
            | Form::Binary(..)
            | Form::Logical(..)
            | Form::Conditional(..)
            | Form::Assign(..)
            | Form::AssignBy(..)
            | Form::Quantify(..) => self.duplicate_compound(alloc),
            Form::IsFresh(..)
            | Form::IsFreeable(..)
            | Form::WasFreed(..)
            | Form::PointerEquals(..)
            | Form::PointerInRange(..)
            | Form::IsAccessible(..)
            | Form::ObeysContract(..)
            | Form::Old(..)
            | Form::LoopEntry(..) => self.duplicate_predicate(alloc),
        }
    }

    // A copy of a form that has no expression in it.
    fn duplicate_leaf(&self, alloc: Global) -> Result<Form, AllocError>
        requires { IsTrue (is_leaf (out-Form self.now)) }
        ensures { IfOk result (λ copy. copy ≡ self.now) }
    {
        match self {
            Form::Literal(value) => Ok(Form::Literal(*value)),
            Form::Function(value) => Ok(Form::Function(*value)),
            Form::Static(value) => Ok(Form::Static(*value)),
            Form::Local(value) => Ok(Form::Local(*value)),
            Form::Argument(value) => Ok(Form::Argument(*value)),
            Form::Kept(value) => Ok(Form::Kept(*value)),
            Form::Quantified(value) => Ok(Form::Quantified(*value)),
            Form::ReturnValue => Ok(Form::ReturnValue),
            Form::SizeofType(ty) => {
                let ty = ty.duplicate(alloc)?;
                Ok(Form::SizeofType(ty))
            }
            _ => unreachable!(),
        }
    }

    // A copy of a call.
    #[cycle(duplicate_expr)]
    fn duplicate_call(&self, alloc: Global) -> Result<Form, AllocError>
        requires { IsTrue (is_call (out-Form self.now)) }
        ensures { IfOk result (λ copy. copy ≡ self.now) }
    {
        match self {
            Form::Call(a, arguments, location) => {
                let a = a.duplicate(alloc)?;
                let arguments = expressions(alloc, arguments)?;
                Ok(Form::Call(a, arguments, *location))
            }
            Form::Malloc(a, location) => {
                let a = a.duplicate(alloc)?;
                Ok(Form::Malloc(a, *location))
            }
            Form::Calloc(a, b, location) => {
                let (a, b) = both(a.duplicate(alloc), b.duplicate(alloc))?;
                Ok(Form::Calloc(a, b, *location))
            }
            Form::Free(a, location) => {
                let a = a.duplicate(alloc)?;
                Ok(Form::Free(a, *location))
            }
            Form::Memset(a, b, c, location) => {
                let (a, b, c) = three(a.duplicate(alloc), b.duplicate(alloc), c.duplicate(alloc))?;
                Ok(Form::Memset(a, b, c, *location))
            }
            Form::Memcpy(a, b, c, location) => {
                let (a, b, c) = three(a.duplicate(alloc), b.duplicate(alloc), c.duplicate(alloc))?;
                Ok(Form::Memcpy(a, b, c, *location))
            }
            Form::Memmove(a, b, c, location) => {
                let (a, b, c) = three(a.duplicate(alloc), b.duplicate(alloc), c.duplicate(alloc))?;
                Ok(Form::Memmove(a, b, c, *location))
            }
            Form::Assert(a, location) => {
                let a = a.duplicate(alloc)?;
                Ok(Form::Assert(a, *location))
            }
            Form::Assume(a, location) => {
                let a = a.duplicate(alloc)?;
                Ok(Form::Assume(a, *location))
            }
            _ => unreachable!(),
        }
    }

    // A copy of a form with one operand.
    #[cycle(duplicate_expr)]
    fn duplicate_unary(&self, alloc: Global) -> Result<Form, AllocError>
        requires { IsTrue (is_unary (out-Form self.now)) }
        ensures { IfOk result (λ copy. copy ≡ self.now) }
    {
        match self {
            Form::Member(a, value) => {
                let a = a.duplicate(alloc)?;
                Ok(Form::Member(a, *value))
            }
            Form::Through(a, value) => {
                let a = a.duplicate(alloc)?;
                Ok(Form::Through(a, *value))
            }
            Form::After(operator, a, location) => {
                let a = a.duplicate(alloc)?;
                Ok(Form::After(*operator, a, *location))
            }
            Form::Before(operator, a, location) => {
                let a = a.duplicate(alloc)?;
                Ok(Form::Before(*operator, a, *location))
            }
            Form::AddressOf(a) => {
                let a = a.duplicate(alloc)?;
                Ok(Form::AddressOf(a))
            }
            Form::Deref(a) => {
                let a = a.duplicate(alloc)?;
                Ok(Form::Deref(a))
            }
            Form::Unary(operator, a) => {
                let a = a.duplicate(alloc)?;
                Ok(Form::Unary(*operator, a))
            }
            Form::SizeofExpression(a) => {
                let a = a.duplicate(alloc)?;
                Ok(Form::SizeofExpression(a))
            }
            Form::Cast(a) => {
                let a = a.duplicate(alloc)?;
                Ok(Form::Cast(a))
            }
            _ => unreachable!(),
        }
    }

    // A copy of a form with several operands.
    #[cycle(duplicate_expr)]
    fn duplicate_compound(&self, alloc: Global) -> Result<Form, AllocError>
        requires { IsTrue (is_compound (out-Form self.now)) }
        ensures { IfOk result (λ copy. copy ≡ self.now) }
    {
        match self {
            Form::Index(a, b) => {
                let (a, b) = both(a.duplicate(alloc), b.duplicate(alloc))?;
                Ok(Form::Index(a, b))
            }
            Form::Binary(operator, a, b) => {
                let (a, b) = both(a.duplicate(alloc), b.duplicate(alloc))?;
                Ok(Form::Binary(*operator, a, b))
            }
            Form::Logical(operator, a, b) => {
                let (a, b) = both(a.duplicate(alloc), b.duplicate(alloc))?;
                Ok(Form::Logical(*operator, a, b))
            }
            Form::Conditional(a, b, c) => {
                let (a, b, c) = three(a.duplicate(alloc), b.duplicate(alloc), c.duplicate(alloc))?;
                Ok(Form::Conditional(a, b, c))
            }
            Form::Assign(a, b, location) => {
                let (a, b) = both(a.duplicate(alloc), b.duplicate(alloc))?;
                Ok(Form::Assign(a, b, *location))
            }
            Form::AssignBy(operator, a, b, location) => {
                let (a, b) = both(a.duplicate(alloc), b.duplicate(alloc))?;
                Ok(Form::AssignBy(*operator, a, b, *location))
            }
            Form::Quantify(operator, kind, a, b, c) => {
                let (a, b, c) = three(a.duplicate(alloc), b.duplicate(alloc), c.duplicate(alloc))?;
                Ok(Form::Quantify(*operator, *kind, a, b, c))
            }
            _ => unreachable!(),
        }
    }

    // A copy of a form that stands in clauses alone.
    #[cycle(duplicate_expr)]
    fn duplicate_predicate(&self, alloc: Global) -> Result<Form, AllocError>
        requires { IsTrue (is_predicate (out-Form self.now)) }
        ensures { IfOk result (λ copy. copy ≡ self.now) }
    {
        match self {
            Form::IsFresh(a, b) => {
                let (a, b) = both(a.duplicate(alloc), b.duplicate(alloc))?;
                Ok(Form::IsFresh(a, b))
            }
            Form::IsFreeable(a) => {
                let a = a.duplicate(alloc)?;
                Ok(Form::IsFreeable(a))
            }
            Form::WasFreed(a) => {
                let a = a.duplicate(alloc)?;
                Ok(Form::WasFreed(a))
            }
            Form::PointerEquals(a, b) => {
                let (a, b) = both(a.duplicate(alloc), b.duplicate(alloc))?;
                Ok(Form::PointerEquals(a, b))
            }
            Form::PointerInRange(a, b, c) => {
                let (a, b, c) = three(a.duplicate(alloc), b.duplicate(alloc), c.duplicate(alloc))?;
                Ok(Form::PointerInRange(a, b, c))
            }
            Form::IsAccessible(operator, a, b) => {
                let (a, b) = both(a.duplicate(alloc), b.duplicate(alloc))?;
                Ok(Form::IsAccessible(*operator, a, b))
            }
            Form::ObeysContract(a, value) => {
                let a = a.duplicate(alloc)?;
                Ok(Form::ObeysContract(a, *value))
            }
            Form::Old(a) => {
                let a = a.duplicate(alloc)?;
                Ok(Form::Old(a))
            }
            Form::LoopEntry(a) => {
                let a = a.duplicate(alloc)?;
                Ok(Form::LoopEntry(a))
            }
            _ => unreachable!(),
        }
    }
}
