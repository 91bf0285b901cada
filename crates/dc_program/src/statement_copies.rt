// Copies of clauses, statements, functions and options, each on memory of its own.
ghost use Rattle.std.specs.Prelude.{◌≡◌, IfOk, IsTrue};
ghost use Rattle.dc_program.specs.declared.statement.StmtForm.{out-StmtForm};
ghost use Rattle.dc_program.specs.Groups.{is_simple, is_branch, is_loop};

use crate::contract::{Clause, Contract, LoopContract, Range, Target};
use crate::duplicate::{Duplicate, duplicates, optional};
use crate::expression::Expr;
use crate::program::{Function, Options, Replacement, StaticVariable};
use crate::statement::{Init, Loop, Stmt, StmtForm, Variable};
use sqlite_items::{Boxed, Items};
use std::alloc::{AllocError, Global};

impl Duplicate for Expr {
    fn duplicate(&self, alloc: Global) -> Result<Expr, AllocError> {
        self.duplicate(alloc)
    }
}

impl Duplicate for Clause {
    fn duplicate(&self, alloc: Global) -> Result<Clause, AllocError> {
        let condition = self.condition.duplicate(alloc)?;
        Ok(Clause {
            condition,
            line: self.line,
        })
    }
}

impl Duplicate for Range {
    fn duplicate(&self, alloc: Global) -> Result<Range, AllocError> {
        match self {
            Range::Lvalue(place) => Ok(Range::Lvalue(place.duplicate(alloc)?)),
            Range::ObjectWhole(pointer) => Ok(Range::ObjectWhole(pointer.duplicate(alloc)?)),
            Range::ObjectFrom(pointer) => Ok(Range::ObjectFrom(pointer.duplicate(alloc)?)),
            Range::ObjectUpto(pointer, size) => {
                let pointer = pointer.duplicate(alloc)?;
                Ok(Range::ObjectUpto(pointer, size.duplicate(alloc)?))
            }
            Range::Object(pointer) => Ok(Range::Object(pointer.duplicate(alloc)?)),
        }
    }
}

impl Duplicate for Target {
    fn duplicate(&self, alloc: Global) -> Result<Target, AllocError> {
        let condition = optional(alloc, &self.condition)?;
        let range = self.range.duplicate(alloc)?;
        Ok(Target {
            condition,
            range,
            line: self.line,
        })
    }
}

impl Duplicate for Contract {
    fn duplicate(&self, alloc: Global) -> Result<Contract, AllocError> {
        let required = duplicates(alloc, &self.required)?;
        let ensured = duplicates(alloc, &self.ensured)?;
        let assigned = duplicates(alloc, &self.assigned)?;
        let freed = duplicates(alloc, &self.freed)?;
        Ok(Contract {
            required,
            ensured,
            assigned,
            freed,
        })
    }
}

impl Duplicate for LoopContract {
    fn duplicate(&self, alloc: Global) -> Result<LoopContract, AllocError> {
        let assigned = duplicates(alloc, &self.assigned)?;
        let invariants = duplicates(alloc, &self.invariants)?;
        let measures = duplicates(alloc, &self.measures)?;
        Ok(LoopContract {
            assigned,
            invariants,
            measures,
        })
    }
}

impl Duplicate for Loop {
    fn duplicate(&self, alloc: Global) -> Result<Loop, AllocError> {
        let contract = optional(alloc, &self.contract)?;
        Ok(Loop {
            location: self.location,
            contract,
        })
    }
}

impl Init {
    // A copy of what a variable begins with.
    #[cycle(duplicate_init)]
    fn copied(&self, alloc: Global) -> Result<Init, AllocError>
        ensures { IfOk result (λ copy. copy ≡ self.now) }
    {
        match self {
            Init::Value(value) => Ok(Init::Value(value.duplicate(alloc)?)),
            Init::Braces(parts) => Ok(Init::Braces(inits(alloc, parts)?)),
        }
    }
}

// Copies of what the parts begin with, in their order.
#[cycle(duplicate_init)]
fn inits(alloc: Global, all: &Items<Init>) -> Result<Items<Init>, AllocError>
    ensures { IfOk result (λ copy. copy ≡ all.now) }
{
    let mut copy = Items::new(alloc);
    for one in all.as_slice() {
        copy.push(one.copied(alloc)?)?;
    }
    Ok(copy)
}

impl Duplicate for Init {
    fn duplicate(&self, alloc: Global) -> Result<Init, AllocError> {
        self.copied(alloc)
    }
}

impl Duplicate for Variable {
    fn duplicate(&self, alloc: Global) -> Result<Variable, AllocError> {
        let init = optional(alloc, &self.init)?;
        let ty = self.ty.duplicate(alloc)?;
        Ok(Variable {
            number: self.number,
            ty,
            init,
            site: self.site,
        })
    }
}

impl Stmt {
    // A copy of the statement.
    #[cycle(duplicate_stmt)]
    fn copied(&self, alloc: Global) -> Result<Stmt, AllocError>
        ensures { IfOk result (λ copy. copy ≡ self.now) }
    {
        let form = self.form.get().copied(alloc)?;
        let form = Boxed::new(alloc, form)?;
        Ok(Stmt { form })
    }
}

// Copies of statements, in their order.
#[cycle(duplicate_stmt)]
fn statements(alloc: Global, all: &Items<Stmt>) -> Result<Items<Stmt>, AllocError>
    ensures { IfOk result (λ copy. copy ≡ all.now) }
{
    let mut copy = Items::new(alloc);
    for one in all.as_slice() {
        copy.push(one.copied(alloc)?)?;
    }
    Ok(copy)
}

impl StmtForm {
    // A copy of the form.
    #[cycle(duplicate_stmt)]
    fn copied(&self, alloc: Global) -> Result<StmtForm, AllocError>
        ensures { IfOk result (λ copy. copy ≡ self.now) }
    {
        match self {
            StmtForm::Declaration(..)
            | StmtForm::Empty
            | StmtForm::Expression(..)
            | StmtForm::Return
            | StmtForm::ReturnWith(..)
            | StmtForm::Break
            | StmtForm::Continue => self.copied_simple(alloc),
            StmtForm::If(..)
            | StmtForm::IfElse(..)
            | StmtForm::Switch(..)
            | StmtForm::Case(..)
            | StmtForm::Default(..) => self.copied_branch(alloc),
            StmtForm::While(..) | StmtForm::DoWhile(..) | StmtForm::For(..) => self.copied_loop(
                alloc,
            ),
            StmtForm::Block(all) => Ok(StmtForm::Block(statements(alloc, all)?)),
        }
    }

    // A copy of a form that has no statement in it.
    fn copied_simple(&self, alloc: Global) -> Result<StmtForm, AllocError>
        requires { IsTrue (is_simple (out-StmtForm self.now)) }
        ensures { IfOk result (λ copy. copy ≡ self.now) }
    {
        match self {
            StmtForm::Declaration(variables) => {
                Ok(StmtForm::Declaration(duplicates(alloc, variables)?))
            }
            StmtForm::Empty => Ok(StmtForm::Empty),
            StmtForm::Expression(value) => Ok(StmtForm::Expression(value.duplicate(alloc)?)),
            StmtForm::Return => Ok(StmtForm::Return),
            StmtForm::ReturnWith(value) => Ok(StmtForm::ReturnWith(value.duplicate(alloc)?)),
            StmtForm::Break => Ok(StmtForm::Break),
            StmtForm::Continue => Ok(StmtForm::Continue),
            _ => unreachable!(),
        }
    }

    // A copy of a form that chooses, or of a label.
    #[cycle(duplicate_stmt)]
    fn copied_branch(&self, alloc: Global) -> Result<StmtForm, AllocError>
        requires { IsTrue (is_branch (out-StmtForm self.now)) }
        ensures { IfOk result (λ copy. copy ≡ self.now) }
    {
        match self {
            StmtForm::If(test, then) => {
                let test = test.duplicate(alloc)?;
                Ok(StmtForm::If(test, then.copied(alloc)?))
            }
            StmtForm::IfElse(test, then, otherwise) => {
                let test = test.duplicate(alloc)?;
                let then = then.copied(alloc)?;
                Ok(StmtForm::IfElse(test, then, otherwise.copied(alloc)?))
            }
            StmtForm::Switch(value, body) => {
                let value = value.duplicate(alloc)?;
                Ok(StmtForm::Switch(value, statements(alloc, body)?))
            }
            StmtForm::Case(value, labelled) => Ok(StmtForm::Case(*value, labelled.copied(alloc)?)),
            StmtForm::Default(labelled) => Ok(StmtForm::Default(labelled.copied(alloc)?)),
            _ => unreachable!(),
        }
    }

    // A copy of a loop.
    #[cycle(duplicate_stmt)]
    fn copied_loop(&self, alloc: Global) -> Result<StmtForm, AllocError>
        requires { IsTrue (is_loop (out-StmtForm self.now)) }
        ensures { IfOk result (λ copy. copy ≡ self.now) }
    {
        match self {
            StmtForm::While(repeats, test, body) => {
                let repeats = repeats.duplicate(alloc)?;
                let test = test.duplicate(alloc)?;
                Ok(StmtForm::While(repeats, test, body.copied(alloc)?))
            }
            StmtForm::DoWhile(repeats, body, test) => {
                let repeats = repeats.duplicate(alloc)?;
                let body = body.copied(alloc)?;
                Ok(StmtForm::DoWhile(repeats, body, test.duplicate(alloc)?))
            }
            StmtForm::For(repeats, first, test, step, body) => {
                let repeats = repeats.duplicate(alloc)?;
                let first = first.copied(alloc)?;
                let test = optional(alloc, test)?;
                let step = optional(alloc, step)?;
                Ok(StmtForm::For(repeats, first, test, step, body.copied(alloc)?))
            }
            _ => unreachable!(),
        }
    }
}

impl Duplicate for Stmt {
    fn duplicate(&self, alloc: Global) -> Result<Stmt, AllocError> {
        self.copied(alloc)
    }
}

impl Duplicate for Function {
    fn duplicate(&self, alloc: Global) -> Result<Function, AllocError> {
        let name = self.name.duplicate(alloc)?;
        let contract = optional(alloc, &self.contract)?;
        let body = optional(alloc, &self.body)?;
        let params = duplicates(alloc, &self.params)?;
        let result = self.result.duplicate(alloc)?;
        Ok(Function {
            name,
            result,
            params,
            contract,
            body,
        })
    }
}

impl Duplicate for StaticVariable {
    fn duplicate(&self, alloc: Global) -> Result<StaticVariable, AllocError> {
        let name = self.name.duplicate(alloc)?;
        let ty = self.ty.duplicate(alloc)?;
        Ok(StaticVariable { name, ty })
    }
}

impl Duplicate for Replacement {
    fn duplicate(&self, alloc: Global) -> Result<Replacement, AllocError> {
        let function = self.function.duplicate(alloc)?;
        let contract = self.contract.duplicate(alloc)?;
        Ok(Replacement { function, contract })
    }
}

impl Duplicate for Options {
    fn duplicate(&self, alloc: Global) -> Result<Options, AllocError> {
        let enforce = self.enforce.duplicate(alloc)?;
        let enforce_by = self.enforce_by.duplicate(alloc)?;
        let replace = duplicates(alloc, &self.replace)?;
        Ok(Options {
            enforce,
            enforce_by,
            replace,
            loops: self.loops,
        })
    }
}
