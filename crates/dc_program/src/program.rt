// Functions, variables of file scope, programs and options.
ghost use Rattle.std.specs.Prelude.{◌≡◌, IfOk};
ghost use Rattle.dc_program.specs.Sound.{Sound};
ghost use Rattle.dc_program.specs.View.{program};
ghost use Rattle.dc_program.specs.ProgramView.{program_view};

use crate::contract::Contract;
use crate::duplicate::duplicates;
use crate::statement::Stmt;
use dc_layout::{CType, StructTable};
use dc_text::Name;
use sqlite_items::Items;
use std::alloc::{AllocError, Global};
use std::marker::Model;

/// A function: what it gives, the types of its parameters, its contract where a declaration of it has clauses, and its
/// body, a block, where it has one.
#[derive(Drop)]
pub struct Function {
    pub name: Name,
    pub result: CType,
    pub params: Items<CType>,
    pub contract: Option<Contract>,
    pub body: Option<Stmt>,
}

/// A variable of file scope.
#[derive(Drop)]
pub struct StaticVariable {
    pub name: Name,
    pub ty: CType,
}

/// A program that is sound: each name in it is there, each expression has the type that its parts give, and types,
/// statements, initializers and clauses keep the rules of the profile.
#[derive(Drop)]
pub struct Program {
    functions: Items<Function>,
    statics: Items<StaticVariable>,
    structs: StructTable,
}

impl Model for Program {
    ghost use Rattle.std.specs.Prelude.{List, Option};
    ghost use Rattle.std.specs.Coded.{codes};
    ghost use Rattle.dc_layout.specs.contracts.ctype.CType as ctype;
    ghost use Rattle.dc_layout.specs.declared.ctype.CType.{CType};
    ghost use Rattle.dc_program.specs.contracts.program.Function as function;
    ghost use Rattle.dc_program.specs.contracts.program.StaticVariable as variable;
    ghost use Rattle.dc_program.specs.declared.program.Function.{Function};
    ghost use Rattle.dc_program.specs.declared.program.StaticVariable.{StaticVariable};
    ghost use Rattle.dc_program.specs.Sound.{Sound};
    ghost use Rattle.dc_program.specs.View.{program};

    ghost Value = { List Function × (List StaticVariable × List (Option (List CType))) };

    ghost coded = { Prim.hlevel (codes, function.the_row.coded, variable.the_row.coded, ctype.the_row.coded) };

    ghost view = { λ p. (p.functions, (p.statics, p.structs)) };

    ghost invariant = { λ p. Sound (program p.functions p.statics p.structs) };
}

impl Program {
    /// The program of these functions, variables of file scope and structs, which is sound.
    pub fn new(
        functions: Items<Function>,
        statics: Items<StaticVariable>,
        structs: StructTable,
    ) -> Program
        requires { Sound (program functions statics structs) }
        ensures { result ≡ (functions, (statics, structs)) }
    {
        Program {
            functions,
            statics,
            structs,
        }
    }

    /// The functions, in the order of their first declarations. That the program is sound is known of each program that
    /// these are asked of.
    pub fn functions(&self) -> &[Function]
        ensures is { result.now ≡ self.now.0 }
        ensures sound { Sound (program_view self.now) }
    {
        self.functions.as_slice()
    }

    /// The variables of file scope, in the order of their first declarations.
    pub fn statics(&self) -> &[StaticVariable]
        ensures { result.now ≡ self.now.1.0 }
    {
        self.statics.as_slice()
    }

    /// The structs.
    pub fn structs(&self) -> &StructTable
        ensures { result.now ≡ self.now.1.1 }
    {
        &self.structs
    }

    /// A copy of the program. Where there is no memory, nothing is left of it.
    pub fn duplicate(&self, alloc: Global) -> Result<Program, AllocError>
        ensures { IfOk result (λ copy. copy ≡ self.now) }
    {
        let functions = duplicates(alloc, &self.functions)?;
        let statics = duplicates(alloc, &self.statics)?;
        let structs = self.structs.duplicate(alloc)?;
        Ok(Program {
            functions,
            statics,
            structs,
        })
    }
}

/// A function, and the function by whose contract it is replaced.
#[derive(Drop)]
pub struct Replacement {
    pub function: Name,
    pub contract: Name,
}

/// The function that is enforced with the function whose contract it is enforced by, the replacements in their order, and
/// whether loops are taken by their contracts.
#[derive(Drop)]
pub struct Options {
    pub enforce: Name,
    pub enforce_by: Name,
    pub replace: Items<Replacement>,
    pub loops: bool,
}
