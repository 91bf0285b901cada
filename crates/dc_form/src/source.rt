// A whole source.
ghost use Rattle.std.specs.Prelude.{◌≡◌, ◌-◌, ◌++◌, [], ◌∷◌, length, map, replicate, All, IfOk, IsErrOf, None, Some};
ghost use Rattle.dc_core.specs.View.{contract_view, stmt_view, program_view};
ghost use Rattle.dc_core.specs.Whole.{Says, result_type as result_type_of};
ghost use Rattle.dc_layout.specs.Types.{type_view};
ghost use Rattle.dc_layout.specs.declared.ctype.CType.TheVariants.{Num};
ghost use Rattle.dc_layout.specs.declared.kind.LayKind.TheVariants.{S32};
ghost use Rattle.dc_program.specs.ProgramView as whole_program;
ghost use Rattle.dc_program.specs.Sound.{Sound};
ghost use Rattle.dc_program.specs.View as whole;
ghost use Rattle.dc_program.specs.declared.statement.StmtForm.TheVariants.{Block};
ghost use Rattle.dc_form.specs.Read.Reading.{got};
ghost use Rattle.dc_form.specs.Read.HeadView.{head_view, names_of};
ghost use Rattle.dc_form.specs.Read.Source as source;
ghost use Rattle.dc_form.specs.Read.Whole.{IsInt, IsWholeContract, IsWholeProgram, IsWholeStmt, parts_view};
ghost use Rattle.dc_form.specs.declared.reader.Form.TheVariants.{NoForm};

use crate::body::{read_assignments, read_return};
use crate::clauses::read_clauses;
use crate::cursor::Cursor;
use crate::reader::Form;
use crate::signature::{Head, read_head, read_list};
use crate::tokens::Token;
use dc_layout::LayKind;
use dc_names::Names;
use dc_program::{CType, Contract, Function, Program, StaticVariable, Stmt, StmtForm, StructTable};
use sqlite_items::Items;
use std::alloc::{AllocError, Global};

// The clauses in front, and the `{` behind them.
fn read_contract(
    alloc: Global,
    names: &Names,
    statics: u64,
    gives_int: bool,
    tokens: &mut Cursor,
) -> Result<Contract, Form>
    ensures found { IfOk result (λ c. source.read_contract names.now statics gives_int tokens.old ≡ got (contract_view c) tokens.new) }
    ensures whole { IfOk result IsWholeContract }
    ensures none { IsErrOf result NoForm → source.read_contract names.now statics gives_int tokens.old ≡ None }
{
    let mut contract = Contract {
        required: Items::new(alloc),
        ensured: Items::new(alloc),
        assigned: Items::new(alloc),
        freed: Items::new(alloc),
    };
    read_clauses(alloc, names, statics, gives_int, &mut contract, tokens)?;
    Ok(contract)
}

// The body in front, and the `}` behind it.
fn read_body(
    alloc: Global,
    names: &Names,
    statics: u64,
    gives_int: bool,
    tokens: &mut Cursor,
) -> Result<Items<Stmt>, Form>
    ensures found { IfOk result (λ body. source.read_body names.now statics gives_int tokens.old ≡ got (map stmt_view body) tokens.new) }
    ensures whole { IfOk result (All IsWholeStmt) }
    ensures none { IsErrOf result NoForm → source.read_body names.now statics gives_int tokens.old ≡ None }
{
    let mut body = Items::new(alloc);
    read_assignments(alloc, names, statics, &mut body, tokens)?;
    read_return(alloc, names, statics, gives_int, &mut body, tokens)?;
    tokens.expect(b"}")?;
    Ok(body)
}

// How many parameters there are, where the variables and the function are among the names.
fn params_of(names: &Names, statics: u64) -> u64
    ensures { result ≡ length names.now - statics - 1 }
{
    (names.len() as u64)
        .saturating_sub(statics)
        .saturating_sub(1)
}

// The type of each parameter.
fn ints(alloc: Global, count: u64) -> Result<Items<CType>, AllocError>
    ensures { IfOk result (λ types. types ≡ replicate count (Num S32)) }
{
    let mut types = Items::new(alloc);
    for _index in 0..count {
        types.push(CType::Num(LayKind::S32))?;
    }
    Ok(types)
}

// What a function gives.
fn result_type(gives_int: bool) -> CType
    ensures { type_view result ≡ result_type_of gives_int }
{
    if gives_int {
        CType::Num(LayKind::S32)
    } else {
        CType::Void
    }
}

// The body with these statements.
fn block(alloc: Global, body: Items<Stmt>) -> Result<Stmt, AllocError>
    ensures { IfOk result (λ s. s ≡ record { form = Block body }) }
{
    Stmt::new(alloc, StmtForm::Block(body))
}

/// What is read of a program: its variables of file scope, and its function.
#[derive(Drop)]
pub struct Parts {
    pub statics: Items<StaticVariable>,
    pub function: Function,
}

// The program with these clauses and statements, and so many parameters.
fn parts_of(
    alloc: Global,
    head: Head,
    params: u64,
    contract: Contract,
    body: Items<Stmt>,
) -> Result<Parts, AllocError>
    ensures found { IfOk result (λ p. parts_view p ≡ record { statics = names_of head.statics; function = record { name = head.name; gives_int = head.gives_int; params = params; contract = contract_view contract; body = map stmt_view body } }) }
    ensures whole { All IsInt head.statics → IsWholeContract contract → All IsWholeStmt body → IfOk result IsWholeProgram }
{
    let params = ints(alloc, params)?;
    let body = block(alloc, body)?;
    let function = Function {
        name: head.name,
        result: result_type(head.gives_int),
        params,
        contract: Some(contract),
        body: Some(body),
    };
    Ok(Parts {
        statics: head.statics,
        function,
    })
}

// The clauses and the body of a function in front, where so many of the names are variables.
fn read_function(
    alloc: Global,
    head: Head,
    statics: u64,
    names: &Names,
    tokens: &mut Cursor,
) -> Result<Parts, Form>
    ensures found { IfOk result (λ p. source.read_function (head_view head) statics names.now tokens.old ≡ got (parts_view p) tokens.new) }
    ensures whole { All IsInt head.statics → IfOk result IsWholeProgram }
    ensures none { IsErrOf result NoForm → source.read_function (head_view head) statics names.now tokens.old ≡ None }
{
    let contract = read_contract(alloc, names, statics, head.gives_int, tokens)?;
    let body = read_body(alloc, names, statics, head.gives_int, tokens)?;
    let params = params_of(names, statics);
    let parts = parts_of(alloc, head, params, contract, body)?;
    Ok(parts)
}

// The clauses and the body of a function in front.
fn read_rest(alloc: Global, head: Head, names: &Names, tokens: &mut Cursor) -> Result<Parts, Form>
    ensures found { IfOk result (λ p. source.read_rest (head_view head) names.now tokens.old ≡ got (parts_view p) tokens.new) }
    ensures whole { All IsInt head.statics → IfOk result IsWholeProgram }
    ensures none { IsErrOf result NoForm → source.read_rest (head_view head) names.now tokens.old ≡ None }
{
    let statics = head.statics.len() as u64;
    read_function(alloc, head, statics, names, tokens)
}

// The program in front.
fn read_program(alloc: Global, tokens: &mut Cursor) -> Result<Parts, Form>
    ensures found { IfOk result (λ p. source.read_program tokens.old ≡ got (parts_view p) tokens.new) }
    ensures whole { IfOk result IsWholeProgram }
    ensures none { IsErrOf result NoForm → source.read_program tokens.old ≡ None }
{
    let mut names = Names::new(alloc);
    let head = read_head(alloc, &mut names, tokens)?;
    read_list(&mut names, tokens)?;
    let program = read_rest(alloc, head, &names, tokens)?;
    Ok(program)
}

// The program of these parts.
fn program_of(alloc: Global, parts: Parts) -> Result<Program, AllocError>
    requires { Sound (whole.program (parts.function ∷ []) parts.statics []) }
    ensures { IfOk result (λ p. p ≡ (parts.function ∷ [], (parts.statics, []))) }
{
    let mut functions = Items::new(alloc);
    functions.push(parts.function)?;
    let structs = StructTable::new(alloc);
    Ok(Program::new(functions, parts.statics, structs))
}

/// The program of these tokens.
pub fn read_source(alloc: Global, tokens: &[Token]) -> Result<Program, Form>
    ensures found { IfOk result (λ p. source.read_source tokens.now ≡ Some (program_view p)) }
    ensures whole { IfOk result (λ p. Says (program_view p) (whole_program.program_view p)) }
    ensures none { IsErrOf result NoForm → source.read_source tokens.now ≡ None }
{
    let mut tokens = Cursor::new(tokens);
    let parts = read_program(alloc, &mut tokens)?;
    if !tokens.is_empty() {
        return Err(Form::NoForm);
    }
    let program = program_of(alloc, parts)?;
    Ok(program)
}
