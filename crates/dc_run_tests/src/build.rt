// Programs: of sources, and one of an int function that falls off its end, which no source of the form has.
ghost use Rattle.std.specs.Prelude.{◌≡◌, IfOk};
ghost use Rattle.dc_core.specs.Whole.{InBody, whole_expr};
ghost use Rattle.dc_layout.specs.declared.ctype.CType.TheVariants.{Num};
ghost use Rattle.dc_layout.specs.declared.kind.LayKind.TheVariants.{S32};
ghost use Rattle.dc_program.specs.View as whole;
ghost use Rattle.dc_run_tests.specs.Unfinished as plain;

use dc_form::{Form as Refusal, read_form};
use dc_layout::LayKind;
use dc_program::{
    BinOp, CType, Expr, Form, Function, Location, Program, Stmt, StmtForm, StructTable,
};
use dc_text::Name;
use sqlite_items::Items;
use std::alloc::{AllocError, Global};

/// The program of a source. One that is none of the form is as one for which there is no memory.
pub fn read_program(alloc: Global, source: &str) -> Result<Program, AllocError> {
    match read_form(alloc, source.as_bytes()) {
        Ok(p) => Ok(p),
        Err(Refusal::Memory(error)) => Err(error),
        Err(Refusal::NoForm) => Err(AllocError),
    }
}

// An expression of type int.
fn int(alloc: Global, form: Form) -> Result<Expr, AllocError>
    ensures { IfOk result (λ e. e ≡ record { ty = Num S32; form = form }) }
{
    Expr::new(alloc, CType::Num(LayKind::S32), form)
}

// The parameter and one more.
fn one_more(alloc: Global) -> Result<Expr, AllocError>
    ensures { IfOk result (λ e. whole.expr_view e ≡ whole_expr InBody plain.one_more) }
{
    let parameter = int(alloc, Form::Local(0))?;
    let one = int(alloc, Form::Literal(1))?;
    int(alloc, Form::Binary(BinOp::Add, parameter, one))
}

// `x = x + 1;`
fn increment(alloc: Global) -> Result<Stmt, AllocError>
    ensures { IfOk result (λ s. whole.stmt_view s ≡ plain.whole_increment) }
{
    let parameter = int(alloc, Form::Local(0))?;
    let value = one_more(alloc)?;
    let location = Location { number: 1, line: 1 };
    let act = int(alloc, Form::Assign(parameter, value, location))?;
    Stmt::new(alloc, StmtForm::Expression(act))
}

// The body of that statement.
fn body(alloc: Global) -> Result<Stmt, AllocError>
    ensures { IfOk result (λ s. whole.stmt_view s ≡ plain.whole_body) }
{
    let mut statements = Items::new(alloc);
    statements.push(increment(alloc)?)?;
    Stmt::new(alloc, StmtForm::Block(statements))
}

// `int f(int x) { x = x + 1; }`
fn function(alloc: Global) -> Result<Function, AllocError>
    ensures { IfOk result (λ f. whole.function_view f ≡ plain.whole_unfinished) }
{
    let name = Name::copied(alloc, b"f")?;
    let mut params = Items::new(alloc);
    params.push(CType::Num(LayKind::S32))?;
    let body = body(alloc)?;
    Ok(Function {
        name,
        result: CType::Num(LayKind::S32),
        params,
        contract: None,
        body: Some(body),
    })
}

/// `int f(int x) { x = x + 1; }`
pub fn unfinished_program(alloc: Global) -> Result<Program, AllocError> {
    let f = function(alloc)?;
    let mut functions = Items::new(alloc);
    functions.push(f)?;
    let statics = Items::new(alloc);
    let structs = StructTable::new(alloc);
    let program = Program::new(functions, statics, structs);
    Ok(program)
}
