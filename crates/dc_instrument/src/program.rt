// The goto program of a program.
ghost use Rattle.std.specs.Prelude.{◌≡◌, ◌++◌, map, IfOk};
ghost use Rattle.dc_core.specs.Program as plain;
ghost use Rattle.dc_core.specs.View.{function_view};
ghost use Rattle.dc_core.specs.Whole.{Says};
ghost use Rattle.dc_goto.specs.View.{goto_view, sig_view, static_view};
ghost use Rattle.dc_program.specs.ProgramView.{program_view};
ghost use Rattle.dc_instrument.specs.Lowering.{goto_of, int_static, ints, result_kind, sig_of};

use crate::function::function_body;
use crate::start::start_body;
use dc_core::{NumKind, function, gives_int, params};
use dc_goto::{GotoProgram, Sig, StaticVar};
use dc_program::{Function, Program, StaticVariable};
use sqlite_items::Items;
use std::alloc::{AllocError, Global};

// That many times the kind int.
fn int_kinds(alloc: Global, n: u64) -> Result<Items<NumKind>, AllocError>
    ensures { IfOk result (λ kinds. kinds ≡ ints n) }
{
    let mut kinds = Items::new(alloc);
    for _index in 0..n {
        kinds.push(NumKind::S32)?;
    }
    Ok(kinds)
}

// The kind of a result, if there is one.
fn kind_of_result(gives_int: bool) -> Option<NumKind>
    ensures { result ≡ result_kind gives_int }
{
    if gives_int { Some(NumKind::S32) } else { None }
}

// The name of a function, its result and its parameters.
fn signature(alloc: Global, f: &Function) -> Result<Sig, AllocError>
    ensures { IfOk result (λ sig. sig_view sig ≡ sig_of (function_view f.now)) }
{
    let name = f.name.duplicate(alloc)?;
    let params = int_kinds(alloc, params(f))?;
    Ok(Sig {
        name,
        result: kind_of_result(gives_int(f)),
        params,
    })
}

// The variables, each an int.
fn static_vars(alloc: Global, statics: &[StaticVariable]) -> Result<Items<StaticVar>, AllocError>
    ensures { IfOk result (λ vars. map static_view vars ≡ map int_static (map (λ v. v.name) statics.now)) }
{
    let mut vars = Items::new(alloc);
    for variable in statics {
        vars.push(StaticVar {
            name: variable.name.duplicate(alloc)?,
            size: 4,
        })?;
    }
    Ok(vars)
}

// The goto program of a function below variables.
fn lowered_function(
    alloc: Global,
    f: &Function,
    statics: &[StaticVariable],
) -> Result<GotoProgram, AllocError>
    ensures { IfOk result (λ q. goto_view q ≡ goto_of (record { statics = map (λ v. v.name) statics.now; function = function_view f.now })) }
{
    let mut functions = Items::new(alloc);
    functions.push(signature(alloc, f)?)?;
    let statics = static_vars(alloc, statics)?;
    let mut bodies = Items::new(alloc);
    bodies.push(function_body(alloc, f)?)?;
    bodies.push(start_body(alloc, f)?)?;
    Ok(GotoProgram {
        functions,
        statics,
        bodies,
    })
}

/// The goto program of a program of the first form: its function, and the start that calls it. One without a function
/// has no code.
///
/// It fails only where memory is refused. The program is only read, so an error leaves nothing behind.
pub fn lowered(alloc: Global, p: &Program) -> Result<GotoProgram, AllocError>
    ensures { IfOk result (λ q. (first : plain.Program) → Says first (program_view p.now) → goto_view q ≡ goto_of first) }
{
    match function(p) {
        Some(f) => lowered_function(alloc, f, p.statics()),
        None => Ok(GotoProgram {
            functions: Items::new(alloc),
            statics: Items::new(alloc),
            bodies: Items::new(alloc),
        }),
    }
}
