// The parts of a typed program that the first form has.
ghost use Rattle.std.specs.Prelude.{◌≡◌, ◌≤◌, [], length, map, MatchOption};
ghost use Rattle.dc_core.specs.View.{clause_view, function_in, function_view, program_view, stmt_view, target_view};

use dc_layout::CType;
use dc_program::{Clause, Function, Program, Stmt, StmtForm, Target};

/// The function of a program, where it has one.
pub fn function(p: &Program) -> Option<&Function>
    ensures found { MatchOption result (p.now.0 ≡ []) (λ f. function_view f.now ≡ function_in p.now.0) }
    ensures few { length p.now.1.0 ≤ 32767 }
{
    match p.functions() {
        [first, ..] => Some(first),
        [] => None,
    }
}

/// How many parameters a program's function has.
pub fn parameters(p: &Program) -> u64
    ensures { result ≡ (program_view p.now).function.params }
{
    match function(p) {
        Some(f) => params(f),
        None => 0,
    }
}

/// Whether a function gives an int.
pub fn gives_int(f: &Function) -> bool
    ensures { result ≡ (function_view f.now).gives_int }
{
    match f.result {
        CType::Void => false,
        _ => true,
    }
}

/// How many parameters a function has.
pub fn params(f: &Function) -> u64
    ensures { result ≡ (function_view f.now).params }
{
    f.params.len() as u64
}

/// What a function requires.
pub fn required(f: &Function) -> &[Clause]
    ensures { map clause_view result.now ≡ (function_view f.now).contract.requires_ }
{
    match &f.contract {
        Some(contract) => contract.required.as_slice(),
        None => &[],
    }
}

/// What a function ensures.
pub fn ensured(f: &Function) -> &[Clause]
    ensures { map clause_view result.now ≡ (function_view f.now).contract.ensures_ }
{
    match &f.contract {
        Some(contract) => contract.ensured.as_slice(),
        None => &[],
    }
}

/// What a function may write.
pub fn assigned(f: &Function) -> &[Target]
    ensures { map target_view result.now ≡ (function_view f.now).contract.assigns }
{
    match &f.contract {
        Some(contract) => contract.assigned.as_slice(),
        None => &[],
    }
}

/// The statements of a function's body.
pub fn body(f: &Function) -> &[Stmt]
    ensures { map stmt_view result.now ≡ (function_view f.now).body }
{
    let Some(block) = &f.body else {
        return &[];
    };
    match block.form.get() {
        StmtForm::Block(statements) => statements.as_slice(),
        _ => &[],
    }
}
