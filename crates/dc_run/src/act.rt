// What statements do.
ghost use Rattle.std.specs.Prelude.{◌≡◌};
ghost use Rattle.dc_core.specs.View.{act_view, stmt_view};
ghost use Rattle.dc_run.specs.Act.{act_seen};

use dc_program::{Expr, Form, Stmt, StmtForm};

/// What a statement does: it assigns at a site the second expression's value to the place of the first, or returns a
/// value. One that isn't of the first form does nothing that has a meaning.
#[derive(Clone, Copy)]
pub enum Act<'a> {
    Assign(u64, &'a Expr, &'a Expr),
    Return(&'a Expr),
    Nothing,
}

// What an expression that is a statement does.
fn act_of_expression(e: &Expr) -> Act
    ensures { act_seen result ≡ act_view e.now }
{
    match e.form.get() {
        Form::Assign(target, value, location) => Act::Assign(location.number, target, value),
        _ => Act::Nothing,
    }
}

/// What a statement does.
pub fn act_of(stmt: &Stmt) -> Act
    ensures { act_seen result ≡ stmt_view stmt.now }
{
    match stmt.form.get() {
        StmtForm::Expression(e) => act_of_expression(e),
        StmtForm::ReturnWith(e) => Act::Return(e),
        _ => Act::Nothing,
    }
}
