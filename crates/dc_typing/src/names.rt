// The names of expressions (C11 6.5.1).
ghost use Rattle.std.specs.Prelude.{◌≡◌, IfOk, true, false, Option};
ghost use Rattle.dc_layout.specs.Types.{type_view};
ghost use Rattle.dc_program.specs.View.{expr_view};
ghost use Rattle.dc_scope.specs.Entities.{entity_view};
ghost use Rattle.dc_typing.specs.Answers.{Answers};
ghost use Rattle.dc_typing.specs.Known.{constant_type, entity_value, unknown, builtin_named, named};
ghost use Rattle.dc_typing.specs.View.{known};

use crate::builtin::Builtin;
use crate::judge::Judge;
use crate::refusal::{Refusal, broken};
use dc_layout::CType;
use dc_num::NumKind;
use dc_program::{Expr, Form, Rule};
use dc_rules::number;
use dc_scope::Entity;
use dc_text::Name;
use std::alloc::{AllocError, Global};

// The type of a constant; `NULL` alone is a pointer.
fn constant_type(alloc: Global, kind: NumKind) -> Result<CType, AllocError>
    ensures { IfOk result (λ t. type_view t ≡ constant_type kind) }
{
    match kind {
        NumKind::Ptr => CType::pointer(alloc, CType::Void),
        _ => Ok(number(kind)),
    }
}

// The expression that is the name of an entity.
fn entity_value(alloc: Global, site: u64, entity: &Entity) -> Result<Expr, Refusal>
    ensures { Answers expr_view (entity_value site (entity_view entity.now)) result }
{
    match entity {
        Entity::Function(n, t) => Ok(Expr::new(alloc, t.duplicate(alloc)?, Form::Function(*n))?),
        Entity::Static(n, t) => Ok(Expr::new(alloc, t.duplicate(alloc)?, Form::Static(*n))?),
        Entity::Local(n, t) => Ok(Expr::new(alloc, t.duplicate(alloc)?, Form::Local(*n))?),
        Entity::Constant(kind, value) => {
            let t = constant_type(alloc, *kind)?;
            Ok(Expr::new(alloc, t, Form::Literal(*value))?)
        }
        Entity::Quantified(depth, kind) => {
            Ok(Expr::new(alloc, number(*kind), Form::Quantified(*depth))?)
        }
        Entity::Typedef(_) | Entity::StructTag(_) | Entity::EnumTag => {
            broken(Rule::Undeclared, site)
        }
    }
}

// The rule that a name breaks which isn't declared.
fn unknown(site: u64, name: &Name) -> Result<Expr, Refusal>
    ensures { Answers expr_view (unknown site (builtin_named name.now)) result }
{
    match Builtin::named(name) {
        Some(_) => broken(Rule::ReservedName, site),
        None => broken(Rule::Undeclared, site),
    }
}

impl<'a> Judge<'a> {
    /// The expression that is a name: `Undeclared` where it is none of an object, function or constant, and `ReservedName`
    /// where it is a built-in function.
    pub fn named(&self, site: u64, name: &Name) -> Result<Expr, Refusal>
        ensures { Answers expr_view (named (known self.now) site name.now) result }
    {
        match self.find(name) {
            Some(entity) => entity_value(self.alloc, site, entity),
            None => unknown(site, name),
        }
    }
}
