// Expressions and type-names: parts from left to right, then the phrase.
ghost use Rattle.std.specs.Prelude.{◌≡◌, ◌<◌, ◌+◌, ◌^◌, IsTrue, map, true};
ghost use Rattle.dc_layout.specs.Types.{type_view, structs_view};
ghost use Rattle.dc_program.specs.View.{expr_view};
ghost use Rattle.dc_rules.specs.Seen.{types_view};
ghost use Rattle.dc_syntax.specs.Kinds.{is_unary, is_compound};
ghost use Rattle.dc_syntax.specs.View.{raw_view, arguments_tree, parameters_tree};
ghost use Rattle.dc_syntax.specs.declared.raw.Raw.{out-Raw};
ghost use Rattle.dc_typing.specs.Answers.{Answers, Takes};
ghost use Rattle.dc_typing.specs.DerivedView.{derived_view};
ghost use Rattle.dc_typing.specs.Known.{within};
ghost use Rattle.dc_typing.specs.Plain.{is_call, is_plain};
ghost use Rattle.dc_typing.specs.Seen.{exprs_view};
ghost use Rattle.dc_typing.specs.Typed as spec;
ghost use Rattle.dc_typing.specs.View.{known, knowing};

use crate::builtin::Builtin;
use crate::declarators::{Derivation, derived, has_const, length_of, name_of, whole_type};
use crate::judge::Judge;
use crate::lists::ParameterNames;
use crate::literals::literal;
use crate::refusal::{Refusal, broken};
use crate::spot::Spot;
use dc_layout::{CType, StructTable};
use dc_program::{Expr, LogicalOp, Rule};
use dc_rules::integer_constant;
use dc_scope::Scopes;
use dc_syntax::{Mark, Raw};
use sqlite_items::Items;
use std::alloc::Global;

// Where the right side of an assignment stands.
fn right_spot(mark: Mark, spot: Spot, line: u64) -> Spot
    ensures { result ≡ spec.right_spot mark spot line }
{
    match mark {
        Mark::Equals => spot.right_side(line),
        _ => Spot::Inside,
    }
}

impl<'a> Judge<'a> {
    // What is called, where it is a built-in function.
    fn builtin_of(&self, raw: &Raw) -> Option<Builtin>
        ensures { result ≡ spec.builtin_of (known self.now) (raw_view raw.now) }
    {
        match raw {
            Raw::Name(name, _) => match self.find(name) {
                None => Builtin::named(name),
                Some(_) => None,
            },
            Raw::Paren(inner, _) => self.builtin_of(inner.get()),
            _ => None,
        }
    }

    /// An expression at its spot.
    #[cycle(typed)]
    pub fn typed(&self, spot: Spot, raw: &Raw) -> Result<Expr, Refusal>
        ensures { Answers expr_view (spec.typed (known self.now) spot (raw_view raw.now)) result }
    {
        match raw {
            Raw::Name(name, place) => self.named(place.last(), name),
            Raw::Constant(bytes, place) => literal(self.alloc, place.last(), bytes.as_slice()),
            Raw::Paren(..)
            | Raw::Member(..)
            | Raw::Through(..)
            | Raw::After(..)
            | Raw::Before(..)
            | Raw::Prefix(..)
            | Raw::SizeofExpression(..)
            | Raw::SizeofType(..) => self.typed_unary(spot, raw),
            Raw::Quantifier(..)
            | Raw::Index(..)
            | Raw::Call(..)
            | Raw::Cast(..)
            | Raw::Binary(..)
            | Raw::Implies(..)
            | Raw::Conditional(..)
            | Raw::Assign(..) => self.typed_compound(spot, raw),
            Raw::TypeName(..)
            | Raw::SpecWord(..)
            | Raw::SpecName(..)
            | Raw::StructBody(..)
            | Raw::StructTag(..)
            | Raw::EnumBody(..)
            | Raw::EnumTag(..)
            | Raw::MemberDeclaration(..)
            | Raw::Enumerator(..)
            | Raw::EnumeratorValue(..)
            | Raw::Nameless
            | Raw::DeclaredName(..)
            | Raw::Wrapped(..)
            | Raw::Unsized(..)
            | Raw::Sized(..)
            | Raw::Function(..)
            | Raw::Pointer(..)
            | Raw::Parameter(..) => broken(Rule::Undeclared, 0),
        }
    }

    // An expression with one part.
    #[cycle(typed)]
    fn typed_unary(&self, spot: Spot, raw: &Raw) -> Result<Expr, Refusal>
        requires { IsTrue (is_unary (out-Raw raw.now)) }
        ensures { Answers expr_view (spec.typed (known self.now) spot (raw_view raw.now)) result }
    {
        match raw {
            Raw::Paren(inner, _) => self.typed(spot, inner.get()),
            Raw::Member(a, name, place) => {
                let a = self.typed(Spot::Inside, a.get())?;
                self.member(place.last(), a, name)
            }
            Raw::Through(a, name, place) => {
                let a = self.typed(Spot::Inside, a.get())?;
                self.through(place.last(), a, name)
            }
            Raw::After(mark, a, place) => {
                let a = self.typed(Spot::Inside, a.get())?;
                self.after(*place, spot, *mark, a)
            }
            Raw::Before(mark, a, place) => {
                let a = self.typed(Spot::Inside, a.get())?;
                self.before(*place, spot, *mark, a)
            }
            Raw::Prefix(mark, a, place) => {
                let a = self.typed(Spot::Inside, a.get())?;
                self.prefix(place.last(), *mark, a)
            }
            Raw::SizeofExpression(a, place) => {
                let a = self.typed(Spot::Inside, a.get())?;
                self.sizeof_expression(place.last(), a)
            }
            Raw::SizeofType(t, place) => {
                let t = self.type_named(t.get())?;
                self.sizeof_named(place.last(), t)
            }
            _ => unreachable!(),
        }
    }

    // An expression with several parts.
    #[cycle(typed)]
    fn typed_compound(&self, spot: Spot, raw: &Raw) -> Result<Expr, Refusal>
        requires { IsTrue (is_compound (out-Raw raw.now)) }
        ensures { Answers expr_view (spec.typed (known self.now) spot (raw_view raw.now)) result }
    {
        match raw {
            Raw::Index(a, i, place) => {
                let a = self.typed(Spot::Inside, a.get())?;
                let i = self.typed(Spot::Inside, i.get())?;
                self.index(place.last(), a, i)
            }
            Raw::Call(..) => self.called(spot, raw),
            Raw::Cast(t, a, place) => {
                let t = self.type_named(t.get())?;
                let a = self.typed(Spot::Inside, a.get())?;
                self.cast(place.last(), spot, t, a)
            }
            Raw::Binary(mark, a, b, place) => {
                let a = self.typed(Spot::Inside, a.get())?;
                let b = self.typed(Spot::Inside, b.get())?;
                self.between(place.last(), *mark, a, b)
            }
            Raw::Implies(a, b, place) => {
                let a = self.typed(Spot::Inside, a.get())?;
                let b = self.typed(Spot::Inside, b.get())?;
                self.logical(place.last(), LogicalOp::Implies, a, b)
            }
            Raw::Conditional(a, b, c, place) => {
                let a = self.typed(Spot::Inside, a.get())?;
                let b = self.typed(Spot::Inside, b.get())?;
                let c = self.typed(Spot::Inside, c.get())?;
                self.conditional(place.last(), a, b, c)
            }
            Raw::Assign(mark, a, b, place) => {
                let a = self.typed(Spot::Inside, a.get())?;
                let b = self.typed(right_spot(*mark, spot, place.line()), b.get())?;
                self.assigning(*place, spot, *mark, a, b)
            }
            Raw::Quantifier(_, _, _, _, place) => broken(Rule::WrongQuantifier, place.last()),
            _ => unreachable!(),
        }
    }

    // A call.
    #[cycle(typed)]
    fn called(&self, spot: Spot, raw: &Raw) -> Result<Expr, Refusal>
        requires { IsTrue (is_call (out-Raw raw.now)) }
        ensures { Answers expr_view (spec.typed (known self.now) spot (raw_view raw.now)) result }
    {
        match raw {
            Raw::Call(callee, _, place) => match self.builtin_of(callee.get()) {
                Some(builtin) => {
                    let arguments = self.arguments_of(raw)?;
                    self.call_builtin(*place, spot, builtin, arguments)
                }
                None => self.called_value(spot, raw),
            },
            _ => unreachable!(),
        }
    }

    // A call of what is no built-in function.
    #[cycle(typed)]
    fn called_value(&self, spot: Spot, raw: &Raw) -> Result<Expr, Refusal>
        requires { IsTrue (is_call (out-Raw raw.now)) }
        ensures { Answers expr_view (spec.called_value (known self.now) spot (raw_view raw.now)) result }
    {
        match raw {
            Raw::Call(callee, _, place) => {
                let callee = self.typed(Spot::Inside, callee.get())?;
                let arguments = self.arguments_of(raw)?;
                self.call(*place, spot, callee, arguments)
            }
            _ => unreachable!(),
        }
    }

    // The arguments of a call, by its tree.
    #[cycle(typed)]
    fn arguments_of(&self, raw: &Raw) -> Result<Items<Expr>, Refusal>
        requires { IsTrue (is_call (out-Raw raw.now)) }
        ensures { Answers exprs_view (spec.typed_arguments (known self.now) (spec.arguments_in (raw_view raw.now))) result }
    {
        match raw {
            Raw::Call(_, arguments, _) => self.typed_arguments(arguments.as_slice()),
            _ => unreachable!(),
        }
    }

    // Arguments in their order.
    #[cycle(typed)]
    fn typed_arguments(&self, arguments: &[Raw]) -> Result<Items<Expr>, Refusal>
        ensures { Answers exprs_view (spec.typed_arguments (known self.now) (arguments_tree (map raw_view arguments.now))) result }
    {
        let mut all = Items::new(self.alloc);
        for one in arguments {
            all.push(self.typed(Spot::Inside, one)?)?;
        }
        Ok(all)
    }

    // The type that a type-name names.
    #[cycle(typed)]
    fn type_named(&self, raw: &Raw) -> Result<CType, Refusal>
        ensures { Answers type_view (spec.type_named (known self.now) (raw_view raw.now)) result }
    {
        match raw {
            Raw::TypeName(specs, declarator, place) => {
                let t = self.specs_type(specs.as_slice())?;
                let parts = self.derivations(declarator.get())?;
                let t = derived(self.alloc, parts, t)?;
                whole_type(self.structs, place.last(), t)
            }
            _ => broken(Rule::Undeclared, 0),
        }
    }

    // What a declarator makes of a type, of what stands nearest its name first.
    #[cycle(typed)]
    fn derivations(&self, raw: &Raw) -> Result<Items<Derivation>, Refusal>
        ensures { Answers (map derived_view) (spec.derivations (known self.now) (raw_view raw.now)) result }
    {
        match raw {
            Raw::Wrapped(inner, _) => self.derivations(inner.get()),
            Raw::Unsized(inner, _) => {
                let mut parts = self.derivations(inner.get())?;
                parts.push(Derivation::Of(0))?;
                Ok(parts)
            }
            Raw::Sized(inner, length, place) => {
                let mut parts = self.derivations(inner.get())?;
                let length = self.typed(Spot::Inside, length.get())?;
                let length = length_of(place.last(), integer_constant(self.structs, &length))?;
                parts.push(Derivation::Of(length))?;
                Ok(parts)
            }
            Raw::Function(inner, parameters, _) => {
                let mut parts = self.derivations(inner.get())?;
                let parameters = self.typed_parameters(parameters.as_slice())?;
                parts.push(Derivation::Taking(parameters))?;
                Ok(parts)
            }
            Raw::Pointer(words, inner, _) => {
                let mut parts = self.derivations(inner.get())?;
                parts.push(Derivation::To(has_const(words.as_slice())))?;
                Ok(parts)
            }
            _ => Ok(Items::new(self.alloc)),
        }
    }

    // The types of parameters; each is known behind its declarator.
    #[cycle(typed)]
    fn typed_parameters(&self, parameters: &[Raw]) -> Result<Items<CType>, Refusal>
        ensures { Answers types_view (spec.typed_parameters (within (known self.now)) (parameters_tree (map raw_view parameters.now))) result }
    {
        let mut names = ParameterNames::within(self.alloc, self.parameters);
        let mut types = Items::new(self.alloc);
        for one in parameters {
            types.push(self.typed_parameter(one, &mut names)?)?;
        }
        Ok(types)
    }

    // The type of a parameter, whose name comes into force behind those of the list.
    #[cycle(typed)]
    fn typed_parameter(&self, raw: &Raw, names: &mut ParameterNames<'_>) -> Result<CType, Refusal>
        ensures { Takes result (spec.typed_parameter (knowing (known self.now) names.old) (raw_view raw.now)) names.new }
    {
        match raw {
            Raw::Parameter(_, declarator, place) => {
                let t = self.declared_type(raw, names)?;
                self.declared_parameter(names, place.last(), name_of(declarator.get()), t)
            }
            _ => broken(Rule::Undeclared, 0),
        }
    }

    // The type that a parameter's declarator gives.
    #[cycle(typed)]
    fn declared_type(&self, raw: &Raw, names: &ParameterNames<'_>) -> Result<CType, Refusal>
        ensures { Answers type_view (spec.declared_type (knowing (known self.now) names.now) (raw_view raw.now)) result }
    {
        let judge = self.within(names);
        match raw {
            Raw::Parameter(specs, declarator, _) => {
                let t = judge.specs_type(specs.as_slice())?;
                let parts = judge.derivations(declarator.get())?;
                Ok(derived(self.alloc, parts, t)?)
            }
            _ => broken(Rule::Undeclared, 0),
        }
    }
}

/// The expression that a tree means where it stands, with its types, or the first rule that it breaks: its parts from left to
/// right, then the phrase, at one phrase the rules in their order (C11 6.5).
///
/// `structs` are the structs that types and tags name, and `sites` is how many sites the function has before: the whole may be
/// an assignment, `++`, `--`, or a call, and has the next number then. `returned`, the type of `__CPROVER_return_value`, isn't
/// used so far.
///
/// `Rule` is answered exactly where a rule is broken, with the first one and the last token of the phrase that breaks it, and
/// `Memory` where memory is refused, or a struct has 2^32 members or more.
pub fn type_expr<'a>(
    alloc: Global,
    raw: &Raw,
    scopes: &'a Scopes,
    structs: &'a StructTable,
    returned: Option<&CType>,
    sites: u64,
) -> Result<Expr, Refusal>
    requires plain { is_plain (raw_view raw.now) ≡ true }
    requires sites { sites + 1 < 2 ^ 64 }
    ensures { Answers expr_view (spec.typed_expression scopes.now (structs_view structs.now) sites (raw_view raw.now)) result }
{
    let _later = returned;
    let judge = Judge {
        alloc,
        scopes,
        structs,
        parameters: None,
    };
    judge.typed(Spot::Whole(sites + 1), raw)
}
