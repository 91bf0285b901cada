// Calls (C11 6.5.2.2), of the built-in functions too (C11 7.2, 7.22.3, 7.24).
ghost use Rattle.std.specs.Prelude.{◌≡◌, [], ◌∷◌, IfOk};
ghost use Rattle.std.specs.Option.{option_map};
ghost use Rattle.dc_layout.specs.Types.{Pointer, Void, Types, NoTypes, structs_view, type_view};
ghost use Rattle.dc_program.specs.Types.{size};
ghost use Rattle.dc_program.specs.View.{expr_view, form_view};
ghost use Rattle.dc_rules.specs.Seen.{types_view};
ghost use Rattle.dc_typing.specs.Answers.{Answers};
ghost use Rattle.dc_typing.specs.Calls as spec;
ghost use Rattle.dc_typing.specs.Seen.{exprs_view, pair_view, triple_view};
ghost use Rattle.dc_typing.specs.View.{known};

use crate::builtin::Builtin;
use crate::judge::Judge;
use crate::places::takes;
use crate::refusal::{Refusal, broken};
use crate::spot::Spot;
use dc_layout::{CType, StructTable};
use dc_num::NumKind;
use dc_program::{Expr, Form, Location, Rule};
use dc_rules::{called_type, is_scalar, number, parameters_of, result_of};
use dc_syntax::Place;
use sqlite_items::Items;
use std::alloc::{AllocError, Global};

// Whether each argument that has a parameter can be assigned to it.
fn all_taken(structs: &StructTable, types: &[CType], arguments: &[Expr]) -> bool
    ensures { result ≡ spec.all_taken (structs_view structs.now) (types_view types.now) (exprs_view arguments.now) }
{
    let mut left = arguments;
    for one in types {
        let [argument, tail @ ..] = left else {
            return true;
        };
        if !takes(structs, one, argument) {
            return false;
        }
        left = tail;
    }
    true
}

// Whether there are as many arguments as parameters.
fn are_as_many(types: &[CType], arguments: &[Expr]) -> bool
    ensures { result ≡ spec.are_as_many (types_view types.now) (exprs_view arguments.now) }
{
    types.len() == arguments.len()
}

// Exactly one argument.
fn one_of(arguments: Items<Expr>) -> Option<Expr>
    ensures { option_map expr_view result ≡ spec.one_of (exprs_view arguments) }
{
    let mut arguments = arguments;
    if arguments.len() != 1 {
        return None;
    }
    arguments.pop()
}

// Exactly two arguments.
fn two_of(arguments: Items<Expr>) -> Option<(Expr, Expr)>
    ensures { option_map pair_view result ≡ spec.two_of (exprs_view arguments) }
{
    let mut arguments = arguments;
    if arguments.len() != 2 {
        return None;
    }
    let second = arguments.pop()?;
    let first = arguments.pop()?;
    Some((first, second))
}

// Exactly three arguments.
fn three_of(arguments: Items<Expr>) -> Option<(Expr, Expr, Expr)>
    ensures { option_map triple_view result ≡ spec.three_of (exprs_view arguments) }
{
    let mut arguments = arguments;
    if arguments.len() != 3 {
        return None;
    }
    let third = arguments.pop()?;
    let second = arguments.pop()?;
    let first = arguments.pop()?;
    Some((first, second, third))
}

// A list of one type.
fn one_type(alloc: Global, t: CType) -> Result<Items<CType>, AllocError>
    ensures { IfOk result (λ ts. ts ≡ t ∷ []) }
{
    let mut types = Items::new(alloc);
    types.push(t)?;
    Ok(types)
}

// A list of two types.
fn two_types(alloc: Global, t: CType, u: CType) -> Result<Items<CType>, AllocError>
    ensures { IfOk result (λ ts. ts ≡ t ∷ u ∷ []) }
{
    let mut types = Items::new(alloc);
    types.push(t)?;
    types.push(u)?;
    Ok(types)
}

// A pointer to void, a type, and that of sizes.
fn three_types(alloc: Global, t: CType) -> Result<Items<CType>, AllocError>
    ensures { IfOk result (λ ts. types_view ts ≡ Types (Pointer Void) (Types (type_view t) (Types size NoTypes))) }
{
    let mut types = Items::new(alloc);
    types.push(CType::pointer(alloc, CType::Void)?)?;
    types.push(t)?;
    types.push(number(NumKind::U64))?;
    Ok(types)
}

// What a built-in function takes.
fn builtin_parameters(alloc: Global, builtin: Builtin) -> Result<Items<CType>, AllocError>
    ensures { IfOk result (λ ts. types_view ts ≡ spec.builtin_parameters builtin) }
{
    match builtin {
        Builtin::Malloc => one_type(alloc, number(NumKind::U64)),
        Builtin::Calloc => two_types(alloc, number(NumKind::U64), number(NumKind::U64)),
        Builtin::Free => one_type(alloc, CType::pointer(alloc, CType::Void)?),
        Builtin::Memset => three_types(alloc, number(NumKind::S32)),
        Builtin::Memcpy | Builtin::Memmove => {
            three_types(alloc, CType::pointer(alloc, CType::Void)?)
        }
        Builtin::Assert => Ok(Items::new(alloc)),
    }
}

// The form of a call of a built-in function, where there are as many arguments as it takes.
fn builtin_form(builtin: Builtin, arguments: Items<Expr>, location: Location) -> Option<Form>
    ensures { option_map form_view result ≡ spec.builtin_form builtin (exprs_view arguments) location }
{
    match builtin {
        Builtin::Malloc => Some(Form::Malloc(one_of(arguments)?, location)),
        Builtin::Calloc => {
            let (n, m) = two_of(arguments)?;
            Some(Form::Calloc(n, m, location))
        }
        Builtin::Free => Some(Form::Free(one_of(arguments)?, location)),
        Builtin::Memset => {
            let (a, c, n) = three_of(arguments)?;
            Some(Form::Memset(a, c, n, location))
        }
        Builtin::Memcpy => {
            let (a, b, n) = three_of(arguments)?;
            Some(Form::Memcpy(a, b, n, location))
        }
        Builtin::Memmove => {
            let (a, b, n) = three_of(arguments)?;
            Some(Form::Memmove(a, b, n, location))
        }
        Builtin::Assert => Some(Form::Assert(one_of(arguments)?, location)),
    }
}

// What a built-in function gives.
fn builtin_result(alloc: Global, builtin: Builtin) -> Result<CType, AllocError>
    ensures { IfOk result (λ t. type_view t ≡ spec.builtin_result builtin) }
{
    match builtin {
        Builtin::Free | Builtin::Assert => Ok(CType::Void),
        Builtin::Malloc | Builtin::Calloc => CType::pointer(alloc, CType::Void),
        Builtin::Memset | Builtin::Memcpy | Builtin::Memmove => {
            CType::pointer(alloc, CType::Void)
        }
    }
}

// The call with a form, if there is one, where a call may stand.
fn made_call(
    alloc: Global,
    site: u64,
    spot: Spot,
    ty: CType,
    form: Option<Form>,
) -> Result<Expr, Refusal>
    ensures { Answers expr_view (spec.made_call site spot (type_view ty) (option_map form_view form)) result }
{
    match form {
        None => broken(Rule::NoCall, site),
        Some(form) if spot.holds_call() => Ok(Expr::new(alloc, ty, form)?),
        Some(_) => broken(Rule::EffectInside, site),
    }
}

// Whether the first argument of `assert` is a number or a pointer.
fn is_tested(builtin: Builtin, arguments: &[Expr]) -> bool
    ensures { result ≡ spec.is_tested builtin (exprs_view arguments.now) }
{
    match (builtin, arguments) {
        (Builtin::Assert, [first, ..]) => is_scalar(&first.ty),
        _ => true,
    }
}

impl<'a> Judge<'a> {
    // Whether these arguments go to these parameters.
    fn passed(
        &self,
        site: u64,
        spot: Spot,
        types: &[CType],
        arguments: &[Expr],
    ) -> Result<(), Refusal>
        ensures { Answers (λ u. u) (spec.passed (known self.now).structs site spot (types_view types.now) (exprs_view arguments.now)) result }
    {
        if !all_taken(self.structs, types, arguments) {
            return broken(Rule::WrongValue, site);
        }
        if !are_as_many(types, arguments) {
            return broken(Rule::NoCall, site);
        }
        if !spot.holds_call() {
            return broken(Rule::EffectInside, site);
        }
        Ok(())
    }

    /// `f ( a , b )`
    pub fn call(
        &self,
        place: Place,
        spot: Spot,
        callee: Expr,
        arguments: Items<Expr>,
    ) -> Result<Expr, Refusal>
        ensures { Answers expr_view (spec.call (known self.now).structs place spot (expr_view callee) (exprs_view arguments)) result }
    {
        let site = place.last();
        let function = match called_type(&callee.ty) {
            Ok(function) => function,
            Err(rule) => return broken(rule, site),
        };
        self.passed(site, spot, parameters_of(function), arguments.as_slice())?;
        let ty = result_of(function).duplicate(self.alloc)?;
        let form = Form::Call(callee, arguments, spot.site_at(place.line()));
        Ok(Expr::new(self.alloc, ty, form)?)
    }

    /// A call of a built-in function.
    pub fn call_builtin(
        &self,
        place: Place,
        spot: Spot,
        builtin: Builtin,
        arguments: Items<Expr>,
    ) -> Result<Expr, Refusal>
        ensures { Answers expr_view (spec.call_builtin (known self.now).structs place spot builtin (exprs_view arguments)) result }
    {
        let site = place.last();
        if !is_tested(builtin, arguments.as_slice()) {
            return broken(Rule::TruthNeeded, site);
        }
        let types = builtin_parameters(self.alloc, builtin)?;
        if !all_taken(self.structs, types.as_slice(), arguments.as_slice()) {
            return broken(Rule::WrongValue, site);
        }
        let ty = builtin_result(self.alloc, builtin)?;
        let form = builtin_form(builtin, arguments, spot.site_at(place.line()));
        made_call(self.alloc, site, spot, ty, form)
    }
}
