// Expressions whose rules are all judged by now.
ghost use Rattle.std.specs.Prelude.{◌≡◌, map};
ghost use Rattle.std.specs.List.{list_all};
ghost use Rattle.dc_syntax.specs.View.{raw_view, arguments_tree, parameters_tree};
ghost use Rattle.dc_typing.specs.Plain.{is_plain};

use dc_syntax::Raw;

// Whether each of the trees is plain.
#[cycle(plain)]
fn are_plain(all: &[Raw]) -> bool
    ensures { result ≡ list_all is_plain (map raw_view all.now) }
{
    for one in all {
        if !is_plain_expression(one) {
            return false;
        }
    }
    true
}

// Whether arguments are plain.
#[cycle(plain)]
fn are_plain_arguments(all: &[Raw]) -> bool
    ensures { result ≡ is_plain (arguments_tree (map raw_view all.now)) }
{
    are_plain(all)
}

// Whether parameters are plain.
#[cycle(plain)]
fn are_plain_parameters(all: &[Raw]) -> bool
    ensures { result ≡ is_plain (parameters_tree (map raw_view all.now)) }
{
    are_plain(all)
}

/// Whether an expression has no quantifier in it, and no name that begins with `__CPROVER_`. It takes no memory.
#[cycle(plain)]
pub fn is_plain_expression(raw: &Raw) -> bool
    ensures { result ≡ is_plain (raw_view raw.now) }
{
    match raw {
        Raw::Name(name, _) => !name.as_slice().starts_with(b"__CPROVER_"),
        Raw::Quantifier(..) => false,
        Raw::Paren(a, _) | Raw::SizeofExpression(a, _) | Raw::SizeofType(a, _) => {
            is_plain_expression(a.get())
        }
        Raw::Member(a, _, _) | Raw::Through(a, _, _) => is_plain_expression(a.get()),
        Raw::After(_, a, _) | Raw::Before(_, a, _) | Raw::Prefix(_, a, _) => {
            is_plain_expression(a.get())
        }
        Raw::Index(a, b, _) | Raw::Cast(a, b, _) | Raw::Implies(a, b, _) => {
            is_plain_expression(a.get()) && is_plain_expression(b.get())
        }
        Raw::Binary(_, a, b, _) | Raw::Assign(_, a, b, _) => {
            is_plain_expression(a.get()) && is_plain_expression(b.get())
        }
        Raw::Sized(a, b, _) => is_plain_expression(a.get()) && is_plain_expression(b.get()),
        Raw::Conditional(a, b, c, _) => {
            is_plain_expression(a.get())
                && is_plain_expression(b.get())
                && is_plain_expression(c.get())
        }
        Raw::Call(f, all, _) => {
            is_plain_expression(f.get()) && are_plain_arguments(all.as_slice())
        }
        Raw::Function(d, all, _) => {
            is_plain_expression(d.get()) && are_plain_parameters(all.as_slice())
        }
        Raw::TypeName(_, d, _) | Raw::Parameter(_, d, _) => is_plain_expression(d.get()),
        Raw::Wrapped(d, _) | Raw::Unsized(d, _) => is_plain_expression(d.get()),
        Raw::Pointer(_, d, _) => is_plain_expression(d.get()),
        _ => true,
    }
}
