// The rules for single expressions.
ghost use Rattle.std.specs.Prelude.{◌≡◌, ◌&&◌, map};
ghost use Rattle.std.specs.List.{list_all};
ghost use Rattle.std.specs.Option.{option_map};
ghost use Rattle.dc_core.specs.View.{term_view};
ghost use Rattle.dc_goto.specs.Shape.{is_size as size_is, may_compute as computes, may_give as gives, may_mean as means, may_mean_in as means_in};

use dc_core::{BinOp, NumKind, Term};

/// Whether this is the size of an object, or of an element.
pub fn is_size(size: u64) -> bool
    ensures { result ≡ size_is size }
{
    1 <= size && size <= 16777216
}

// Whether an operator may be of a kind: comparisons are of pointers too, arithmetic is not.
fn may_compute(op: BinOp, kind: NumKind) -> bool
    ensures { result ≡ computes op kind }
{
    match op {
        BinOp::Lt | BinOp::Le | BinOp::Gt | BinOp::Ge | BinOp::Eq | BinOp::Ne => true,
        _ => !kind.is_pointer(),
    }
}

// Whether an expression keeps the rules within so many quantifiers. One more is entered only at a nesting of 64 bits.
fn may_mean_in(objects: u64, regs: u64, nesting: u128, term: &Term) -> bool
    ensures { result ≡ means_in objects regs nesting (term_view term.now) }
{
    match term {
        Term::Constant(kind, number) => kind.is_value(*number),
        Term::Register(register) => *register < regs,
        Term::Variable(depth) => (*depth as u128) < nesting,
        Term::Object(object) => *object <= objects,
        Term::Load(_, address) => may_mean_in(objects, regs, nesting, address.get()),
        Term::Convert(_, _, value) => may_mean_in(objects, regs, nesting, value.get()),
        Term::Unary(_, kind, value) => {
            !kind.is_pointer() && may_mean_in(objects, regs, nesting, value.get())
        }
        Term::Binary(op, kind, left, right) => {
            may_compute(*op, *kind)
                && may_mean_in(objects, regs, nesting, left.get())
                && may_mean_in(objects, regs, nesting, right.get())
        }
        Term::Lazy(_, left, right) => {
            may_mean_in(objects, regs, nesting, left.get())
                && may_mean_in(objects, regs, nesting, right.get())
        }
        Term::Choice(test, then, otherwise) => {
            may_mean_in(objects, regs, nesting, test.get())
                && may_mean_in(objects, regs, nesting, then.get())
                && may_mean_in(objects, regs, nesting, otherwise.get())
        }
        Term::Moved(size, pointer, count) => {
            is_size(*size)
                && may_mean_in(objects, regs, nesting, pointer.get())
                && may_mean_in(objects, regs, nesting, count.get())
        }
        Term::Distance(size, pointer, from) => {
            is_size(*size)
                && may_mean_in(objects, regs, nesting, pointer.get())
                && may_mean_in(objects, regs, nesting, from.get())
        }
        Term::Asked(_, pointer) => may_mean_in(objects, regs, nesting, pointer.get()),
        Term::Tested(_, pointer, len) => {
            may_mean_in(objects, regs, nesting, pointer.get())
                && may_mean_in(objects, regs, nesting, len.get())
        }
        Term::Between(low, pointer, high) => {
            may_mean_in(objects, regs, nesting, low.get())
                && may_mean_in(objects, regs, nesting, pointer.get())
                && may_mean_in(objects, regs, nesting, high.get())
        }
        Term::Quantified(_, depth, _, low, high, body) => {
            *depth as u128 == nesting
                && may_mean_in(objects, regs, nesting, low.get())
                && may_mean_in(objects, regs, nesting, high.get())
                && may_mean_in(objects, regs, nesting + 1, body.get())
        }
    }
}

/// Whether an expression keeps the rules, where there are that many objects and registers.
pub fn may_mean(objects: u64, regs: u64, term: &Term) -> bool
    ensures { result ≡ means objects regs (term_view term.now) }
{
    may_mean_in(objects, regs, 0, term)
}

/// Whether two expressions keep the rules.
pub fn two_mean(objects: u64, regs: u64, one: &Term, other: &Term) -> bool
    ensures { result ≡ (means objects regs (term_view one.now) && means objects regs (term_view other.now)) }
{
    may_mean(objects, regs, one) && may_mean(objects, regs, other)
}

/// Whether three expressions keep the rules.
pub fn three_mean(objects: u64, regs: u64, one: &Term, other: &Term, last: &Term) -> bool
    ensures { result ≡ (means objects regs (term_view one.now) && means objects regs (term_view other.now) && means objects regs (term_view last.now)) }
{
    may_mean(objects, regs, one) && may_mean(objects, regs, other) && may_mean(objects, regs, last)
}

/// Whether all of the expressions keep the rules.
pub fn all_mean(objects: u64, regs: u64, terms: &[Term]) -> bool
    ensures { result ≡ list_all (means objects regs) (map term_view terms.now) }
{
    for term in terms {
        if !may_mean(objects, regs, term) {
            return false;
        }
    }
    true
}

/// Whether a returned value keeps the rules.
pub fn may_give(objects: u64, regs: u64, value: &Option<Term>) -> bool
    ensures { result ≡ gives objects regs (option_map term_view value.now) }
{
    match value {
        None => true,
        Some(value) => may_mean(objects, regs, value),
    }
}
