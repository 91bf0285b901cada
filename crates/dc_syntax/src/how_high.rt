// How high the trees are that were read.
ghost use Rattle.std.specs.Prelude.{◌≡◌, suc, min, map};
ghost use Rattle.dc_syntax.specs.Heights.{capped, greatest};
ghost use Rattle.dc_syntax.specs.Trees as trees;
ghost use Rattle.dc_syntax.specs.Parts.{height_of};
ghost use Rattle.dc_syntax.specs.View.{raw_view, tag_view};
ghost use Rattle.dc_syntax.specs.UnitView.{part_view, unit_view};

use crate::raw::{Raw, Tag};
use crate::unit::{Part, Unit};
use sqlite_items::Items;

/// One more than a height.
#[tactic(auto, unfolding(crate::specs::Heights::capped))]
fn above(height: u64) -> u64
    ensures { result ≡ capped (suc height) }
{
    height.saturating_add(1)
}

/// The height of the name behind `struct` or `enum`.
#[tactic(auto, unfolding(crate::specs::Heights::capped))]
fn tag_height(tag: &Tag) -> u64
    ensures { result ≡ capped (trees.tag_height (tag_view tag.now)) }
{
    match tag {
        Tag::NoTag => 0,
        Tag::Tagged(_, _) => 1,
    }
}

/// The greatest height of trees.
#[cycle(height)]
fn highest(items: &Items<Raw>) -> u64
    ensures { result ≡ capped (greatest trees.height (map raw_view items.now)) }
{
    let mut most = 0;
    for tree in items.as_slice() {
        most = most.max(tree.height());
    }
    most
}

impl Raw {
    /// The height of what was read.
    #[cycle(height)]
    #[tactic(auto, using(crate::proofs::Heights::heights))]
    fn height(&self) -> u64
        ensures { result ≡ capped (trees.height (raw_view self.now)) }
    {
        match self {
            Raw::SpecWord(..) | Raw::Nameless => 0,
            Raw::Name(..) | Raw::Constant(..) | Raw::SpecName(..) | Raw::DeclaredName(..) => 1,
            Raw::StructTag(..) | Raw::EnumTag(..) => 1,
            Raw::Enumerator(..) => 2,
            Raw::Paren(a, _) | Raw::SizeofExpression(a, _) | Raw::SizeofType(a, _) => {
                above(a.get().height())
            }
            Raw::Wrapped(a, _) | Raw::Unsized(a, _) => above(a.get().height()),
            Raw::Member(a, _, _) | Raw::Through(a, _, _) => above(a.get().height()),
            Raw::After(_, a, _) | Raw::Before(_, a, _) | Raw::Prefix(_, a, _) => {
                above(a.get().height())
            }
            Raw::EnumeratorValue(_, a, _) | Raw::Pointer(_, a, _) => above(a.get().height()),
            Raw::Index(a, b, _) | Raw::Cast(a, b, _) => {
                above(a.get().height().max(b.get().height()))
            }
            Raw::Implies(a, b, _) | Raw::Sized(a, b, _) => {
                above(a.get().height().max(b.get().height()))
            }
            Raw::Binary(_, a, b, _) | Raw::Assign(_, a, b, _) => {
                above(a.get().height().max(b.get().height()))
            }
            Raw::Conditional(a, b, c, _) => {
                above(a.get().height().max(b.get().height().max(c.get().height())))
            }
            Raw::Quantifier(_, specs, declarator, body, _) => {
                above(highest(specs).max(declarator.get().height().max(body.get().height())))
            }
            Raw::Call(a, items, _) | Raw::Function(a, items, _) => {
                above(a.get().height().max(highest(items)))
            }
            Raw::TypeName(specs, declarator, _) | Raw::Parameter(specs, declarator, _) => {
                highest(specs).max(declarator.get().height())
            }
            Raw::StructBody(tag, members, _) => tag_height(tag).max(highest(members)),
            Raw::EnumBody(tag, first, more, _) => {
                tag_height(tag).max(first.get().height().max(highest(more)))
            }
            Raw::MemberDeclaration(specs, first, more, _) => {
                above(highest(specs).max(first.get().height().max(highest(more))))
            }
        }
    }
}

/// The greatest height of parts.
#[cycle(height_part)]
fn highest_part(items: &Items<Part>) -> u64
    ensures { result ≡ capped (greatest height_of (map part_view items.now)) }
{
    let mut most = 0;
    for part in items.as_slice() {
        most = most.max(part.height());
    }
    most
}

impl Part {
    /// The height of what was read.
    #[cycle(height_part)]
    #[tactic(auto, using(crate::proofs::Heights::part_heights))]
    fn height(&self) -> u64
        ensures { result ≡ capped (height_of (part_view self.now)) }
    {
        match self {
            Part::NoStep => 0,
            Part::Empty(_) | Part::Return(_) | Part::Break(_) | Part::Continue(_) => 1,
            Part::Single(e) | Part::Step(e) => e.get().height(),
            Part::Plain(d, _) => d.get().height(),
            Part::Initialized(d, init, _) => d.get().height().max(init.get().height()),
            Part::Braces(first, more, _) => above(first.get().height().max(highest_part(more))),
            Part::Requires(c, _) | Part::Ensures(c, _) | Part::LoopInvariant(c, _) => {
                above(c.get().height())
            }
            Part::Simple(e, _) | Part::ReturnValue(e, _) => above(e.get().height()),
            Part::Assigns(parts, _) | Part::Frees(parts, _) | Part::Block(parts, _) => {
                above(highest_part(parts))
            }
            Part::Decreases(first, more, _) => above(first.get().height().max(highest(more))),
            Part::Group(first, more, _) => first.get().height().max(highest(more)),
            Part::GroupIf(condition, first, more, _) => {
                condition
                    .get()
                    .height()
                    .max(first.get().height().max(highest(more)))
            }
            Part::If(e, a, _) | Part::Switch(e, a, _) | Part::Case(e, a, _) => {
                above(e.get().height().max(a.get().height()))
            }
            Part::IfElse(e, a, b, _) => {
                above(e.get().height().max(a.get().height().max(b.get().height())))
            }
            Part::While(e, clauses, a, _) => {
                above(
                    e.get()
                        .height()
                        .max(highest_part(clauses).max(a.get().height())),
                )
            }
            Part::Do(a, e, clauses, _) => {
                above(
                    a.get()
                        .height()
                        .max(e.get().height().max(highest_part(clauses))),
                )
            }
            Part::For(first, e, step, clauses, a, _) => {
                let body = highest_part(clauses).max(a.get().height());
                let steps = e.get().height().max(step.get().height().max(body));
                above(first.get().height().max(steps))
            }
            Part::Default(a, _) => above(a.get().height()),
            Part::FirstDeclaration(specs, first, more, _) => {
                above(highest(specs).max(first.get().height().max(highest_part(more))))
            }
            Part::Declaration(specs, declarators, _) => {
                above(highest(specs).max(highest_part(declarators)))
            }
            Part::Definition(specs, declarator, clauses, block, _) => {
                let body = highest_part(clauses).max(block.get().height());
                above(highest(specs).max(declarator.get().height().max(body)))
            }
            Part::Prototype(specs, declarator, first, more, _) => {
                let clauses = first.get().height().max(highest_part(more));
                above(highest(specs).max(declarator.get().height().max(clauses)))
            }
        }
    }
}

/// The height of a unit: that of its highest declaration or definition, and 0 where it has none.
/// It saturates: where the height is greater than 2^64 - 1, that is the answer. It takes no memory.
pub fn height(unit: &Unit) -> u64
    ensures { result ≡ min (height_of (unit_view unit.now)) 18446744073709551615 }
{
    highest_part(&unit.externals)
}
