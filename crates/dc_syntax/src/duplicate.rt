// Copies of the trees, each on memory of its own.
ghost use Rattle.std.specs.Prelude.{◌≡◌, IfOk, IsOkAnd, IsTrue};
ghost use Rattle.dc_syntax.specs.declared.raw.Raw.{out-Raw};
ghost use Rattle.dc_syntax.specs.declared.unit.Part.{out-Part};
ghost use Rattle.dc_syntax.specs.Kinds.{is_leaf, is_unary, is_compound, is_derived, is_simple, is_clause, is_control};

use crate::raw::{Raw, Tag};
use crate::unit::{Part, Unit};
use sqlite_items::{Boxed, Items};
use std::alloc::{AllocError, Global};

impl Tag {
    /// A copy of the name. Where there is no memory, nothing is left of it.
    fn duplicate(&self, alloc: Global) -> Result<Tag, AllocError>
        ensures { IfOk result (λ copy. copy ≡ self.now) }
    {
        match self {
            Tag::NoTag => Ok(Tag::NoTag),
            Tag::Tagged(name, place) => Ok(Tag::Tagged(name.duplicate(alloc)?, *place)),
        }
    }
}

// Both copies. Where there was no memory for one, nothing is left of the other.
fn both<A: Drop, B: Drop>(
    a: Result<A, AllocError>,
    b: Result<B, AllocError>,
) -> Result<(A, B), AllocError>
    ensures { IfOk result (λ copies. IsOkAnd a (λ x. x ≡ copies.0) × IsOkAnd b (λ x. x ≡ copies.1)) }
{
    Ok((a?, b?))
}

impl Raw {
    /// A copy of the tree. Where there is no memory, nothing is left of it.
    #[cycle(duplicate)]
    pub fn duplicate(&self, alloc: Global) -> Result<Raw, AllocError>
        ensures { IfOk result (λ copy. copy ≡ self.now) }
    {
        match self {
            Raw::Name(..)
            | Raw::Constant(..)
            | Raw::SpecWord(..)
            | Raw::SpecName(..)
            | Raw::StructTag(..)
            | Raw::EnumTag(..)
            | Raw::Enumerator(..)
            | Raw::Nameless
            | Raw::DeclaredName(..) => self.duplicate_leaf(alloc),
            Raw::Paren(..)
            | Raw::Member(..)
            | Raw::Through(..)
            | Raw::After(..)
            | Raw::Before(..)
            | Raw::Prefix(..)
            | Raw::SizeofExpression(..)
            | Raw::SizeofType(..) => self.duplicate_unary(alloc),
            Raw::Quantifier(..)
            | Raw::Index(..)
            | Raw::Call(..)
            | Raw::Cast(..)
            | Raw::Binary(..)
            | Raw::Implies(..)
            | Raw::Conditional(..)
            | Raw::Assign(..) => self.duplicate_compound(alloc),
            Raw::Wrapped(..)
            | Raw::Unsized(..)
            | Raw::Sized(..)
            | Raw::Function(..)
            | Raw::Pointer(..) => self.duplicate_derived(alloc),
            Raw::TypeName(specs, declarator, place) => {
                let specs = duplicates(alloc, specs.as_slice());
                let (specs, declarator) = both(specs, boxed(alloc, declarator))?;
                Ok(Raw::TypeName(specs, declarator, *place))
            }
            Raw::StructBody(tag, members, place) => {
                let members = duplicates(alloc, members.as_slice());
                let (tag, members) = both(tag.duplicate(alloc), members)?;
                Ok(Raw::StructBody(tag, members, *place))
            }
            Raw::EnumBody(tag, first, more, place) => {
                let first = both(tag.duplicate(alloc), boxed(alloc, first));
                let ((tag, first), more) = both(first, duplicates(alloc, more.as_slice()))?;
                Ok(Raw::EnumBody(tag, first, more, *place))
            }
            Raw::MemberDeclaration(specs, first, more, place) => {
                let first = both(duplicates(alloc, specs.as_slice()), boxed(alloc, first));
                let ((specs, first), more) = both(first, duplicates(alloc, more.as_slice()))?;
                Ok(Raw::MemberDeclaration(specs, first, more, *place))
            }
            Raw::EnumeratorValue(name, value, place) => {
                let (name, value) = both(name.duplicate(alloc), boxed(alloc, value))?;
                Ok(Raw::EnumeratorValue(name, value, *place))
            }
            Raw::Parameter(specs, declarator, place) => {
                let specs = duplicates(alloc, specs.as_slice());
                let (specs, declarator) = both(specs, boxed(alloc, declarator))?;
                Ok(Raw::Parameter(specs, declarator, *place))
            }
        }
    }

    /// A copy of a tree that has no tree in it.
    fn duplicate_leaf(&self, alloc: Global) -> Result<Raw, AllocError>
        requires { IsTrue (is_leaf (out-Raw self.now)) }
        ensures { IfOk result (λ copy. copy ≡ self.now) }
    {
        match self {
            Raw::Name(name, place) => Ok(Raw::Name(name.duplicate(alloc)?, *place)),
            Raw::Constant(name, place) => Ok(Raw::Constant(name.duplicate(alloc)?, *place)),
            Raw::SpecWord(keyword, place) => Ok(Raw::SpecWord(*keyword, *place)),
            Raw::SpecName(name, place) => Ok(Raw::SpecName(name.duplicate(alloc)?, *place)),
            Raw::StructTag(name, place) => Ok(Raw::StructTag(name.duplicate(alloc)?, *place)),
            Raw::EnumTag(name, place) => Ok(Raw::EnumTag(name.duplicate(alloc)?, *place)),
            Raw::Enumerator(name, place) => Ok(Raw::Enumerator(name.duplicate(alloc)?, *place)),
            Raw::Nameless => Ok(Raw::Nameless),
            Raw::DeclaredName(name, place) => Ok(Raw::DeclaredName(name.duplicate(alloc)?, *place)),
            _ => unreachable!(),
        }
    }

    /// A copy of an expression with one tree in it.
    #[cycle(duplicate)]
    fn duplicate_unary(&self, alloc: Global) -> Result<Raw, AllocError>
        requires { IsTrue (is_unary (out-Raw self.now)) }
        ensures { IfOk result (λ copy. copy ≡ self.now) }
    {
        match self {
            Raw::Paren(a, place) => Ok(Raw::Paren(boxed(alloc, a)?, *place)),
            Raw::Member(a, name, place) => {
                let (a, name) = both(boxed(alloc, a), name.duplicate(alloc))?;
                Ok(Raw::Member(a, name, *place))
            }
            Raw::Through(a, name, place) => {
                let (a, name) = both(boxed(alloc, a), name.duplicate(alloc))?;
                Ok(Raw::Through(a, name, *place))
            }
            Raw::After(mark, a, place) => Ok(Raw::After(*mark, boxed(alloc, a)?, *place)),
            Raw::Before(mark, a, place) => Ok(Raw::Before(*mark, boxed(alloc, a)?, *place)),
            Raw::Prefix(mark, a, place) => Ok(Raw::Prefix(*mark, boxed(alloc, a)?, *place)),
            Raw::SizeofExpression(a, place) => Ok(Raw::SizeofExpression(boxed(alloc, a)?, *place)),
            Raw::SizeofType(a, place) => Ok(Raw::SizeofType(boxed(alloc, a)?, *place)),
            _ => unreachable!(),
        }
    }

    /// A copy of an expression with several trees in it.
    #[cycle(duplicate)]
    fn duplicate_compound(&self, alloc: Global) -> Result<Raw, AllocError>
        requires { IsTrue (is_compound (out-Raw self.now)) }
        ensures { IfOk result (λ copy. copy ≡ self.now) }
    {
        match self {
            Raw::Quantifier(keyword, specs, declarator, body, place) => {
                let head = both(
                    duplicates(alloc, specs.as_slice()),
                    boxed(alloc, declarator),
                );
                let ((specs, declarator), body) = both(head, boxed(alloc, body))?;
                Ok(Raw::Quantifier(*keyword, specs, declarator, body, *place))
            }
            Raw::Index(a, at, place) => {
                let (a, at) = both(boxed(alloc, a), boxed(alloc, at))?;
                Ok(Raw::Index(a, at, *place))
            }
            Raw::Call(function, arguments, place) => {
                let arguments = duplicates(alloc, arguments.as_slice());
                let (function, arguments) = both(boxed(alloc, function), arguments)?;
                Ok(Raw::Call(function, arguments, *place))
            }
            Raw::Cast(type_name, a, place) => {
                let (type_name, a) = both(boxed(alloc, type_name), boxed(alloc, a))?;
                Ok(Raw::Cast(type_name, a, *place))
            }
            Raw::Binary(mark, a, b, place) => {
                let (a, b) = both(boxed(alloc, a), boxed(alloc, b))?;
                Ok(Raw::Binary(*mark, a, b, *place))
            }
            Raw::Implies(a, b, place) => {
                let (a, b) = both(boxed(alloc, a), boxed(alloc, b))?;
                Ok(Raw::Implies(a, b, *place))
            }
            Raw::Conditional(test, a, b, place) => {
                let head = both(boxed(alloc, test), boxed(alloc, a));
                let ((test, a), b) = both(head, boxed(alloc, b))?;
                Ok(Raw::Conditional(test, a, b, *place))
            }
            Raw::Assign(mark, a, b, place) => {
                let (a, b) = both(boxed(alloc, a), boxed(alloc, b))?;
                Ok(Raw::Assign(*mark, a, b, *place))
            }
            _ => unreachable!(),
        }
    }

    /// A copy of a declarator with a tree in it.
    #[cycle(duplicate)]
    fn duplicate_derived(&self, alloc: Global) -> Result<Raw, AllocError>
        requires { IsTrue (is_derived (out-Raw self.now)) }
        ensures { IfOk result (λ copy. copy ≡ self.now) }
    {
        match self {
            Raw::Wrapped(inner, place) => Ok(Raw::Wrapped(boxed(alloc, inner)?, *place)),
            Raw::Unsized(inner, place) => Ok(Raw::Unsized(boxed(alloc, inner)?, *place)),
            Raw::Sized(inner, length, place) => {
                let (inner, length) = both(boxed(alloc, inner), boxed(alloc, length))?;
                Ok(Raw::Sized(inner, length, *place))
            }
            Raw::Function(inner, parameters, place) => {
                let parameters = duplicates(alloc, parameters.as_slice());
                let (inner, parameters) = both(boxed(alloc, inner), parameters)?;
                Ok(Raw::Function(inner, parameters, *place))
            }
            Raw::Pointer(qualifiers, inner, place) => {
                let qualifiers = Items::from_slice(alloc, qualifiers.as_slice());
                let (qualifiers, inner) = both(qualifiers, boxed(alloc, inner))?;
                Ok(Raw::Pointer(qualifiers, inner, *place))
            }
            _ => unreachable!(),
        }
    }
}

/// A copy of a tree in a box.
#[cycle(duplicate)]
fn boxed(alloc: Global, tree: &Boxed<Raw>) -> Result<Boxed<Raw>, AllocError>
    ensures { IfOk result (λ copy. copy ≡ tree.now) }
{
    Boxed::new(alloc, tree.get().duplicate(alloc)?)
}

/// Copies of the trees, in order.
#[cycle(duplicate)]
fn duplicates(alloc: Global, trees: &[Raw]) -> Result<Items<Raw>, AllocError>
    ensures { IfOk result (λ copies. copies ≡ trees.now) }
{
    let mut copies = Items::new(alloc);
    for tree in trees {
        copies.push(tree.duplicate(alloc)?)?;
    }
    Ok(copies)
}

impl Part {
    /// A copy of the part. Where there is no memory, nothing is left of it.
    #[cycle(duplicate_part)]
    pub fn duplicate(&self, alloc: Global) -> Result<Part, AllocError>
        ensures { IfOk result (λ copy. copy ≡ self.now) }
    {
        match self {
            Part::Single(..)
            | Part::Plain(..)
            | Part::Empty(..)
            | Part::Simple(..)
            | Part::Return(..)
            | Part::ReturnValue(..)
            | Part::Break(..)
            | Part::Continue(..)
            | Part::NoStep
            | Part::Step(..) => self.duplicate_simple(alloc),
            Part::Requires(..)
            | Part::Ensures(..)
            | Part::LoopInvariant(..)
            | Part::Decreases(..)
            | Part::Group(..)
            | Part::GroupIf(..) => self.duplicate_clause(alloc),
            Part::If(..)
            | Part::IfElse(..)
            | Part::While(..)
            | Part::Do(..)
            | Part::For(..)
            | Part::Switch(..)
            | Part::Case(..)
            | Part::Default(..) => self.duplicate_control(alloc),
            Part::Braces(first, more, place) => {
                let more = duplicate_parts(alloc, more.as_slice());
                let (first, more) = both(boxed_part(alloc, first), more)?;
                Ok(Part::Braces(first, more, *place))
            }
            Part::Initialized(declarator, initializer, place) => {
                let initializer = boxed_part(alloc, initializer);
                let (declarator, initializer) = both(boxed(alloc, declarator), initializer)?;
                Ok(Part::Initialized(declarator, initializer, *place))
            }
            Part::Assigns(groups, place) => {
                Ok(Part::Assigns(duplicate_parts(alloc, groups.as_slice())?, *place))
            }
            Part::Frees(groups, place) => {
                Ok(Part::Frees(duplicate_parts(alloc, groups.as_slice())?, *place))
            }
            Part::Block(items, place) => {
                Ok(Part::Block(duplicate_parts(alloc, items.as_slice())?, *place))
            }
            Part::FirstDeclaration(specs, first, more, place) => {
                let first = both(
                    duplicates(alloc, specs.as_slice()),
                    boxed_part(alloc, first),
                );
                let more = duplicate_parts(alloc, more.as_slice());
                let ((specs, first), more) = both(first, more)?;
                Ok(Part::FirstDeclaration(specs, first, more, *place))
            }
            Part::Declaration(specs, declarators, place) => {
                let declarators = duplicate_parts(alloc, declarators.as_slice());
                let (specs, declarators) = both(duplicates(alloc, specs.as_slice()), declarators)?;
                Ok(Part::Declaration(specs, declarators, *place))
            }
            Part::Definition(specs, declarator, clauses, block, place) => {
                let head = both(
                    duplicates(alloc, specs.as_slice()),
                    boxed(alloc, declarator),
                );
                let clauses = duplicate_parts(alloc, clauses.as_slice());
                let body = both(clauses, boxed_part(alloc, block));
                let ((specs, declarator), (clauses, block)) = both(head, body)?;
                Ok(Part::Definition(specs, declarator, clauses, block, *place))
            }
            Part::Prototype(specs, declarator, first, more, place) => {
                let head = both(
                    duplicates(alloc, specs.as_slice()),
                    boxed(alloc, declarator),
                );
                let more = duplicate_parts(alloc, more.as_slice());
                let clauses = both(boxed_part(alloc, first), more);
                let ((specs, declarator), (first, more)) = both(head, clauses)?;
                Ok(Part::Prototype(specs, declarator, first, more, *place))
            }
        }
    }

    /// A copy of what has no part in it, and is no clause.
    fn duplicate_simple(&self, alloc: Global) -> Result<Part, AllocError>
        requires { IsTrue (is_simple (out-Part self.now)) }
        ensures { IfOk result (λ copy. copy ≡ self.now) }
    {
        match self {
            Part::Single(value) => Ok(Part::Single(boxed(alloc, value)?)),
            Part::Plain(declarator, place) => Ok(Part::Plain(boxed(alloc, declarator)?, *place)),
            Part::Empty(place) => Ok(Part::Empty(*place)),
            Part::Simple(value, place) => Ok(Part::Simple(boxed(alloc, value)?, *place)),
            Part::Return(place) => Ok(Part::Return(*place)),
            Part::ReturnValue(value, place) => Ok(Part::ReturnValue(boxed(alloc, value)?, *place)),
            Part::Break(place) => Ok(Part::Break(*place)),
            Part::Continue(place) => Ok(Part::Continue(*place)),
            Part::NoStep => Ok(Part::NoStep),
            Part::Step(value) => Ok(Part::Step(boxed(alloc, value)?)),
            _ => unreachable!(),
        }
    }

    /// A copy of a clause or a group without a part in it.
    fn duplicate_clause(&self, alloc: Global) -> Result<Part, AllocError>
        requires { IsTrue (is_clause (out-Part self.now)) }
        ensures { IfOk result (λ copy. copy ≡ self.now) }
    {
        match self {
            Part::Requires(test, place) => Ok(Part::Requires(boxed(alloc, test)?, *place)),
            Part::Ensures(test, place) => Ok(Part::Ensures(boxed(alloc, test)?, *place)),
            Part::LoopInvariant(test, place) => Ok(Part::LoopInvariant(
                boxed(alloc, test)?,
                *place,
            )),
            Part::Decreases(first, more, place) => {
                let more = duplicates(alloc, more.as_slice());
                let (first, more) = both(boxed(alloc, first), more)?;
                Ok(Part::Decreases(first, more, *place))
            }
            Part::Group(first, more, place) => {
                let more = duplicates(alloc, more.as_slice());
                let (first, more) = both(boxed(alloc, first), more)?;
                Ok(Part::Group(first, more, *place))
            }
            Part::GroupIf(test, first, more, place) => {
                let first = both(boxed(alloc, test), boxed(alloc, first));
                let ((test, first), more) = both(first, duplicates(alloc, more.as_slice()))?;
                Ok(Part::GroupIf(test, first, more, *place))
            }
            _ => unreachable!(),
        }
    }

    /// A copy of a statement that says which statements in it run.
    #[cycle(duplicate_part)]
    fn duplicate_control(&self, alloc: Global) -> Result<Part, AllocError>
        requires { IsTrue (is_control (out-Part self.now)) }
        ensures { IfOk result (λ copy. copy ≡ self.now) }
    {
        match self {
            Part::If(test, then, place) => {
                let (test, then) = both(boxed(alloc, test), boxed_part(alloc, then))?;
                Ok(Part::If(test, then, *place))
            }
            Part::IfElse(test, then, otherwise, place) => {
                let head = both(boxed(alloc, test), boxed_part(alloc, then));
                let ((test, then), otherwise) = both(head, boxed_part(alloc, otherwise))?;
                Ok(Part::IfElse(test, then, otherwise, *place))
            }
            Part::While(test, clauses, body, place) => {
                let clauses = duplicate_parts(alloc, clauses.as_slice());
                let head = both(boxed(alloc, test), clauses);
                let ((test, clauses), body) = both(head, boxed_part(alloc, body))?;
                Ok(Part::While(test, clauses, body, *place))
            }
            Part::Do(body, test, clauses, place) => {
                let head = both(boxed_part(alloc, body), boxed(alloc, test));
                let clauses = duplicate_parts(alloc, clauses.as_slice());
                let ((body, test), clauses) = both(head, clauses)?;
                Ok(Part::Do(body, test, clauses, *place))
            }
            Part::For(first, test, step, clauses, body, place) => {
                let head = both(boxed_part(alloc, first), boxed_part(alloc, test));
                let head = both(head, boxed_part(alloc, step));
                let clauses = duplicate_parts(alloc, clauses.as_slice());
                let tail = both(clauses, boxed_part(alloc, body));
                let (((first, test), step), (clauses, body)) = both(head, tail)?;
                Ok(Part::For(first, test, step, clauses, body, *place))
            }
            Part::Switch(value, body, place) => {
                let (value, body) = both(boxed(alloc, value), boxed_part(alloc, body))?;
                Ok(Part::Switch(value, body, *place))
            }
            Part::Case(value, body, place) => {
                let (value, body) = both(boxed(alloc, value), boxed_part(alloc, body))?;
                Ok(Part::Case(value, body, *place))
            }
            Part::Default(body, place) => Ok(Part::Default(boxed_part(alloc, body)?, *place)),
            _ => unreachable!(),
        }
    }
}

/// A copy of a part in a box.
#[cycle(duplicate_part)]
fn boxed_part(alloc: Global, part: &Boxed<Part>) -> Result<Boxed<Part>, AllocError>
    ensures { IfOk result (λ copy. copy ≡ part.now) }
{
    Boxed::new(alloc, part.get().duplicate(alloc)?)
}

/// Copies of the parts, in order.
#[cycle(duplicate_part)]
fn duplicate_parts(alloc: Global, parts: &[Part]) -> Result<Items<Part>, AllocError>
    ensures { IfOk result (λ copies. copies ≡ parts.now) }
{
    let mut copies = Items::new(alloc);
    for part in parts {
        copies.push(part.duplicate(alloc)?)?;
    }
    Ok(copies)
}

impl Unit {
    /// A copy of the unit. Where there is no memory, nothing is left of it.
    pub fn duplicate(&self, alloc: Global) -> Result<Unit, AllocError>
        ensures { IfOk result (λ copy. copy ≡ self.now) }
    {
        Ok(Unit {
            externals: duplicate_parts(alloc, self.externals.as_slice())?,
        })
    }
}
