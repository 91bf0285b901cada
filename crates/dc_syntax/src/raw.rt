// The trees of expressions, with type-names, specs and declarators.
use crate::keyword::Keyword;
use crate::mark::Mark;
use crate::place::Place;
use dc_text::Name;
use sqlite_items::{Boxed, Items};

/// The name behind `struct` or `enum`, if there is one.
#[derive(Drop)]
pub enum Tag {
    NoTag,
    Tagged(Name, Place),
}

/// What was read: a variant for each alternative of the grammar, with its parts and its place. Specs have at least one spec.
#[derive(Drop)]
pub enum Raw {
    /// A name.
    Name(Name, Place),
    /// A literal, with its bytes in the source.
    Constant(Name, Place),
    /// `( e )`
    Paren(Boxed<Raw>, Place),
    /// `__CPROVER_forall { specs declarator ; e }`, or `__CPROVER_exists`
    Quantifier(Keyword, Items<Raw>, Boxed<Raw>, Boxed<Raw>, Place),
    /// `a [ i ]`
    Index(Boxed<Raw>, Boxed<Raw>, Place),
    /// `f ( a , b )`
    Call(Boxed<Raw>, Items<Raw>, Place),
    /// `a . n`
    Member(Boxed<Raw>, Name, Place),
    /// `a -> n`
    Through(Boxed<Raw>, Name, Place),
    /// `a ++` or `a --`
    After(Mark, Boxed<Raw>, Place),
    /// `++ a` or `-- a`
    Before(Mark, Boxed<Raw>, Place),
    /// `& a`, `* a`, `+ a`, `- a`, `~ a` or `! a`
    Prefix(Mark, Boxed<Raw>, Place),
    /// `sizeof a`
    SizeofExpression(Boxed<Raw>, Place),
    /// `sizeof ( T )`
    SizeofType(Boxed<Raw>, Place),
    /// `( T ) a`
    Cast(Boxed<Raw>, Boxed<Raw>, Place),
    /// Two operands, with a binary operator of C between them.
    Binary(Mark, Boxed<Raw>, Boxed<Raw>, Place),
    /// `a ==> b`
    Implies(Boxed<Raw>, Boxed<Raw>, Place),
    /// `a ? b : c`
    Conditional(Boxed<Raw>, Boxed<Raw>, Boxed<Raw>, Place),
    /// `a = b`, or with another assignment operator
    Assign(Mark, Boxed<Raw>, Boxed<Raw>, Place),
    /// A type-name: specs, and a declarator without a name.
    TypeName(Items<Raw>, Boxed<Raw>, Place),
    /// A keyword that is a spec.
    SpecWord(Keyword, Place),
    /// A typedef's name.
    SpecName(Name, Place),
    /// `struct t { members }`
    StructBody(Tag, Items<Raw>, Place),
    /// `struct t`
    StructTag(Name, Place),
    /// `enum t { e , .. }`: the first enumerator, and those after it
    EnumBody(Tag, Boxed<Raw>, Items<Raw>, Place),
    /// `enum t`
    EnumTag(Name, Place),
    /// `specs d , .. ;` in a struct: the first declarator, and those after it
    MemberDeclaration(Items<Raw>, Boxed<Raw>, Items<Raw>, Place),
    /// An enumerator.
    Enumerator(Name, Place),
    /// `n = c` in an enum
    EnumeratorValue(Name, Boxed<Raw>, Place),
    /// A declarator that has no token.
    Nameless,
    /// The name that is declared.
    DeclaredName(Name, Place),
    /// `( d )`
    Wrapped(Boxed<Raw>, Place),
    /// `d [ ]`
    Unsized(Boxed<Raw>, Place),
    /// `d [ c ]`
    Sized(Boxed<Raw>, Boxed<Raw>, Place),
    /// `d ( p , .. )`
    Function(Boxed<Raw>, Items<Raw>, Place),
    /// `* d`, with qualifiers behind the star
    Pointer(Items<Keyword>, Boxed<Raw>, Place),
    /// A parameter: specs, and a declarator.
    Parameter(Items<Raw>, Boxed<Raw>, Place),
}
