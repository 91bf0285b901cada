// A goto program.
use crate::operands::{Bytes, Sharing};
use dc_core::{Name, NumKind, Term};
use sqlite_items::Items;

/// One instruction. Registers are named by their numbers, places by the numbers of instructions in the body, and an address, a
/// length or a value is an expression.
#[derive(Drop)]
pub enum Instr {
    /// The register takes the value; without one the run is undefined.
    Set(u64, Term),
    /// The register takes the value, or none.
    Keep(u64, Term),
    /// Draws a value of a kind into the register.
    Draw(u64, NumKind),
    /// Writes a value of the kind at an address.
    Store(NumKind, Term, Term),
    /// Writes likewise, and is no event.
    Init(NumKind, Term, Term),
    /// Writes so many bytes at the first address, of those at the second.
    Copy(Term, Term, Term),
    /// Writes a byte at an address, so often.
    Fill(Term, Term, Term),
    /// The run is undefined where so many bytes at two addresses can't be copied from one to the other.
    Probe(Sharing, Term, Term, Term),
    /// A stack object of so many bytes, its start in the register.
    Local(u64, u64, Bytes),
    /// The locals of the body beyond the first so many die, newest first.
    Kill(u64),
    /// A heap object of as many bytes as the product, or none, its start or null in the register.
    Alloc(u64, Term, Term, Bytes),
    /// A heap object dies, and is noted as freed.
    Free(Term),
    /// The run is undefined.
    Trap,
    /// The instruction at the place is next.
    Goto(u64),
    /// The instruction at the place is next where the value is 0.
    IfNot(Term, u64),
    /// A call of a function with arguments, its result into a register if one is given.
    Call(Option<u64>, Name, Items<Term>),
    /// A call of the function that a pointer is, which has a result of this kind, if any, and parameters of these.
    CallThrough(Option<u64>, Term, Option<NumKind>, Items<NumKind>, Items<Term>),
    /// Back to the caller, with a value or none.
    Return(Option<Term>),
    /// Fails the name where the value is 0; without one the run is undefined.
    Assert(Name, Term),
    /// Fails the name where the value is 0 or there is none.
    Check(Name, Term),
    /// Blocks the run where the value is 0; without one it is undefined.
    Assume(Term),
    /// Blocks the run where the value is 0 or there is none.
    Require(Term),
    /// A new innermost write set.
    Push,
    /// Away with the innermost set.
    Pop,
    /// Adds a range with a tag to the innermost set: a condition, an address, a length.
    Range(u64, Term, Term, Term),
    /// Adds an object that may be freed with a tag to the innermost set: a condition, a pointer.
    Target(u64, Term, Term),
    /// Fails the name where a write of that length at the address isn't allowed.
    Covers(Name, Term, Term),
    /// Fails the name where a free of the pointer isn't allowed.
    MayFree(Name, Term),
    /// Fails the name where what has the tag in the innermost set isn't inside the next.
    Inside(Name, u64),
    /// Empties the list of seen objects.
    Seen,
    /// Draws the bytes of the innermost set's ranges.
    Havoc,
    /// Draws which objects of the innermost set that may be freed die.
    Frees,
    /// Draws the bytes of all variables of file scope.
    Statics,
    /// Draws the outside objects.
    OutsideObjects,
    /// Draws the new objects of a replaced call or a contract loop.
    NewObjects,
}

/// A function: its name, the kind of its result if it has one, and the kinds of its parameters.
#[derive(Drop)]
pub struct Sig {
    pub name: Name,
    pub result: Option<NumKind>,
    pub params: Items<NumKind>,
}

/// A variable of file scope, and its size in bytes.
#[derive(Drop)]
pub struct StaticVar {
    pub name: Name,
    pub size: u64,
}

/// The code of a function, or of the start: the numbers of its parameters and of its registers, and its instructions.
#[derive(Drop)]
pub struct Body {
    pub name: Name,
    pub params: u64,
    pub regs: u64,
    pub code: Items<Instr>,
}

/// Functions, variables, and the bodies, the start's last.
#[derive(Drop)]
pub struct GotoProgram {
    pub functions: Items<Sig>,
    pub statics: Items<StaticVar>,
    pub bodies: Items<Body>,
}
