// Types.
ghost use Rattle.std.specs.Prelude.{◌≡◌, IfOk};
ghost use Rattle.dc_layout.specs.declared.ctype.CType.TheVariants.{Pointer, Array, Func, Const};

use crate::kind::LayKind;
use sqlite_items::{Boxed, Items};
use std::alloc::{AllocError, Global};

/// A type (C11 6.2.5).
#[derive(Drop)]
pub enum CType {
    /// `void`, which has no size.
    Void,
    /// A number, or the number of a pointer.
    Num(LayKind),
    /// A pointer to this type.
    Pointer(Boxed<CType>),
    /// An array of so many elements of this type.
    Array(Boxed<CType>, u64),
    /// The struct with this number in the table.
    Struct(u32),
    /// A function with this result and these parameters, which has no size.
    Func(Boxed<CType>, Items<CType>),
    /// The type, const-qualified; it is laid out as the type.
    Const(Boxed<CType>),
}

impl CType {
    /// A pointer to the type.
    pub fn pointer(alloc: Global, to: CType) -> Result<CType, AllocError>
        ensures { IfOk result (λ t. t ≡ Pointer to) }
    {
        Ok(CType::Pointer(Boxed::new(alloc, to)?))
    }

    /// An array of `count` elements of the type.
    pub fn array(alloc: Global, element: CType, count: u64) -> Result<CType, AllocError>
        ensures { IfOk result (λ t. t ≡ Array element count) }
    {
        Ok(CType::Array(Boxed::new(alloc, element)?, count))
    }

    /// A function with the result and the parameters.
    pub fn function(
        alloc: Global,
        gives: CType,
        parameters: Items<CType>,
    ) -> Result<CType, AllocError>
        ensures { IfOk result (λ t. t ≡ Func gives parameters) }
    {
        Ok(CType::Func(Boxed::new(alloc, gives)?, parameters))
    }

    /// The type, const-qualified.
    pub fn constant(alloc: Global, of: CType) -> Result<CType, AllocError>
        ensures { IfOk result (λ t. t ≡ Const of) }
    {
        Ok(CType::Const(Boxed::new(alloc, of)?))
    }

    /// A copy of the type, on memory of its own. Where there is no memory, nothing is left of it.
    #[cycle(duplicate)]
    pub fn duplicate(&self, alloc: Global) -> Result<CType, AllocError>
        ensures { IfOk result (λ copy. copy ≡ self.now) }
    {
        match self {
            CType::Void => Ok(CType::Void),
            CType::Num(kind) => Ok(CType::Num(*kind)),
            CType::Pointer(to) => Ok(CType::Pointer(boxed(alloc, to)?)),
            CType::Array(element, count) => Ok(CType::Array(boxed(alloc, element)?, *count)),
            CType::Struct(number) => Ok(CType::Struct(*number)),
            CType::Func(gives, parameters) => {
                let gives = boxed(alloc, gives)?;
                Ok(CType::Func(gives, duplicates(alloc, parameters.as_slice())?))
            }
            CType::Const(of) => Ok(CType::Const(boxed(alloc, of)?)),
        }
    }
}

// A copy of a type in a box.
#[cycle(duplicate)]
fn boxed(alloc: Global, of: &Boxed<CType>) -> Result<Boxed<CType>, AllocError>
    ensures { IfOk result (λ copy. copy ≡ of.now) }
{
    Ok(Boxed::new(alloc, of.get().duplicate(alloc)?)?)
}

/// Copies of types, in order.
#[cycle(duplicate)]
pub fn duplicates(alloc: Global, types: &[CType]) -> Result<Items<CType>, AllocError>
    ensures { IfOk result (λ copies. copies ≡ types.now) }
{
    let mut copies = Items::new(alloc);
    for one in types {
        copies.push(one.duplicate(alloc)?)?;
    }
    Ok(copies)
}
