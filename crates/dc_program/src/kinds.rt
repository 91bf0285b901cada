// Kinds of numbers as layouts, arithmetic and memory name them.
ghost use Rattle.std.specs.Prelude.{◌≡◌};
ghost use Rattle.dc_program.specs.Kinds.{num_kind as num_kind_of, lay_kind as lay_kind_of, mem_kind as mem_kind_of};

use dc_layout::LayKind;
use dc_memory::MemKind;
use dc_num::NumKind;

/// The kind of arithmetic that has the name of this kind of layouts.
pub fn num_kind(kind: LayKind) -> NumKind
    ensures { result ≡ num_kind_of kind }
{
    match kind {
        LayKind::Bool => NumKind::Bool,
        LayKind::S8 => NumKind::S8,
        LayKind::U8 => NumKind::U8,
        LayKind::S16 => NumKind::S16,
        LayKind::U16 => NumKind::U16,
        LayKind::S32 => NumKind::S32,
        LayKind::U32 => NumKind::U32,
        LayKind::S64 => NumKind::S64,
        LayKind::U64 => NumKind::U64,
        LayKind::Ptr => NumKind::Ptr,
    }
}

/// The kind of layouts that has the name of this kind of arithmetic.
pub fn lay_kind(kind: NumKind) -> LayKind
    ensures { result ≡ lay_kind_of kind }
{
    match kind {
        NumKind::Bool => LayKind::Bool,
        NumKind::S8 => LayKind::S8,
        NumKind::U8 => LayKind::U8,
        NumKind::S16 => LayKind::S16,
        NumKind::U16 => LayKind::U16,
        NumKind::S32 => LayKind::S32,
        NumKind::U32 => LayKind::U32,
        NumKind::S64 => LayKind::S64,
        NumKind::U64 => LayKind::U64,
        NumKind::Ptr => LayKind::Ptr,
    }
}

/// The kind of values in memory that has the name of this kind of arithmetic.
pub fn mem_kind(kind: NumKind) -> MemKind
    ensures { result ≡ mem_kind_of kind }
{
    match kind {
        NumKind::Bool => MemKind::Bool,
        NumKind::S8 => MemKind::S8,
        NumKind::U8 => MemKind::U8,
        NumKind::S16 => MemKind::S16,
        NumKind::U16 => MemKind::U16,
        NumKind::S32 => MemKind::S32,
        NumKind::U32 => MemKind::U32,
        NumKind::S64 => MemKind::S64,
        NumKind::U64 => MemKind::U64,
        NumKind::Ptr => MemKind::Ptr,
    }
}
