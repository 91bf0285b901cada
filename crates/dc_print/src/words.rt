// Kinds and other words as text.
ghost use Rattle.std.specs.Prelude.{◌≡◌, ◌++◌, ◌∷◌, OnOk, map};
ghost use Rattle.std.specs.Fmt.{decimal};
ghost use Rattle.dc_goto.specs.Text.{bytes_word, kind_word, result_word, sharing_word, spaced};

use crate::decimal::put_decimal;
use dc_core::NumKind;
use dc_goto::{Bytes, Sharing};
use std::alloc::{AllocError, Global};

/// Adds the word of a kind.
pub fn put_kind(out: &mut Vec<u8>, kind: NumKind) -> Result<(), AllocError>
    ensures { OnOk result (out.new.items ≡ out.old.items ++ kind_word kind) }
{
    match kind {
        NumKind::Bool => out.extend_from_slice(b"bool"),
        NumKind::S8 => out.extend_from_slice(b"s8"),
        NumKind::U8 => out.extend_from_slice(b"u8"),
        NumKind::S16 => out.extend_from_slice(b"s16"),
        NumKind::U16 => out.extend_from_slice(b"u16"),
        NumKind::S32 => out.extend_from_slice(b"s32"),
        NumKind::U32 => out.extend_from_slice(b"u32"),
        NumKind::S64 => out.extend_from_slice(b"s64"),
        NumKind::U64 => out.extend_from_slice(b"u64"),
        NumKind::Ptr => out.extend_from_slice(b"ptr"),
    }
}

/// Adds the word of the first bytes of an object.
pub fn put_bytes(out: &mut Vec<u8>, bytes: Bytes) -> Result<(), AllocError>
    ensures { OnOk result (out.new.items ≡ out.old.items ++ bytes_word bytes) }
{
    match bytes {
        Bytes::Zero => out.extend_from_slice(b"zero"),
        Bytes::Chosen => out.extend_from_slice(b"chosen"),
    }
}

/// Adds the word that says whether two ranges may share bytes.
pub fn put_sharing(out: &mut Vec<u8>, sharing: Sharing) -> Result<(), AllocError>
    ensures { OnOk result (out.new.items ≡ out.old.items ++ sharing_word sharing) }
{
    match sharing {
        Sharing::Any => out.extend_from_slice(b"any"),
        Sharing::Apart => out.extend_from_slice(b"apart"),
    }
}

/// Adds a space and a word.
pub fn put_spaced(out: &mut Vec<u8>, word: &[u8]) -> Result<(), AllocError>
    ensures { OnOk result (out.new.items ≡ out.old.items ++ 32 ∷ word.now) }
{
    out.push(b' ')?;
    out.extend_from_slice(word)?;
    Ok(())
}

/// Adds a space and the digits of a number.
pub fn put_spaced_decimal(alloc: Global, out: &mut Vec<u8>, n: u64) -> Result<(), AllocError>
    ensures { OnOk result (out.new.items ≡ out.old.items ++ 32 ∷ decimal n) }
{
    out.push(b' ')?;
    put_decimal(alloc, out, n)?;
    Ok(())
}

/// Adds a space and the word of a kind.
pub fn put_spaced_kind(out: &mut Vec<u8>, kind: NumKind) -> Result<(), AllocError>
    ensures { OnOk result (out.new.items ≡ out.old.items ++ 32 ∷ kind_word kind) }
{
    out.push(b' ')?;
    put_kind(out, kind)?;
    Ok(())
}

/// Adds kinds, each behind a space.
pub fn put_kinds(out: &mut Vec<u8>, kinds: &[NumKind]) -> Result<(), AllocError>
    ensures { OnOk result (out.new.items ≡ out.old.items ++ spaced (map kind_word kinds.now)) }
{
    for kind in kinds {
        put_spaced_kind(out, *kind)?;
    }
    Ok(())
}

/// Adds a space and the kind of a result that a function may not have.
pub fn put_result(out: &mut Vec<u8>, kind: &Option<NumKind>) -> Result<(), AllocError>
    ensures { OnOk result (out.new.items ≡ out.old.items ++ 32 ∷ result_word kind.now) }
{
    match kind {
        None => {
            out.extend_from_slice(b" void")?;
            Ok(())
        }
        Some(kind) => {
            put_spaced_kind(out, *kind)?;
            Ok(())
        }
    }
}
