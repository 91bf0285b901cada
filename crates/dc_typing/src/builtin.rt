// The functions that are built in.
ghost use Rattle.std.specs.Prelude.{◌≡◌};
ghost use Rattle.dc_typing.specs.Known.{builtin_named};

use dc_text::Name;

/// A function that is built in (C11 7.2, 7.22.3, 7.24).
#[derive(Clone, Copy, Debug, PartialEq, Eq)]
pub enum Builtin {
    Malloc,
    Calloc,
    Free,
    Memset,
    Memcpy,
    Memmove,
    Assert,
}

impl Builtin {
    /// The built-in function of this name.
    pub fn named(name: &Name) -> Option<Builtin>
        ensures { result ≡ builtin_named name.now }
    {
        if name.is(b"malloc") {
            Some(Builtin::Malloc)
        } else if name.is(b"calloc") {
            Some(Builtin::Calloc)
        } else if name.is(b"free") {
            Some(Builtin::Free)
        } else if name.is(b"memset") {
            Some(Builtin::Memset)
        } else if name.is(b"memcpy") {
            Some(Builtin::Memcpy)
        } else if name.is(b"memmove") {
            Some(Builtin::Memmove)
        } else if name.is(b"assert") {
            Some(Builtin::Assert)
        } else {
            None
        }
    }
}
