// The words that a source may not declare as names.
ghost use Rattle.std.specs.Prelude.{◌≡◌, ◌<◌, ℕ, length, map};
ghost use Rattle.std.specs.List.{list_any};
ghost use Rattle.dc_text.specs.Reserved.{is_reserved, reserved};
ghost use Rattle.dc_text.specs.Words.{same};

// The keywords of C11, the predefined types and constants, and the built-in functions.
const RESERVED: [&str; 96] = [
    "auto",
    "break",
    "case",
    "char",
    "const",
    "continue",
    "default",
    "do",
    "double",
    "else",
    "enum",
    "extern",
    "float",
    "for",
    "goto",
    "if",
    "inline",
    "int",
    "long",
    "register",
    "restrict",
    "return",
    "short",
    "signed",
    "sizeof",
    "static",
    "struct",
    "switch",
    "typedef",
    "union",
    "unsigned",
    "void",
    "volatile",
    "while",
    "_Alignas",
    "_Alignof",
    "_Atomic",
    "_Bool",
    "_Complex",
    "_Generic",
    "_Imaginary",
    "_Noreturn",
    "_Static_assert",
    "_Thread_local",
    "bool",
    "size_t",
    "ptrdiff_t",
    "int8_t",
    "int16_t",
    "int32_t",
    "int64_t",
    "uint8_t",
    "uint16_t",
    "uint32_t",
    "uint64_t",
    "true",
    "false",
    "NULL",
    "CHAR_BIT",
    "SCHAR_MIN",
    "SCHAR_MAX",
    "UCHAR_MAX",
    "CHAR_MIN",
    "CHAR_MAX",
    "SHRT_MIN",
    "SHRT_MAX",
    "USHRT_MAX",
    "INT_MIN",
    "INT_MAX",
    "UINT_MAX",
    "LONG_MIN",
    "LONG_MAX",
    "ULONG_MAX",
    "LLONG_MIN",
    "LLONG_MAX",
    "ULLONG_MAX",
    "SIZE_MAX",
    "INT8_MIN",
    "INT8_MAX",
    "UINT8_MAX",
    "INT16_MIN",
    "INT16_MAX",
    "UINT16_MAX",
    "INT32_MIN",
    "INT32_MAX",
    "UINT32_MAX",
    "INT64_MIN",
    "INT64_MAX",
    "UINT64_MAX",
    "malloc",
    "calloc",
    "free",
    "memset",
    "memcpy",
    "memmove",
    "assert",
];

// Whether one of the words has these bytes.
fn has_word(words: &[&str], bytes: &[u8]) -> bool
    ensures { result ≡ list_any (same bytes.now) (map (λ word. word.now) words.now) }
{
    for word in words {
        if bytes == word.as_bytes() {
            return true;
        }
    }
    false
}

// Whether the bytes are a word of the table.
#[tactic(auto, unfolding(crate::specs::Reserved::reserved))]
fn is_in_table(bytes: &[u8]) -> bool
    ensures { result ≡ list_any (same bytes.now) reserved }
{
    has_word(&RESERVED, bytes)
}

/// Whether the bytes are a word that C or this program has a meaning for, so that a source may not declare it: a keyword
/// of C11, a predefined type or constant, a built-in function, or a word that begins with `__CPROVER_`.
pub fn is_reserved_word(bytes: &[u8]) -> bool
    ensures { result ≡ is_reserved bytes.now }
{
    bytes.starts_with(b"__CPROVER_") || is_in_table(bytes)
}
