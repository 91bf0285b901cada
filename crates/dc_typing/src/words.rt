// The words of specs.
ghost use Rattle.std.specs.Prelude.{◌≡◌, map};
ghost use Rattle.dc_layout.specs.Types.{type_view};
ghost use Rattle.std.specs.Option.{option_map};
ghost use Rattle.dc_syntax.specs.View.{raw_view};
ghost use Rattle.dc_typing.specs.TypeNames as spec;

use dc_layout::CType;
use dc_num::NumKind;
use dc_rules::number;
use dc_syntax::{Keyword, Raw};

/// How often each word of types stands among specs, and each of storage.
#[derive(Clone, Copy, Debug)]
pub struct Words {
    pub voids: usize,
    pub bools: usize,
    pub chars: usize,
    pub shorts: usize,
    pub ints: usize,
    pub longs: usize,
    pub signeds: usize,
    pub unsigneds: usize,
    pub typedefs: usize,
    pub externs: usize,
    pub statics: usize,
    pub inlines: usize,
}

// Whether the spec is this keyword.
fn is_keyword(word: Keyword, raw: &Raw) -> bool
    ensures { result ≡ spec.is_keyword word (raw_view raw.now) }
{
    match raw {
        Raw::SpecWord(other, _) => *other == word,
        _ => false,
    }
}

/// How often a keyword stands among specs.
pub fn how_often(word: Keyword, specs: &[Raw]) -> usize
    ensures { result ≡ spec.how_often word (map raw_view specs.now) }
{
    specs.iter().filter(|raw| is_keyword(word, *raw)).count()
}

/// How often each word of types stands among specs, and each of storage.
pub fn words_of(specs: &[Raw]) -> Words
    ensures { result ≡ spec.words_of (map raw_view specs.now) }
{
    Words {
        voids: how_often(Keyword::Void, specs),
        bools: how_often(Keyword::Boolean, specs),
        chars: how_often(Keyword::Char, specs),
        shorts: how_often(Keyword::Short, specs),
        ints: how_often(Keyword::Int, specs),
        longs: how_often(Keyword::Long, specs),
        signeds: how_often(Keyword::Signed, specs),
        unsigneds: how_often(Keyword::Unsigned, specs),
        typedefs: how_often(Keyword::Typedef, specs),
        externs: how_often(Keyword::Extern, specs),
        statics: how_often(Keyword::Static, specs),
        inlines: how_often(Keyword::Inline, specs),
    }
}

impl Words {
    /// Whether at most one of typedef, extern, static and inline stands there; inline beside extern or static counts as one.
    pub fn is_one_storage(&self) -> bool
        ensures { result ≡ spec.is_one_storage self.now }
    {
        if self.typedefs == 0 {
            let is_one = self.externs == 0 && self.statics <= 1
                || self.externs == 1 && self.statics == 0;
            is_one && self.inlines <= 1
        } else {
            self.typedefs == 1 && self.externs == 0 && self.statics == 0 && self.inlines == 0
        }
    }

    // Whether no word stands there that makes a type by itself.
    fn has_no_size_word(&self) -> bool
        ensures { result ≡ spec.has_no_size_word self.now }
    {
        self.voids == 0 && self.bools == 0 && self.chars == 0 && self.shorts == 0 && self.longs == 0
    }

    // Whether signed and unsigned stand there once at most, and not both.
    fn is_one_sign(&self) -> bool
        ensures { result ≡ spec.is_one_sign self.now }
    {
        self.unsigneds == 0 && self.signeds <= 1 || self.unsigneds == 1 && self.signeds == 0
    }

    fn has_no_sign(&self) -> bool
        ensures { result ≡ spec.has_no_sign self.now }
    {
        self.signeds == 0 && self.unsigneds == 0
    }

    /// Whether no word of a type stands there.
    pub fn is_wordless(&self) -> bool
        ensures { result ≡ spec.is_wordless self.now }
    {
        self.has_no_size_word() && self.ints == 0 && self.has_no_sign()
    }

    // Whether neither int nor a sign stands there.
    fn is_bare(&self) -> bool
        ensures { result ≡ spec.is_bare self.now }
    {
        self.ints == 0 && self.has_no_sign()
    }

    // `void`, or `_Bool`, alone
    fn is_void(&self) -> bool
        ensures { result ≡ spec.is_void_alone self.now }
    {
        self.voids == 1
            && self.bools == 0
            && self.chars == 0
            && self.shorts == 0
            && self.longs == 0
            && self.is_bare()
    }

    fn is_bool(&self) -> bool
        ensures { result ≡ spec.is_bool_alone self.now }
    {
        self.voids == 0
            && self.bools == 1
            && self.chars == 0
            && self.shorts == 0
            && self.longs == 0
            && self.is_bare()
    }

    // `char` with a sign or none
    fn is_char(&self) -> bool
        ensures { result ≡ spec.is_char self.now }
    {
        self.voids == 0
            && self.bools == 0
            && self.chars == 1
            && self.shorts == 0
            && self.longs == 0
            && self.ints == 0
            && self.is_one_sign()
    }

    // `short` with a sign or none, and int or not
    fn is_short(&self) -> bool
        ensures { result ≡ spec.is_short self.now }
    {
        self.voids == 0
            && self.bools == 0
            && self.chars == 0
            && self.shorts == 1
            && self.longs == 0
            && self.ints <= 1
            && self.is_one_sign()
    }

    // `long` or `long long` with a sign or none, and int or not
    fn is_long(&self) -> bool
        ensures { result ≡ spec.is_long self.now }
    {
        self.voids == 0
            && self.bools == 0
            && self.chars == 0
            && self.shorts == 0
            && (self.longs == 1 || self.longs == 2)
            && self.ints <= 1
            && self.is_one_sign()
    }

    // `int`, a sign, or both
    fn is_int(&self) -> bool
        ensures { result ≡ spec.is_int self.now }
    {
        self.has_no_size_word() && self.ints <= 1 && self.is_one_sign() && !self.is_wordless()
    }

    // Of these two kinds the signed one, unless `unsigned` stands there.
    fn with_sign(&self, signed: NumKind, unsigned: NumKind) -> CType
        ensures { type_view result ≡ spec.with_sign self.now signed unsigned }
    {
        if self.unsigneds == 0 {
            number(signed)
        } else {
            number(unsigned)
        }
    }

    /// The type that the words make in any order (C11 6.7.2 p2). It takes no memory.
    pub fn word_type(&self) -> Option<CType>
        ensures { option_map type_view result ≡ spec.word_type self.now }
    {
        if self.is_void() {
            Some(CType::Void)
        } else if self.is_bool() {
            Some(number(NumKind::Bool))
        } else if self.is_char() {
            Some(self.with_sign(NumKind::S8, NumKind::U8))
        } else if self.is_short() {
            Some(self.with_sign(NumKind::S16, NumKind::U16))
        } else if self.is_int() {
            Some(self.with_sign(NumKind::S32, NumKind::U32))
        } else if self.is_long() {
            Some(self.with_sign(NumKind::S64, NumKind::U64))
        } else {
            None
        }
    }
}
