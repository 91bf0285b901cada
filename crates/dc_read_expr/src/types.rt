// Specs and type-names (C11 6.7, 6.7.7).
ghost use Rattle.std.specs.Prelude.{◌≡◌, ◌<◌, ◌+◌, ◌||◌, not, OnOk, drop};
ghost use Rattle.dc_syntax.specs.Tokens as tokens;
ghost use Rattle.dc_syntax.specs.Tokens.{Named, Reserved};
ghost use Rattle.dc_syntax.specs.Trees as trees;
ghost use Rattle.dc_syntax.specs.View.{raw_view};
ghost use Rattle.dc_syntax.specs.Reading as spec;
ghost use Rattle.dc_syntax.specs.Reading.{Found};
ghost use Rattle.dc_syntax.specs.Phrases as phrases;
ghost use Rattle.dc_read_expr.specs.View.{Reading, Specifying, IsNext};
ghost use Rattle.dc_read_expr.specs.Taking.{TakingSpec, IsPushedSpec};
ghost use Rattle.dc_read_expr.specs.Nests.{Nests};

use crate::declarators::is_named;
use crate::read::{Grammar, Kind, Read, higher, place, word};
use crate::words::{is_spec_word, is_tag_word, is_type_word};
use dc_syntax::{Keyword, Raw, Token, Typedefs, Word};
use dc_text::Name;
use sqlite_items::{Boxed, Items};
use std::alloc::{AllocError, Global};

/// What was read of specs, their height, the place behind them, and whether a type and braces are among them.
#[derive(Drop)]
pub struct ReadSpecs {
    pub specs: Items<Raw>,
    pub height: u64,
    pub at: usize,
    pub has_type: bool,
    pub has_body: bool,
}

impl<
    'a,
    'b,
    F: Fn(
        Global,
        &[Token<'_>],
        &Typedefs<'_>,
        u64,
        Kind,
        usize,
    ) -> Result<Option<Read>, AllocError>,
> Grammar<'a, 'b, F> {
    /// Whether one more spec is taken, where a type is among them or not.
    fn takes(&self, names: &Typedefs<'_>, typed: bool, at: usize) -> bool
        ensures { result ≡ spec.takes typed names.now.names (drop at self.now.tokens.now) }
    {
        match word(self.tokens, at) {
            Some(Word::Named(name)) => !typed && names.has_type(name),
            Some(Word::Reserved(keyword)) => is_spec_word(keyword) || is_tag_word(keyword),
            _ => false,
        }
    }

    /// One spec.
    fn spec(&self, names: &Typedefs<'_>, typed: bool, at: usize) -> Result<Option<Read>, AllocError>
        requires nests { Nests self.now.budget (F.pre self.now.reader) (F.post self.now.reader) }
        requires small { self.now.budget < 1000 }
        ensures { Reading self.now.tokens.now at self.now.budget result (spec.spec (spec.reads self.now.budget) self.now.budget names.now.names typed (drop at self.now.tokens.now)) }
    {
        match word(self.tokens, at) {
            Some(Word::Named(name)) => self.name_spec(names, typed, at, name),
            Some(Word::Reserved(keyword)) => self.keyword_spec(names, typed, at, keyword),
            _ => Ok(None),
        }
    }

    /// A typedef's name.
    fn name_spec(
        &self,
        names: &Typedefs<'_>,
        typed: bool,
        at: usize,
        name: &[u8],
    ) -> Result<Option<Read>, AllocError>
        requires begins { IsNext self.now.tokens.now at (Named name.now) }
        ensures { Reading self.now.tokens.now at self.now.budget result (spec.spec (spec.reads self.now.budget) self.now.budget names.now.names typed (drop at self.now.tokens.now)) }
    {
        if typed {
            return Ok(None);
        }
        if !names.has_type(name) {
            return Ok(None);
        }
        if self.budget < 1 {
            return Ok(None);
        }
        Ok(Some(Read {
            tree: Boxed::new(
                self.alloc,
                Raw::SpecName(
                    Name::copied(self.alloc, name)?,
                    place(self.tokens, at, at + 1),
                ),
            )?,
            height: 1,
            at: at + 1,
        }))
    }

    /// A spec that begins with a keyword.
    fn keyword_spec(
        &self,
        names: &Typedefs<'_>,
        typed: bool,
        at: usize,
        keyword: Keyword,
    ) -> Result<Option<Read>, AllocError>
        requires nests { Nests self.now.budget (F.pre self.now.reader) (F.post self.now.reader) }
        requires small { self.now.budget < 1000 }
        requires begins { IsNext self.now.tokens.now at (Reserved keyword) }
        ensures { Reading self.now.tokens.now at self.now.budget result (spec.spec (spec.reads self.now.budget) self.now.budget names.now.names typed (drop at self.now.tokens.now)) }
    {
        if is_struct(keyword) {
            return self.struct_spec(names, at);
        }
        if is_enum(keyword) {
            return self.enum_spec(names, at);
        }
        self.word_spec(at, keyword)
    }

    /// A keyword that is a spec by itself.
    fn word_spec(&self, at: usize, keyword: Keyword) -> Result<Option<Read>, AllocError>
        requires begins { IsNext self.now.tokens.now at (Reserved keyword) }
        ensures { Reading self.now.tokens.now at self.now.budget result (spec.checked (tokens.is_spec_word keyword) (spec.found (drop at self.now.tokens.now) (trees.SpecWord keyword) (drop (at + 1) self.now.tokens.now))) }
    {
        if !is_spec_word(keyword) {
            return Ok(None);
        }
        Ok(Some(Read {
            tree: Boxed::new(
                self.alloc,
                Raw::SpecWord(keyword, place(self.tokens, at, at + 1)),
            )?,
            height: 0,
            at: at + 1,
        }))
    }

    /// The longest run of specs.
    pub fn specs(&self, names: &Typedefs<'_>, at: usize) -> Result<Option<ReadSpecs>, AllocError>
        requires nests { Nests self.now.budget (F.pre self.now.reader) (F.post self.now.reader) }
        requires small { self.now.budget < 1000 }
        ensures { Specifying self.now.tokens.now at self.now.budget result (spec.specs (spec.reads self.now.budget) self.now.budget names.now.names (drop at self.now.tokens.now)) }
    {
        let mut scope = Typedefs::within(self.alloc, names);
        let mut run = ReadSpecs {
            specs: Items::new(self.alloc),
            height: 0,
            at,
            has_type: false,
            has_body: false,
        };
        loop {
            if !self.take_spec(&mut scope, &mut run)? {
                return Ok(None);
            }
            if !self.takes(&scope, run.has_type, run.at) {
                return Ok(Some(run));
            }
        }
    }

    /// One more spec. Is there one?
    fn take_spec(&self, scope: &mut Typedefs<'_>, run: &mut ReadSpecs) -> Result<bool, AllocError>
        requires nests { Nests self.now.budget (F.pre self.now.reader) (F.post self.now.reader) }
        requires small { self.now.budget < 1000 }
        ensures { TakingSpec self.now.tokens.now self.now.budget run.old run.new scope.old.names scope.new.names result (spec.spec (spec.reads self.now.budget) self.now.budget scope.old.names run.old.has_type (drop run.old.at self.now.tokens.now)) }
    {
        let Some(spec) = self.spec(scope, run.has_type, run.at)? else {
            return Ok(false);
        };
        push_spec(self.alloc, spec, scope, run)?;
        Ok(true)
    }

    /// Specs without braces, where what stands behind them leaves them the longest run.
    pub fn bare(&self, names: &Typedefs<'_>, at: usize) -> Result<Option<ReadSpecs>, AllocError>
        requires nests { Nests self.now.budget (F.pre self.now.reader) (F.post self.now.reader) }
        requires small { self.now.budget < 1000 }
        ensures { Specifying self.now.tokens.now at self.now.budget result (spec.bare (spec.reads self.now.budget) self.now.budget names.now.names (drop at self.now.tokens.now) Found) }
    {
        let Some(read) = self.specs(names, at)? else {
            return Ok(None);
        };
        if read.has_body {
            return Ok(None);
        }
        if !leaves(self.tokens, names, read.has_type, read.at) {
            return Ok(None);
        }
        Ok(Some(read))
    }

    /// A type-name.
    pub fn type_name(&self, at: usize) -> Result<Option<Read>, AllocError>
        requires nests { Nests self.now.budget (F.pre self.now.reader) (F.post self.now.reader) }
        requires small { self.now.budget < 1000 }
        ensures { Reading self.now.tokens.now at self.now.budget result (spec.type_name (spec.reads self.now.budget) self.now.budget self.now.names.now.names (drop at self.now.tokens.now)) }
    {
        let Some(read) = self.bare(self.names, at)? else {
            return Ok(None);
        };
        let Some(declarator) = self.declarator_or_none(self.names, read.at)? else {
            return Ok(None);
        };
        if is_named(declarator.tree.get()) {
            return Ok(None);
        }
        let end = declarator.at;
        Ok(Some(Read {
            tree: Boxed::new(
                self.alloc,
                Raw::TypeName(read.specs, declarator.tree, place(self.tokens, at, end)),
            )?,
            height: higher(read.height, declarator.height),
            at: end,
        }))
    }
}

/// Whether a typedef's name stands at the place.
fn begins_typedef(tokens: &[Token<'_>], names: &Typedefs<'_>, at: usize) -> bool
    ensures { result ≡ phrases.begins_typedef names.now.names (drop at tokens.now) }
{
    match word(tokens, at) {
        Some(Word::Named(name)) => names.has_type(name),
        _ => false,
    }
}

/// Does a spec stand at the place?
pub fn begins_specs(tokens: &[Token<'_>], names: &Typedefs<'_>, at: usize) -> bool
    ensures { result ≡ phrases.begins_specs names.now.names (drop at tokens.now) }
{
    match word(tokens, at) {
        Some(Word::Named(name)) => names.has_type(name),
        Some(Word::Reserved(keyword)) => is_spec_word(keyword) || is_tag_word(keyword),
        _ => false,
    }
}

/// Whether what stands behind specs leaves them the longest run.
pub fn leaves(tokens: &[Token<'_>], names: &Typedefs<'_>, has_type: bool, at: usize) -> bool
    ensures { result ≡ has_type || not (phrases.begins_typedef names.now.names (drop at tokens.now)) }
{
    has_type || !begins_typedef(tokens, names, at)
}

/// One more spec of a run, with what it declares in force.
fn push_spec(
    alloc: Global,
    spec: Read,
    scope: &mut Typedefs<'_>,
    run: &mut ReadSpecs,
) -> Result<(), AllocError>
    ensures { OnOk result (IsPushedSpec spec run.old run.new scope.old.names scope.new.names) }
{
    spec.tree.get().declare(alloc, scope)?;
    run.has_type = either(run.has_type, is_type_spec(spec.tree.get()));
    run.has_body = either(run.has_body, is_body(spec.tree.get()));
    run.specs.push(spec.tree.into_inner())?;
    run.height = higher(run.height, spec.height);
    run.at = spec.at;
    Ok(())
}

/// Is one of them true?
fn either(a: bool, b: bool) -> bool
    ensures { result ≡ a || b }
{
    a || b
}

/// Is it a type?
fn is_type_spec(spec: &Raw) -> bool
    ensures { result ≡ trees.is_type_spec (raw_view spec.now) }
{
    match spec {
        Raw::SpecWord(keyword, _) => is_type_word(*keyword),
        _ => true,
    }
}

/// Has it braces?
fn is_body(spec: &Raw) -> bool
    ensures { result ≡ trees.is_body (raw_view spec.now) }
{
    matches!(spec, Raw::StructBody(..) | Raw::EnumBody(..))
}

/// `struct`
fn is_struct(keyword: Keyword) -> bool
    ensures { result ≡ tokens.is_word tokens.struct_word (Reserved keyword) }
{
    matches!(keyword, Keyword::Struct)
}

/// `enum`
fn is_enum(keyword: Keyword) -> bool
    ensures { result ≡ tokens.is_word tokens.enum_word (Reserved keyword) }
{
    matches!(keyword, Keyword::Enum)
}
