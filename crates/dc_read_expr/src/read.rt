// What is read, and the tokens at a place.
ghost use Rattle.std.specs.Prelude.{◌≡◌, ◌<◌, ◌≤◌, max, length, drop};
ghost use Rattle.dc_syntax.specs.Reading as spec;
ghost use Rattle.dc_read_expr.specs.View.{ReadingOf, Next, kind_view};
ghost use Rattle.dc_read_expr.specs.Nests.{Nests};

use dc_syntax::{Place, Raw, Token, Typedefs, Word};
use sqlite_items::Boxed;
use std::alloc::{AllocError, Global};

/// What has a height of its own.
#[derive(Clone, Copy)]
pub enum Kind {
    /// An expression of at most this level.
    Upto(u64),
    /// A declaration in a struct.
    Member,
    Enumerator,
    Declarator,
}

/// What was read, its height, and the place behind it.
#[derive(Drop)]
pub struct Read {
    pub tree: Boxed<Raw>,
    pub height: u64,
    pub at: usize,
}

/// What was read with one more operator behind it, or as it was, where none follows.
#[derive(Drop)]
pub enum Turn {
    More(Read),
    Done(Read),
}

/// The greater of two heights.
pub fn higher(a: u64, b: u64) -> u64
    ensures { result ≡ max a b }
{
    if a < b { b } else { a }
}

/// The place of the tokens from one place up to another.
pub fn place(tokens: &[Token<'_>], from: usize, to: usize) -> Place
    requires bounds { (from < to) × (to ≤ length tokens.now) }
    ensures { result ≡ spec.between (drop from tokens.now) (drop to tokens.now) }
{
    Place::new(tokens[to - 1].number(), tokens[from].line())
}

/// The word at a place.
pub fn word<'a>(tokens: &[Token<'a>], at: usize) -> Option<Word<'a>>
    ensures { Next tokens.now at result }
{
    if at < tokens.len() {
        Some(tokens[at].word())
    } else {
        None
    }
}

/// The readers of a tree's parts, which are less high than the tree.
#[derive(Clone, Copy)]
pub struct Grammar<'a, 'b, F> {
    pub alloc: Global,
    pub tokens: &'a [Token<'b>],
    pub names: &'a Typedefs<'a>,
    /// The greatest height of a part.
    pub budget: u64,
    pub reader: F,
}

impl<
    'a,
    'b,
    F: Fn(
        Global,
        &[Token<'_>],
        &Typedefs<'_>,
        u64,
        Kind,
        usize,
    ) -> Result<Option<Read>, AllocError>,
> Grammar<'a, 'b, F> {
    /// What of this kind begins at the place, of at most the budget's height.
    pub fn below(&self, kind: Kind, at: usize) -> Result<Option<Read>, AllocError>
        requires nests { Nests self.now.budget (F.pre self.now.reader) (F.post self.now.reader) }
        requires within { at ≤ length self.now.tokens.now }
        ensures { ReadingOf kind self.now.tokens.now at self.now.budget result (spec.reads self.now.budget (kind_view kind) self.now.names.now.names (drop at self.now.tokens.now)) }
    {
        (self.reader)(self.alloc, self.tokens, self.names, self.budget, kind, at)
    }

    /// The same with other names in force.
    pub fn below_in(
        &self,
        names: &Typedefs<'_>,
        kind: Kind,
        at: usize,
    ) -> Result<Option<Read>, AllocError>
        requires nests { Nests self.now.budget (F.pre self.now.reader) (F.post self.now.reader) }
        requires within { at ≤ length self.now.tokens.now }
        ensures { ReadingOf kind self.now.tokens.now at self.now.budget result (spec.reads self.now.budget (kind_view kind) names.now.names (drop at self.now.tokens.now)) }
    {
        (self.reader)(self.alloc, self.tokens, names, self.budget, kind, at)
    }
}
