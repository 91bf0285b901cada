// Phrases that are read by themselves, with the recursion's own reader.
ghost use Rattle.std.specs.Prelude.{◌<◌, ◌≤◌, length, drop};
ghost use Rattle.dc_syntax.specs.Reading as spec;
ghost use Rattle.dc_syntax.specs.Trees as trees;
ghost use Rattle.dc_syntax.specs.View.{more_tree};
ghost use Rattle.dc_read_expr.specs.View.{Reading, Listing, Specifying};

use crate::lists::{Item, ReadItems};
use crate::read::{Grammar, Kind, Read};
use crate::reader::read_at;
use crate::types::ReadSpecs;
use dc_syntax::{Token, Typedefs};
use std::alloc::{AllocError, Global};

/// The longest expression of at most this level and height that begins at the place.
pub fn read_upto(
    alloc: Global,
    tokens: &[Token<'_>],
    names: &Typedefs<'_>,
    height: u64,
    level: u64,
    at: usize,
) -> Result<Option<Read>, AllocError>
    requires within { at ≤ length tokens.now }
    requires small { height < 1000 }
    ensures { Reading tokens.now at height result (spec.reads height (spec.Upto level) names.now.names (drop at tokens.now)) }
{
    read_at(alloc, tokens, names, height, Kind::Upto(level), at)
}

/// The longest run of specs of at most this height at the place (C11 6.7).
pub fn read_specs(
    alloc: Global,
    tokens: &[Token<'_>],
    names: &Typedefs<'_>,
    height: u64,
    at: usize,
) -> Result<Option<ReadSpecs>, AllocError>
    requires small { height < 1000 }
    ensures { Specifying tokens.now at height result (spec.specs (spec.reads height) height names.now.names (drop at tokens.now)) }
{
    Grammar {
        alloc,
        tokens: &*tokens,
        names: &*names,
        budget: height,
        reader: read_at,
    }
    .specs(names, at)
}

/// A declarator with a name, of at most this height, at the place (C11 6.7.6).
pub fn read_declarator(
    alloc: Global,
    tokens: &[Token<'_>],
    names: &Typedefs<'_>,
    height: u64,
    at: usize,
) -> Result<Option<Read>, AllocError>
    requires within { at ≤ length tokens.now }
    requires small { height < 1000 }
    ensures { Reading tokens.now at height result (spec.declarator_named (spec.reads height) names.now.names (drop at tokens.now)) }
{
    Grammar {
        alloc,
        tokens: &*tokens,
        names: &*names,
        budget: height,
        reader: read_at,
    }
    .declarator_named(names, at)
}

/// The conditions behind a first one, each behind a comma.
pub fn read_conditions(
    alloc: Global,
    tokens: &[Token<'_>],
    names: &Typedefs<'_>,
    height: u64,
    at: usize,
) -> Result<Option<ReadItems>, AllocError>
    requires within { at ≤ length tokens.now }
    requires small { height < 1000 }
    ensures { Listing tokens.now at height (more_tree trees.Condition) result (spec.more (spec.reads height (spec.Upto 15)) trees.Condition names.now.names (length (drop at tokens.now)) (drop at tokens.now)) }
{
    Grammar {
        alloc,
        tokens: &*tokens,
        names: &*names,
        budget: height,
        reader: read_at,
    }
    .more(Item::Condition, names, at)
}
