// What stands in front of the bytes that are left.
ghost use Rattle.std.specs.Prelude.{◌≡◌, ◌<◌, ◌≤◌, ◌++◌, ℕ, List, length, take, drop, true, ◌&&◌};
ghost use Rattle.dc_lexer.specs.Fronts.{IsFront};
ghost use Rattle.dc_lexer.specs.Pieces.{IsGap};
ghost use Rattle.dc_lexer.specs.Reading.{at_start, begins_with};

use crate::directives::skipped_len;
use crate::kind::Kind;
use crate::lexemes::{front_kind, is_wide, lexeme_len};
use crate::separators::{begins_with, quiet_len};

/// What stands in front.
#[derive(Drop)]
pub enum Front {
    /// This many bytes separate tokens.
    Gap(usize),

    /// This many bytes are a token.
    Lexeme(Kind, usize),

    /// An integer that is too wide.
    Wide,

    /// A directive that isn't skipped.
    Directive,

    /// Nothing that may stand there.
    Byte,
}

// How many bytes in front separate tokens, or 0.
fn gap_len(fresh: bool, bytes: &[u8]) -> usize
    ensures within { result ≤ length bytes.now }
    ensures found { 0 < result → (before : List ℕ) → at_start true before ≡ fresh → IsGap before (take result bytes.now) (drop result bytes.now) }
    ensures none { result ≡ 0 → (before gap rest : List ℕ) → at_start true before ≡ fresh → bytes.now ≡ gap ++ rest → IsGap before gap rest → ⊥ }
{
    if begins_with(b'\n', bytes) {
        return 1;
    }
    let quiet = quiet_len(bytes);
    if quiet != 0 {
        return quiet;
    }
    if fresh { skipped_len(bytes) } else { 0 }
}

// Whether a `#` is the first of its line that is no blank.
fn begins_directive(fresh: bool, bytes: &[u8]) -> bool
    ensures { result ≡ (fresh && begins_with 35 bytes.now) }
{
    fresh && begins_with(b'#', bytes)
}

/// What stands in front, where only blanks stand between the last newline and it (`fresh`), or more.
pub fn look(fresh: bool, bytes: &[u8]) -> Front
    ensures { IsFront fresh bytes.now result }
{
    let gap = gap_len(fresh, bytes);
    if gap != 0 {
        return Front::Gap(gap);
    }
    let len = lexeme_len(bytes);
    if len != 0 {
        let kind = front_kind(bytes);
        if is_wide(kind, &bytes[..len]) {
            return Front::Wide;
        }
        return Front::Lexeme(kind, len);
    }
    if begins_directive(fresh, bytes) {
        Front::Directive
    } else {
        Front::Byte
    }
}
