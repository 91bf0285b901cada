// Directives that are skipped.
ghost use Rattle.std.specs.Prelude.{◌≡◌, ◌<◌, ◌≤◌, ◌++◌, ◌↔◌, ℕ, List, length, take, drop, IsTrue};
ghost use Rattle.dc_lexer.specs.Pieces.{IsQuiet, IsSkipped};
ghost use Rattle.dc_lexer.specs.Reading.{at_start as starts, begins as begins_in, blanks_and, hash_and, header_len as len_of_header, include_len as len_of_include, mark_len as len_of_mark, marker_len as len_of_marker, named_len as len_of_named};

use crate::digits::is_digit;
use crate::separators::{begins_with, behind, blanks_len, is_blank, line_len, quiet_len};

/// Whether only blanks stand behind the last newline, where before these bytes they do or don't.
pub fn at_start(fresh: bool, bytes: &[u8]) -> bool
    ensures { result ≡ starts fresh bytes.now }
{
    let mut now = fresh;
    let mut rest = bytes;
    while let [first, tail @ ..] = rest {
        now = *first == b'\n' || (now && is_blank(*first));
        rest = tail;
    }
    now
}

// How many bytes stand from a digit in front to the line's end, or 0.
fn mark_len(bytes: &[u8]) -> usize
    ensures within { result ≤ length bytes.now }
    ensures len { result ≡ len_of_mark bytes.now }
{
    let [first, tail @ ..] = bytes else {
        return 0;
    };
    if is_digit(*first) {
        1 + line_len(tail)
    } else {
        0
    }
}

// The same behind blanks.
fn blanks_and_mark(bytes: &[u8]) -> usize
    ensures within { result ≤ length bytes.now }
    ensures len { result ≡ blanks_and len_of_mark bytes.now }
{
    let blanks = blanks_len(bytes);
    let len = mark_len(&bytes[blanks..]);
    if len == 0 { 0 } else { blanks + len }
}

/// How many bytes the line marker in front has, or 0.
pub fn marker_len(bytes: &[u8]) -> usize
    ensures within { result ≤ length bytes.now }
    ensures len { result ≡ len_of_marker bytes.now }
{
    let [first, tail @ ..] = bytes else {
        return 0;
    };
    if *first != b'#' {
        return 0;
    }
    let len = blanks_and_mark(tail);
    if len == 0 { 0 } else { 1 + len }
}

// Whether the word stands in front.
fn begins(word: &[u8], bytes: &[u8]) -> bool
    ensures within { IsTrue result → length word.now ≤ length bytes.now }
    ensures is { result ≡ begins_in word.now bytes.now }
{
    bytes.starts_with(word)
}

// How many bytes a header in its brackets has, or 0.
fn header_len(bytes: &[u8]) -> usize
    ensures within { result ≤ length bytes.now }
    ensures len { result ≡ len_of_header bytes.now }
{
    if begins(b"<assert.h>", bytes)
        || begins(b"<limits.h>", bytes)
        || begins(b"<stddef.h>", bytes)
        || begins(b"<stdint.h>", bytes)
        || begins(b"<stdlib.h>", bytes)
        || begins(b"<string.h>", bytes)
    {
        10
    } else if begins(b"<stdbool.h>", bytes) {
        11
    } else {
        0
    }
}

// The same behind blanks.
fn blanks_and_header(bytes: &[u8]) -> usize
    ensures within { result ≤ length bytes.now }
    ensures len { result ≡ blanks_and len_of_header bytes.now }
{
    let blanks = blanks_len(bytes);
    let len = header_len(&bytes[blanks..]);
    if len == 0 { 0 } else { blanks + len }
}

// How many bytes `include` has with its header, or 0.
fn named_len(bytes: &[u8]) -> usize
    ensures within { result ≤ length bytes.now }
    ensures len { result ≡ len_of_named bytes.now }
{
    if !begins(b"include", bytes) {
        return 0;
    }
    let len = blanks_and_header(&bytes[7..]);
    if len == 0 { 0 } else { 7 + len }
}

// The same behind blanks.
fn blanks_and_name(bytes: &[u8]) -> usize
    ensures within { result ≤ length bytes.now }
    ensures len { result ≡ blanks_and len_of_named bytes.now }
{
    let blanks = blanks_len(bytes);
    let len = named_len(&bytes[blanks..]);
    if len == 0 { 0 } else { blanks + len }
}

/// How many bytes the include in front has, up to its `>`, or 0.
pub fn include_len(bytes: &[u8]) -> usize
    ensures within { result ≤ length bytes.now }
    ensures len { result ≡ len_of_include bytes.now }
{
    let [first, tail @ ..] = bytes else {
        return 0;
    };
    if *first != b'#' {
        return 0;
    }
    let len = blanks_and_name(tail);
    if len == 0 { 0 } else { 1 + len }
}

// Whether nothing but blanks and comments stands before the end, or the next newline that is in no comment.
fn is_quiet(bytes: &[u8]) -> bool
    ensures { IsTrue result ↔ IsQuiet bytes.now }
{
    let mut rest = bytes;
    while !rest.is_empty() {
        if begins_with(b'\n', rest) {
            return true;
        }
        let len = quiet_len(rest);
        if len == 0 {
            return false;
        }
        rest = behind(len, rest);
    }
    true
}

/// How many bytes the directive in front has, if it is skipped, or 0.
pub fn skipped_len(bytes: &[u8]) -> usize
    ensures within { result ≤ length bytes.now }
    ensures found { 0 < result → IsSkipped (take result bytes.now) (drop result bytes.now) }
    ensures none { result ≡ 0 → (word rest : List ℕ) → bytes.now ≡ word ++ rest → IsSkipped word rest → ⊥ }
{
    let marker = marker_len(bytes);
    if marker != 0 {
        return marker;
    }
    let include = include_len(bytes);
    if include == 0 {
        return 0;
    }
    if is_quiet(behind(include, bytes)) {
        include
    } else {
        0
    }
}
