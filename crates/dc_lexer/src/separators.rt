// Blanks and comments.
ghost use Rattle.std.specs.Prelude.{◌≡◌, ◌≤◌, ◌+◌, length, drop, IfSome};
ghost use Rattle.std.specs.List.{count_by, prefix_len};
ghost use Rattle.dc_lexer.specs.Pieces.{is_blank as blank, is_newline, newlines as newlines_in};
ghost use Rattle.dc_lexer.specs.Reading.{begins_comment as comment_in, begins_with as with_in, close_len as len_to_close, comment_len as len_of_comment, goes_on_as_comment as comment_on, is_in_line, quiet_len as len_of_quiet};

/// Whether the byte is a space, a tab or a carriage return.
pub fn is_blank(b: u8) -> bool
    ensures { result ≡ blank b }
{
    b == b' ' || b == b'\t' || b == b'\r'
}

/// How many blanks stand in front.
pub fn blanks_len(bytes: &[u8]) -> usize
    ensures within { result ≤ length bytes.now }
    ensures len { result ≡ prefix_len blank bytes.now }
{
    let mut rest = bytes;
    while let [first, tail @ ..] = rest {
        if !is_blank(*first) {
            return bytes.len() - rest.len();
        }
        rest = tail;
    }
    bytes.len() - rest.len()
}

/// How many bytes stand before the line's end.
pub fn line_len(bytes: &[u8]) -> usize
    ensures within { result ≤ length bytes.now }
    ensures len { result ≡ prefix_len is_in_line bytes.now }
{
    let mut rest = bytes;
    while let [first, tail @ ..] = rest {
        if *first == b'\n' {
            return bytes.len() - rest.len();
        }
        rest = tail;
    }
    bytes.len() - rest.len()
}

/// How many newlines are among the bytes.
pub fn newlines(bytes: &[u8]) -> u64
    ensures within { result ≤ length bytes.now }
    ensures count { result ≡ newlines_in bytes.now }
{
    let mut count: u64 = 0;
    for b in bytes {
        if *b == b'\n' {
            count += 1;
        }
    }
    count
}

/// What stands behind this many bytes.
pub fn behind(len: usize, bytes: &[u8]) -> &[u8]
    requires { len ≤ length bytes.now }
    ensures { result.now ≡ drop len bytes.now }
{
    &bytes[len..]
}

/// Whether the byte stands in front.
pub fn begins_with(byte: u8, bytes: &[u8]) -> bool
    ensures { result ≡ with_in byte bytes.now }
{
    match bytes {
        [first, ..] => *first == byte,
        [] => false,
    }
}

// How many bytes stand up to the end of a block comment, with its `*/`.
fn close_len(bytes: &[u8]) -> Option<usize>
    ensures within { IfSome result (λ n. n ≤ length bytes.now) }
    ensures len { result ≡ len_to_close bytes.now }
{
    let mut rest = bytes;
    while let [first, tail @ ..] = rest {
        if *first == b'*' && begins_with(b'/', tail) {
            return Some(bytes.len() - rest.len() + 2);
        }
        rest = tail;
    }
    None
}

// How many bytes the comment has whose first slash stands before these bytes, or 0.
fn comment_len(bytes: &[u8]) -> usize
    ensures within { result ≤ length bytes.now + 1 }
    ensures len { result ≡ len_of_comment bytes.now }
{
    let [first, tail @ ..] = bytes else {
        return 0;
    };
    if *first == b'/' {
        return 2 + line_len(tail);
    }
    if *first != b'*' {
        return 0;
    }
    match close_len(tail) {
        Some(len) => 2 + len,
        None => 0,
    }
}

/// How many bytes the blank or the comment in front has, or 0.
pub fn quiet_len(bytes: &[u8]) -> usize
    ensures within { result ≤ length bytes.now }
    ensures len { result ≡ len_of_quiet bytes.now }
{
    let [first, tail @ ..] = bytes else {
        return 0;
    };
    if is_blank(*first) {
        1
    } else if *first == b'/' {
        comment_len(tail)
    } else {
        0
    }
}

// Whether a `/` or `*` stands in front.
fn goes_on_as_comment(bytes: &[u8]) -> bool
    ensures { result ≡ comment_on bytes.now }
{
    begins_with(b'/', bytes) || begins_with(b'*', bytes)
}

/// Whether `//` or `/*` stands in front.
pub fn begins_comment(bytes: &[u8]) -> bool
    ensures { result ≡ comment_in bytes.now }
{
    match bytes {
        [first, tail @ ..] => *first == b'/' && goes_on_as_comment(tail),
        [] => false,
    }
}
