// The suffixes of integers.
ghost use Rattle.std.specs.Prelude.{◌≡◌, ◌≤◌, length};
ghost use Rattle.dc_lexer.specs.Reading.{again_len as len_again, is_long_mark as long_mark, is_unsigned_mark as unsigned_mark, long_len as len_of_long, long_rest_len as len_of_long_rest, suffix_len as len_of_suffix, unsigned_len as len_of_unsigned};

fn is_unsigned_mark(b: u8) -> bool
    ensures { result ≡ unsigned_mark b }
{
    b == b'u' || b == b'U'
}

fn is_long_mark(b: u8) -> bool
    ensures { result ≡ long_mark b }
{
    b == b'l' || b == b'L'
}

// 1 where the letter stands in front.
fn again_len(letter: u8, bytes: &[u8]) -> usize
    ensures within { result ≤ length bytes.now }
    ensures len { result ≡ len_again letter bytes.now }
{
    match bytes {
        [first, ..] => { if *first == letter { 1 } else { 0 } }
        [] => 0,
    }
}

// The length of the `l` or `ll` in front.
fn long_len(bytes: &[u8]) -> usize
    ensures within { result ≤ length bytes.now }
    ensures len { result ≡ len_of_long bytes.now }
{
    let [first, tail @ ..] = bytes else {
        return 0;
    };
    if is_long_mark(*first) {
        1 + again_len(*first, tail)
    } else {
        0
    }
}

// 1 where a `u` stands in front.
fn unsigned_len(bytes: &[u8]) -> usize
    ensures within { result ≤ length bytes.now }
    ensures len { result ≡ len_of_unsigned bytes.now }
{
    match bytes {
        [first, ..] => { if is_unsigned_mark(*first) { 1 } else { 0 } }
        [] => 0,
    }
}

// How many bytes of a suffix stand behind its first, an `l` in this case.
fn long_rest_len(letter: u8, bytes: &[u8]) -> usize
    ensures within { result ≤ length bytes.now }
    ensures len { result ≡ len_of_long_rest letter bytes.now }
{
    let [first, tail @ ..] = bytes else {
        return 0;
    };
    if *first == letter {
        1 + unsigned_len(tail)
    } else {
        unsigned_len(bytes)
    }
}

/// The length of the suffix in front.
pub fn suffix_len(bytes: &[u8]) -> usize
    ensures within { result ≤ length bytes.now }
    ensures len { result ≡ len_of_suffix bytes.now }
{
    let [first, tail @ ..] = bytes else {
        return 0;
    };
    if is_unsigned_mark(*first) {
        1 + long_len(tail)
    } else if is_long_mark(*first) {
        1 + long_rest_len(*first, tail)
    } else {
        0
    }
}
