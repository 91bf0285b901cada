// Integer literals: digits and their suffix.
ghost use Rattle.std.specs.Prelude.{◌≡◌, ◌≤◌, length};
ghost use Rattle.dc_lexer.specs.Reading.{integer_len as len_of_integer};

use crate::digits::digits_len;
use crate::suffixes::suffix_len;

/// How many bytes the integer in front has with its suffix, or 0.
pub fn integer_len(bytes: &[u8]) -> usize
    ensures within { result ≤ length bytes.now }
    ensures len { result ≡ len_of_integer bytes.now }
{
    let digits = digits_len(bytes);
    if digits == 0 {
        return 0;
    }
    digits + suffix_len(&bytes[digits..])
}
