// Words that may be declared as names.
ghost use Rattle.std.specs.Prelude.{◌≡◌};
ghost use Rattle.dc_form.specs.Form.{is_name};

use dc_text::{is_formed, is_reserved_word};

/// Whether the bytes may be declared as a name: formed as one, and not reserved.
pub fn is_name_word(bytes: &[u8]) -> bool
    ensures { result ≡ is_name bytes.now }
{
    is_formed(bytes) && !is_reserved_word(bytes)
}
