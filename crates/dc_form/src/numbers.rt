// Numbers in decimal.
ghost use Rattle.std.specs.Prelude.{◌≡◌};
ghost use Rattle.dc_form.specs.Read.Numbers.{number_of as number_in, small};

use dc_text::read_decimal;

// The number, where it is at most 2147483647.
fn small_one(number: Option<u64>) -> Option<u64>
    ensures { result ≡ small number }
{
    match number {
        None => None,
        Some(number) => {
            if number <= 2147483647 {
                Some(number)
            } else {
                None
            }
        }
    }
}

/// The number of a decimal from 0 to 2147483647 without a leading zero.
pub fn number_of(bytes: &[u8]) -> Option<u64>
    ensures { result ≡ number_in bytes.now }
{
    small_one(read_decimal(bytes))
}
