//! Laws over the definitions alone, each a call without effect whose clause states it.
ghost use Rattle.std.specs.Prelude.{◌≡◌, ◌<◌, ◌+◌, ◌++◌, ◌^◌, ℕ, ℤ, List, length, true, unsigned_abs};
ghost use Rattle.std.specs.Fmt.{decimal, signed_decimal};
ghost use Rattle.std.specs.List.{list_all};
ghost use Rattle.dc_text.specs.declared.event.Counts.{Counts};
ghost use Rattle.dc_text.specs.declared.event.Event.{Event};
ghost use Rattle.dc_text.specs.Counted.{raised, raised_by, all_counted, no_counts};
ghost use Rattle.dc_text.specs.Digits.{is_digit};

/// A number is spelled by digits, one at least.
pub fn decimals_are_digits()
    ensures digits { (n : ℕ) → n < 2 ^ 128 → list_all is_digit (decimal n) ≡ true }
    ensures some { (n : ℕ) → n < 2 ^ 128 → 0 < length (decimal n) }
{}

/// Different numbers have different spellings.
pub fn decimals_differ()
    ensures natural { (m n : ℕ) → m < 2 ^ 128 → n < 2 ^ 128 → decimal m ≡ decimal n → m ≡ n }
    ensures signed { (y z : ℤ) → unsigned_abs y < 2 ^ 128 → unsigned_abs z < 2 ^ 128 → signed_decimal y ≡ signed_decimal z → y ≡ z }
{}

/// A count rises by two numbers of events in turn as by their sum, and by none it stays.
pub fn counts_add_up()
    ensures none { (count : ℕ) → raised count 0 ≡ count }
    ensures sum { (count first second : ℕ) → raised (raised count first) second ≡ raised count (first + second) }
{}

/// Two lists of events are counted in turn as the one behind the other, and what they add is the same whatever was
/// counted before.
pub fn events_add_up()
    ensures sum { (first second : List Event) (counts : Counts) →
        all_counted (first ++ second) counts ≡ all_counted second (all_counted first counts) }
    ensures anew { (events : List Event) (counts : Counts) →
        all_counted events counts ≡ raised_by counts (all_counted events no_counts) }
{}
