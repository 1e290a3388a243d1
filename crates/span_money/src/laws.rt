//! Lemmas about the largest amount, division, number texts, exact decimals and lines. Each is the contract of a
//! function that does nothing.
ghost use Rattle.std.specs.Prelude.{◌≡◌, ◌↔◌, ℕ, ◌*◌, ◌/◌, ◌^◌, ◌<◌, ◌≤◌, ℤ, pos, ◌<ℤ◌, List, Some, None, true, nat_abs};
ghost use Rattle.std.specs.Prelude.{◌∷◌, ◌++◌, [], Contains, codes, slice_index, take_while};
ghost use Rattle.std.specs.Char.{is_ascii_digit};
ghost use Rattle.std.specs.Fmt.{signed_decimal};
ghost use Rattle.std.specs.Int.{div_ceil};
ghost use Rattle.std.specs.List.{join_with_byte, last_or};
ghost use Rattle.span_money.specs.ExactDecimals.{exact_decimal, exact_value};
ghost use Rattle.span_money.specs.Forms.{IsDecimal};
ghost use Rattle.span_money.specs.LineFields.{Line, line};
ghost use Rattle.span_money.specs.declared.amounts.TheConstants.{MAX_MONEY};
ghost use Rattle.span_money.specs.Numbers.{decimal_number, has_minus, whole_number, without_minus};

/// The size of an amount of money is at most 10^27 minor units.
pub fn money_has_these_digits()
    ensures { MAX_MONEY ≡ 1000000000000000000000000000 }
{}

/// A quotient rounded up is the least number that is large enough.
#[tactic(auto, using(crate::proofs::NumberLaws::div_ceil_least))]
pub fn rounding_up_is_least()
    ensures { (x d : ℕ) → 0 < d → (x ≤ div_ceil x d * d) × ((g : ℕ) → x ≤ g * d → div_ceil x d ≤ g) }
{}

/// A quotient rounded down is the greatest number that fits: `greatest_fit` returns the greatest n such that n times
/// the ratio is at most `rest`.
#[tactic(auto, using(crate::proofs::NumberLaws::div_greatest))]
pub fn greatest_fit_is_greatest()
    ensures { (rest ratio : ℕ) → 0 < ratio
        → ((rest / ratio) * ratio ≤ rest) × ((n : ℕ) → n * ratio ≤ rest → n ≤ rest / ratio) }
{}

/// The text that `decimal` writes for a whole number of at most 18 digits is read by `parse_whole` as that number.
#[tactic(auto, using(crate::proofs::TextLaws::read_back))]
pub fn written_numbers_read_back()
    ensures { (z : ℤ) → nat_abs z < 10 ^ 18 → whole_number (signed_decimal z) ≡ Some z }
{}

/// A text is read as a decimal if and only if it is one: an optional minus, 1 to 6 digits, and optionally a point and 1
/// to 4 digits. It is read as the number that it spells.
pub fn decimals_are_read()
    ensures reads { (text : List ℕ) (z : ℤ) → IsDecimal text z → decimal_number text ≡ Some z }
    ensures no_other { (text : List ℕ) (z : ℤ) → decimal_number text ≡ Some z → IsDecimal text z }
{}

/// An exact decimal of at most 64 digits is read back as the number that it was written from.
#[tactic(auto, using(crate::proofs::ExactLaws::exact_read_back))]
pub fn exact_decimals_read_back()
    ensures { (places : ℕ) (z : ℤ) → nat_abs z < 10 ^ 64 → exact_value places (exact_decimal places z) ≡ z }
{}

/// No byte of an exact decimal can be left out. If it has a point, it ends in a digit other than `0`. Its whole part
/// begins with `0` only if it is `0`. It has a minus if and only if the number is below 0, and 0 is `0`.
pub fn exact_decimals_are_short()
    ensures end { (places : ℕ) (z : ℤ) → nat_abs z < 10 ^ 64 → Contains (exact_decimal places z) 46
        → (last : ℕ) × (last_or None (exact_decimal places z) ≡ Some last) × (49 ≤ last) × (last ≤ 57) }
    ensures front { (places : ℕ) (z : ℤ) → nat_abs z < 10 ^ 64 → slice_index (without_minus (exact_decimal places z)) 0 ≡ 48
        → take_while is_ascii_digit (without_minus (exact_decimal places z)) ≡ codes "0" }
    ensures sign { (places : ℕ) (z : ℤ) → nat_abs z < 10 ^ 64 → has_minus (exact_decimal places z) ≡ true ↔ (z <ℤ pos 0) }
    ensures zero { (places : ℕ) → exact_decimal places (pos 0) ≡ codes "0" }
{}

/// A line is its word and its fields, joined by commas, and a line feed.
#[tactic(auto, using(crate::proofs::LinePartLemmas::line_joined))]
pub fn a_line_is_its_fields_joined()
    ensures { (l : Line) → line l ≡ join_with_byte 44 (l.word ∷ l.fields) ++ 10 ∷ [] }
{}
