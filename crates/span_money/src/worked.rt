//! Test vectors for number texts, computed by the definitions. Each is the contract of a function that does nothing.
ghost use Rattle.std.specs.Prelude.{◌≡◌, codes, Some, None, pos, neg_ℤ};
ghost use Rattle.span_money.specs.ExactDecimals.{exact_decimal, exact_value};
ghost use Rattle.span_money.specs.Numbers.{decimal_number, month_number, whole_number};

/// Decimals and their values, in 10^-4; a whole number and a month.
pub fn numbers()
    ensures half { decimal_number (codes "0.5") ≡ Some (pos 5000) }
    ensures minus_one { decimal_number (codes "-1") ≡ Some (neg_ℤ (pos 10000)) }
    ensures minus_zero { decimal_number (codes "-0") ≡ Some (pos 0) }
    ensures no_fraction { decimal_number (codes "1.") ≡ None }
    ensures below_zero { whole_number (codes "-012") ≡ Some (neg_ℤ (pos 12)) }
    ensures month { month_number (codes "202503") ≡ Some (pos 202503) }
{}

/// Exact decimals of numbers in units of 10^-8 and tenths, and a number that is read from one.
#[tactic(auto, unfolding(crate::proofs::OnLiterals::exact_on_literals))]
pub fn exact_decimals()
    ensures zeros_within { exact_decimal 8 (pos 100000001) ≡ codes "1.00000001" }
    ensures half_below_zero { exact_decimal 1 (neg_ℤ (pos 5)) ≡ codes "-0.5" }
    ensures three_of_four_places { exact_value 4 (codes "1.234") ≡ pos 12340 }
{}
