//! Words of 64 bits as sets of numbers: a number is in the set if its bit is 1.
ghost use Rattle.std.specs.Int.{bit_at};
ghost use Rattle.std.specs.Prelude.{◌≡◌, ◌==◌, ◌<◌, ◌≤◌, IfSome, IfNone};
ghost use Rattle.span_money.specs.near.Bits.{IsWithout, TakesFirst};
ghost use Rattle.span_money.specs.declared.bits.TheConstants.{BITS};

/// The number of bits of a word.
pub const BITS: usize = u64::BITS as usize;

/// Returns whether a number is in a set.
#[inline(always)]
pub fn has(word: u64, number: usize) -> bool
    requires { number < BITS }
    ensures { result ≡ (bit_at word number == 1) }
{
    word >> number & 1 == 1
}

/// Returns the set without a number.
#[inline(always)]
pub fn without(word: u64, number: usize) -> u64
    requires { number < BITS }
    ensures without { IsWithout word number result }
    ensures small { result ≤ word }
{
    word & !(1 << number)
}

/// Removes the lowest number from a set, and returns it. Returns `None` if the set is empty.
#[inline(always)]
pub fn take_first(word: &mut u64) -> Option<usize>
    ensures none { IfNone result (word.old ≡ 0) }
    ensures first { IfSome result (λ first. TakesFirst word.old first word.new) }
{
    if *word == 0 {
        return None;
    }
    let first = word.trailing_zeros() as usize;
    *word = without(*word, first);
    Some(first)
}
