//! An index of at most `BITS` spreads by their first and last legs. It finds the spreads that may be formed without a
//! look at the others.
ghost use Rattle.std.specs.Prelude.{◌≡◌, ◌<◌, ℕ};
ghost use Rattle.std.specs.Int.{bit_at};
ghost use Rattle.span_money.specs.declared.bits.TheConstants.{BITS};
ghost use Rattle.span_tables.specs.Slots.{IsMarked};
ghost use Rattle.span_tables.specs.declared.sides.Direction.{Direction};
ghost use Rattle.span_tables.specs.near.LegIndex.{HasEnds, HasMore, HasWord, IsOpenLeg, found_in, no_words, on_side, words_at};

use crate::sides::Side;
use crate::slots::OpenSides;
use span_money::bits::{BITS, take_first};

/// A leg as an index sees it: the number of its tier or commodity, and its side.
#[derive(Clone, Copy)]
pub struct LegAt {
    pub number: usize,
    pub side: Side,
}

// Spreads by the side of a leg. A spread is the bit of its number, which is below `BITS`.
#[derive(Clone, Copy, Default)]
struct SideSpreads {
    a: u64,
    b: u64,
}

// Spreads by the side of their first leg, and by the side of their last leg.
#[derive(Clone, Copy, Default)]
struct LegWords {
    first: SideSpreads,
    last: SideSpreads,
}

/// The spreads of each tier or commodity. A tier or commodity has the slot of its number's remainder by `BITS`.
#[derive(Drop)]
pub struct LegIndex {
    slots: [LegWords; BITS],
}

/// The spreads that may be formed in each direction. A spread is the bit of its number.
#[derive(Clone, Copy)]
pub struct Found {
    pub a_long: u64,
    pub a_short: u64,
}

impl Found {
    ghost use Rattle.std.specs.Int.RustNames.{bit_or};

    /// Returns the spreads that may be formed in one of the directions.
    #[inline(always)]
    pub fn either(&self) -> u64
        ensures { result ≡ bit_or self.now.a_long self.now.a_short }
    {
        self.a_long | self.a_short
    }
}

impl SideSpreads {
    // Adds a spread whose leg is on a side.
    fn add(&mut self, side: Side, spread: usize)
        requires { spread < BITS }
        ensures added { bit_at (on_side side self.new) spread ≡ 1 }
        ensures kept { (s : Side) → HasWord (on_side s self.new) (on_side s self.old) }
    {
        match side {
            Side::A => self.a |= 1 << spread,
            Side::B => self.b |= 1 << spread,
        }
    }

    // Returns the spreads of both.
    #[inline(always)]
    fn and(self, others: SideSpreads) -> SideSpreads
        ensures kept { (s : Side) → HasWord (on_side s result) (on_side s self) }
        ensures added { (s : Side) → HasWord (on_side s result) (on_side s others) }
    {
        SideSpreads {
            a: self.a | others.a,
            b: self.b | others.b,
        }
    }
}

impl LegIndex {
    /// Returns the index without a spread.
    pub fn none() -> LegIndex
        ensures { (number : ℕ) → words_at result number ≡ no_words }
    {
        LegIndex {
            slots: [LegWords::default(); BITS],
        }
    }

    /// Adds a spread by its first and its last leg.
    pub fn add(&mut self, spread: usize, first: LegAt, last: LegAt)
        requires { spread < BITS }
        ensures added { HasEnds self.new spread first last }
        ensures kept { (other : ℕ) (f l : LegAt) → HasEnds self.old other f l → HasEnds self.new other f l }
    {
        self.slots[first.number % BITS]
            .first
            .add(first.side, spread);
        self.slots[last.number % BITS].last.add(last.side, spread);
    }

    // Returns the spreads with a leg that has one of the numbers, which are a set of slots.
    fn words_of(&self, numbers: u64) -> LegWords
        ensures { (number : ℕ) → IsMarked numbers number → HasMore result (words_at self.now number) }
    {
        let mut found = LegWords::default();
        let mut left = numbers;
        while let Some(slot) = take_first(&mut left) {
            let words = self.slots[slot];
            found.first = found.first.and(words.first);
            found.last = found.last.and(words.last);
        }
        found
    }

    /// Returns the spreads that may be formed, given the numbers that may have a remaining delta. In a direction, the
    /// first and the last leg of each have such a number on the side of the market that they need.
    pub fn may_form(&self, sides: &OpenSides) -> Found
        ensures { (spread : ℕ) (f l : LegAt) → HasEnds self.now spread f l → (d : Direction) → bit_at (found_in d result) spread ≡ 0
            → IsOpenLeg sides.now d f → IsOpenLeg sides.now d l → ⊥ }
    {
        let long = self.words_of(sides.long);
        let short = self.words_of(sides.short);
        Found {
            a_long: (long.first.a | short.first.b) & (long.last.a | short.last.b),
            a_short: (short.first.a | long.first.b) & (short.last.a | long.last.b),
        }
    }
}
