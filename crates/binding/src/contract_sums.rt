//! Sums by contract number. A number without additions costs nothing.
ghost use Rattle.std.specs.Prelude.{◌≡◌, ◌==◌, ◌<◌, ◌+◌, ◌*◌, ◌^◌, ◌++◌, ◌+ℤ◌};
ghost use Rattle.std.specs.Prelude.{length, map, nat_abs, replicate, pos, slice_index_or, slice_set, IfOk, OnOk};
ghost use Rattle.std.specs.Int.{bit_at};
ghost use Rattle.binding.specs.declared.contract_sums.TheConstants.{MARKS};
ghost use Rattle.binding.specs.near.Nets.{held_part, holdings_from};
ghost use Rattle.binding.specs.near.Sums.{held_below, kept_holding, kept_net, AreMarks};

use span_tables::limits::MAX_NET;
use span_tables::portfolios::Holding;
use std::alloc::{AllocError, Global};
use std::marker::Model;

// The number of marks in a word.
const MARKS: usize = u64::BITS as usize;

/// A sum for each contract number. Contracts see the list of the sums.
///
/// For each number a bit, its mark, says whether something was added to its sum since the sums were cleared. If the
/// mark is not set, the sum is 0, whatever value its slot has.
#[derive(Drop)]
pub(crate) struct Sums {
    places: Vec<i128>,
    marks: Vec<u64>,
}

impl Model for Sums {
    ghost use Rattle.std.specs.Prelude.{List, length, ℤ};
    ghost use Rattle.binding.specs.near.Sums.{AreMarks, sums_of};

    ghost Value = { List ℤ };

    ghost view = { λ s. sums_of s.marks.items s.places.items };

    ghost invariant = { λ s. AreMarks s.marks.items (length s.places.items) };
}

// Whether the bit at an index is set.
fn is_set(word: u64, place: usize) -> bool
    requires { place < MARKS }
    ensures { result ≡ (bit_at word place == 1) }
{
    word >> place & 1 == 1
}

// A sum plus one more quantity.
fn plus(sum: i128, quantity: i32) -> i128
    requires { nat_abs sum + nat_abs quantity < 2 ^ 127 }
    ensures { result ≡ sum +ℤ quantity }
{
    sum + i128::from(quantity)
}

// A stored net, in 32 bits: a net over the limit, long or short, is stored as `MAX_NET + 1`.
fn kept_net(net: i128) -> i32
    ensures { result ≡ kept_net net }
{
    if net.unsigned_abs() > u128::from(MAX_NET) {
        return MAX_NET as i32 + 1;
    }
    net as i32
}

// Appends the net in the contract of a mark, unless it is 0.
fn push_held(
    held: &mut Vec<Holding>,
    places: &[i128],
    word: usize,
    mark: u32,
) -> Result<(), AllocError>
    requires number { MARKS * word + mark < length places.now }
    requires few { length places.now < 2 ^ 32 }
    ensures { OnOk result (held.new.items ≡ held.old.items ++ map kept_holding
        (held_part (MARKS * word + mark) (slice_index_or places.now (MARKS * word + mark) (pos 0)))) }
{
    let contract = MARKS * word + mark as usize;
    let net = kept_net(places[contract]);
    if net != 0 {
        held.push(Holding {
            contract: contract as u32,
            net,
        })?;
    }
    Ok(())
}

// Appends the non-zero sums of a word's numbers to the sums of the words before it.
fn push_word(
    held: &mut Vec<Holding>,
    places: &[i128],
    marks: &[u64],
    word: usize,
) -> Result<(), AllocError>
    requires marks { AreMarks marks.now (length places.now) }
    requires word { word < length marks.now }
    requires so_far { held.old.items ≡ held_below marks.now places.now (MARKS * word) }
    ensures { OnOk result (held.new.items ≡ held_below marks.now places.now (MARKS * word + MARKS)) }
{
    let mut left = marks[word];
    while left != 0 {
        let mark = left.trailing_zeros();
        push_held(held, places, word, mark)?;
        left &= !(1 << mark);
    }
    Ok(())
}

impl Sums {
    /// Returns `count` sums of 0. `Err` is out of memory.
    pub(crate) fn new(alloc: Global, count: u32) -> Result<Sums, AllocError>
        ensures { IfOk result (λ sums. sums ≡ replicate count (pos 0)) }
    {
        let places = vec![in alloc; 0i128; count as usize]?;
        let marks = vec![in alloc; 0u64; count as usize / MARKS + 1]?;
        Ok(Sums { places, marks })
    }

    /// Returns the number of sums.
    pub(crate) fn len(&self) -> usize
        ensures { result ≡ length self.now }
    {
        self.places.len()
    }

    // The sum of a number.
    fn at(&self, number: usize) -> i128
        requires { number < length self.now }
        ensures { result ≡ slice_index_or self.now number (pos 0) }
    {
        if is_set(self.marks[number / MARKS], number % MARKS) {
            self.places[number]
        } else {
            0
        }
    }

    // Sets each sum to 0.
    fn clear(&mut self)
        ensures { self.new ≡ replicate (length self.old) (pos 0) }
    {
        self.marks.fill(0);
    }

    /// Sets the number of sums, and each sum to 0. It allocates only if the number changes.
    pub(crate) fn start(&mut self, alloc: Global, count: u32) -> Result<(), AllocError>
        ensures { OnOk result (self.new ≡ replicate count (pos 0)) }
    {
        if self.len() != count as usize {
            *self = Sums::new(alloc, count)?;
            return Ok(());
        }
        self.clear();
        Ok(())
    }

    /// Adds a quantity to the sum of a number. A number past the end is ignored.
    pub(crate) fn add(&mut self, number: usize, quantity: i32)
        requires room { nat_abs (slice_index_or self.old number (pos 0)) + nat_abs quantity < 2 ^ 127 }
        ensures { self.new ≡ slice_set self.old number (slice_index_or self.old number (pos 0) +ℤ quantity) }
    {
        if number >= self.places.len() {
            return;
        }
        let sum = plus(self.at(number), quantity);
        self.marks[number / MARKS] |= 1 << (number % MARKS);
        self.places[number] = sum;
    }

    /// Returns the non-zero sums as holdings. The result is allocated with room for `room` of them.
    pub(crate) fn holdings(&self, alloc: Global, room: usize) -> Result<Vec<Holding>, AllocError>
        ensures { IfOk result (λ held. held.items ≡ map kept_holding (holdings_from self.now (length self.now))) }
    {
        let mut held = Vec::with_capacity(alloc, room)?;
        for word in 0..self.marks.len() {
            push_word(&mut held, &self.places, &self.marks, word)?;
        }
        Ok(held)
    }
}
