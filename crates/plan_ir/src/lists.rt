//! Lists of numbers, stored one after another.
ghost use Rattle.std.specs.Prelude.{◌≡◌, ◌+◌, ◌<◌, ◌≤◌, [], ◌∷◌, ◌++◌, All, drop, length, map, slice_index_or, take, OnOk, OnErr};
ghost use Rattle.plan_ir.specs.near.Packing.{IsWithin, list_in};

use std::alloc::{AllocError, Global};
use std::marker::Model;

// The start of a list among the numbers, and its length.
#[derive(Clone, Copy)]
struct Span {
    start: usize,
    len: usize,
}

/// Lists of numbers in one vector, with the start and the length of each. Contracts see the lists.
#[derive(Drop)]
pub struct NumberLists {
    numbers: Vec<u32>,
    spans: Vec<Span>,
}

impl Model for NumberLists {
    ghost use Rattle.std.specs.Prelude.{All, List, map, ℕ};
    ghost use Rattle.plan_ir.specs.near.Packing.{IsWithin, list_in};

    ghost Value = { List (List ℕ) };

    ghost view = { λ lists. map (list_in lists.numbers.items) lists.spans.items };

    ghost invariant = { λ lists. All (IsWithin lists.numbers.items) lists.spans.items };
}

impl NumberLists {
    /// Returns an empty collection of lists.
    pub fn new(alloc: Global) -> NumberLists
        ensures { result ≡ [] }
    {
        NumberLists {
            numbers: Vec::new(alloc),
            spans: Vec::new(alloc),
        }
    }

    /// Returns the number of lists.
    pub fn len(&self) -> usize
        ensures { result ≡ length self.now }
    {
        self.spans.as_slice().len()
    }

    /// Appends a list.
    pub fn push(&mut self, list: &[u32]) -> Result<(), AllocError>
        ensures ok { OnOk result (self.new ≡ self.old ++ list.now ∷ []) }
        ensures err { OnErr result (self.new ≡ self.old) }
    {
        self.spans.reserve(1)?;
        let start = self.numbers.as_slice().len();
        self.numbers.extend_from_slice(list)?;
        let len = list.len();
        self.spans.push_reserved(Span { start, len });
        Ok(())
    }

    /// Returns the list at an index, counted from 0.
    pub fn at(&self, place: usize) -> &[u32]
        requires { place < length self.now }
        ensures { result.now ≡ slice_index_or self.now place [] }
    {
        list_at(&self.numbers, &self.spans, place)
    }
}

// The numbers of a span.
fn numbers_in(numbers: &[u32], span: Span) -> &[u32]
    requires { span.start + span.len ≤ length numbers.now }
    ensures { result.now ≡ take span.len (drop span.start numbers.now) }
{
    &numbers[span.start..][..span.len]
}

// The list at an index.
fn list_at<'a>(numbers: &'a [u32], spans: &[Span], place: usize) -> &'a [u32]
    requires place { place < length spans.now }
    requires within { All (IsWithin numbers.now) spans.now }
    ensures { result.now ≡ slice_index_or (map (list_in numbers.entry.now) spans.now) place [] }
{
    numbers_in(numbers, spans[place])
}
