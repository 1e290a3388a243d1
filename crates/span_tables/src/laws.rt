//! Lemmas about the definitions, in the terms of the methodology. Each is the contract of a function that does nothing.
ghost use Rattle.std.specs.Prelude.{false, ◌≡◌, ◌≢◌, ℕ, ◌%◌, ◌≤◌};
ghost use Rattle.std.specs.Prelude.{List, ◌∷◌, filter, bytes_eq, IsPermutation, ℤ, pos};
ghost use Rattle.span_money.specs.Numbers.{int_sum_by};
ghost use Rattle.span_tables.specs.Laws.{FitsRooms, HaveRatios, IsRisingBy};
ghost use Rattle.span_tables.specs.Names.{distinct, has_repeat, is_among};
ghost use Rattle.span_tables.specs.Net.{held_of, holdings_of, net_of};
ghost use Rattle.span_tables.specs.Sides.{Room, spreads_formed};
ghost use Rattle.span_tables.specs.Slots.{IsMarked, with_slot};
ghost use Rattle.span_tables.specs.Tables.{rising_by};
ghost use Rattle.span_tables.specs.declared.records.Contract.{Contract};
ghost use Rattle.span_tables.specs.declared.records.InterRecord.{InterRecord};
ghost use Rattle.span_tables.specs.declared.records.IntraRecord.{IntraRecord};
ghost use Rattle.span_tables.specs.declared.records.PositionRecord.{PositionRecord};
ghost use Rattle.span_money.specs.declared.bits.TheConstants.{BITS};

/// A sum over the held contracts of a commodity equals the sum over all its contracts: a contract that is not held adds
/// nothing.
#[tactic(auto, using(crate::proofs::NetLaws::sum_of_held))]
pub fn held_contracts_are_enough()
    ensures { (f : Contract → ℤ → ℤ) → ((x : Contract) → f x (pos 0) ≡ pos 0)
        → (positions : List PositionRecord) (account commodity : List ℕ) (contracts : List Contract)
        → int_sum_by (λ h. f h.contract h.net) (held_of contracts (holdings_of contracts positions account) commodity)
        ≡ int_sum_by (λ x. f x (net_of positions account x.id)) (filter (λ x. bytes_eq x.commodity commodity) contracts) }
{}

/// The number of spreads formed is the greatest that uses no more than the side of each leg.
pub fn spreads_formed_are_greatest()
    ensures fit { (r : Room) (rs : List Room) → FitsRooms (spreads_formed (r ∷ rs)) (r ∷ rs) }
    ensures greatest { (r : Room) (rs : List Room) → HaveRatios (r ∷ rs) → (m : ℕ) → FitsRooms m (r ∷ rs)
        → m ≤ spreads_formed (r ∷ rs) }
{}

/// Spreads are sorted by priority, and none is lost.
#[tactic(auto, using(crate::proofs::OrderLaws::rising_rises, crate::proofs::OrderLaws::rising_permutation))]
pub fn spreads_are_in_order()
    ensures rising { (spreads : List InterRecord)
        → IsRisingBy (λ s. s.priority) (rising_by (λ s. s.priority) spreads) }
    ensures same { (spreads : List InterRecord)
        → IsPermutation spreads (rising_by (λ s. s.priority) spreads) }
    ensures intra_rising { (spreads : List IntraRecord)
        → IsRisingBy (λ s. s.priority) (rising_by (λ s. s.priority) spreads) }
    ensures intra_same { (spreads : List IntraRecord)
        → IsPermutation spreads (rising_by (λ s. s.priority) spreads) }
{}

/// Distinct names contain each name of a list exactly once, and no other name.
#[tactic(auto, using(crate::proofs::NameLaws::distinct_once, crate::proofs::NameLaws::distinct_same))]
pub fn distinct_names_stand_once()
    ensures once { (names : List (List ℕ)) → has_repeat bytes_eq (distinct names) ≡ false }
    ensures same { (names : List (List ℕ)) (name : List ℕ)
        → is_among (distinct names) name ≡ is_among names name }
{}

/// A number that was added to slots stays marked when others are added. Adding a number of another slot does not mark
/// it.
pub fn slots_keep_their_numbers()
    ensures added { (word number : ℕ) → IsMarked (with_slot word number) number }
    ensures kept { (word number other : ℕ) → IsMarked word other → IsMarked (with_slot word number) other }
    ensures alone { (word number other : ℕ) → other % BITS ≢ number % BITS
        → IsMarked (with_slot word number) other → IsMarked word other }
{}
